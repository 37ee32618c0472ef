use crate::maker::{index, selected};
use expr_type::{Halt, Valued};
use std::alloc::Global;
use std::process::Abort;
use std::test::Fail;
use sv_types::{is_narrow, width};
use type_kinds::is_two_state;

// What is selected from, the step, and the width with `u`nsigned, `s`igned or `t`wo-state, or the rule and the token of a break.
const STEPS: &[(&str, &str, u32, char)] = &[
    ("falling", "[i]", 1, 'u'),
    ("falling", "[5:2]", 4, 'u'),
    ("falling", "[3:3]", 1, 'u'),
    ("falling", "[i+:4]", 4, 'u'),
    ("falling", "[2:5]", 411, '6'),
    ("falling", "[99999:0]", 701, '5'),
    ("falling", ".a", 405, '1'),
    ("rising", "[2:5]", 4, 'u'),
    ("rising", "[3:3]", 1, 'u'),
    ("rising", "[5:2]", 411, '6'),
    ("matrix", "[i]", 8, 's'),
    ("matrix", "[i+:4]", 32, 'u'),
    ("list", "[i]", 8, 's'),
    ("memory", "[i]", 8, 's'),
    ("memory", "[5:2]", 508, '5'),
];

const OTHERS: &[(&str, &str, u32, char)] = &[
    ("list", "[5:2]", 508, '5'),
    ("list", "[i+:4]", 508, '5'),
    ("packed", ".b", 16, 's'),
    ("packed", ".c", 405, '3'),
    ("packed", "[i]", 1, 'u'),
    ("packed", "[5:2]", 4, 'u'),
    ("plain", ".a", 8, 's'),
    ("plain", "[i]", 508, '5'),
    ("enum", "[5:2]", 4, 'u'),
    ("enum", ".a", 405, '1'),
    ("integer", "[i]", 1, 't'),
    ("integer", "[5:2]", 4, 't'),
];

fn kind(v: &Valued) -> char {
    if is_two_state(&v.expr.of) {
        't'
    } else if eval_parts::is_signed(&v.expr.of) {
        's'
    } else {
        'u'
    }
}

fn digit(at: u32) -> char {
    match at {
        1 => '1',
        2 => '2',
        3 => '3',
        5 => '5',
        6 => '6',
        _ => '-',
    }
}

fn shown(made: Result<Valued, Halt>) -> (u32, char) {
    match made {
        Ok(v) => {
            if is_narrow(&v.expr.of) {
                (width(&v.expr.of), kind(&v))
            } else {
                (0, '-')
            }
        }
        Err(Halt::Breaks { at, rule }) => (u32::from(rule), digit(at)),
        Err(Halt::Memory) => (0, 'm'),
        Err(Halt::Quiet) => (0, 'q'),
    }
}

#[test]
fn elements_and_parts(rt: HostRuntime) -> Result<(), Fail> {
    for (word, step, number, kind) in STEPS {
        assert_eq!(rt; shown(selected(rt.alloc(), word, step)), (*number, *kind));
    }
    Ok(())
}

#[test]
fn of_other_types(rt: HostRuntime) -> Result<(), Fail> {
    for (word, step, number, kind) in OTHERS {
        assert_eq!(rt; shown(selected(rt.alloc(), word, step)), (*number, *kind));
    }
    Ok(())
}

#[test]
fn indices(rt: HostRuntime) -> Result<(), Fail> {
    assert_eq!(rt; shown(index(rt.alloc(), 64)), (64, 'u'));
    assert_eq!(rt; shown(index(rt.alloc(), 65)), (507, '6'));
    Ok(())
}
