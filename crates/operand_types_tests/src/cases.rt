use crate::maker::expression;
use expr_type::Halt;
use std::alloc::Global;
use std::process::Abort;
use std::test::Fail;
use sv_types::{SvType, is_narrow, width};
use type_kinds::is_enum;

// The width, `u`nsigned, `s`igned or an `e`num of what is whole, and the token and rule of a break.
const BINARY: &[(&str, u32, char)] = &[
    ("u8 s16 +", 16, 'u'),
    ("s8 s16 +", 16, 's'),
    ("e e |", 2, 'u'),
    ("s8 s16 <", 1, 'u'),
    ("u129 u8 |", 129, 'u'),
    ("u129 u8 ==", 1, 'u'),
    ("s8 u129 <<", 8, 's'),
    ("u129 u8 u8 + <<", 129, 'u'),
    ("u8 u8 + u129 <<", 8, 'u'),
    ("s8 u8 **", 8, 's'),
    ("l u8 +", 508, '2'),
    ("u8 l &&", 508, '2'),
    ("m m ==", 508, '2'),
    ("u129 u8 +", 502, '2'),
    ("u129 u8 <", 502, '2'),
    ("s8 u129 **", 502, '2'),
    ("u8 u8 + u129 |", 502, '2'),
    ("u8 u8 + u129 ==", 502, '2'),
];

const UNARY: &[(&str, u32, char)] = &[
    ("s8 minus", 8, 's'),
    ("u129 ~", 129, 'u'),
    ("s16 ^", 1, 'u'),
    ("s8 !", 1, 'u'),
    ("s8 plus", 8, 's'),
    ("e plus", 2, 'u'),
    ("u129 minus", 502, '1'),
    ("u8 minus u129 |", 502, '1'),
    ("l ~", 508, '1'),
    ("l bits", 508, '0'),
];

const CHOICES: &[(&str, u32, char)] = &[
    ("bit u8 s16 ?", 16, 'u'),
    ("bit s8 s16 ?", 16, 's'),
    ("bit e e ?", 2, 'e'),
    ("bit e f ?", 2, 'u'),
    ("bit e bit ?", 2, 'u'),
    ("u129 u8 u8 ?", 8, 'u'),
    ("bit l u8 ?", 504, '3'),
    ("l l l ?", 504, '3'),
    ("m u8 u8 ?", 508, '3'),
    ("bit m m ?", 504, '3'),
    ("l u8 u8 ?", 508, '3'),
    ("bit u8 u8 + u129 ?", 502, '3'),
];

const PARTS: &[(&str, u32, char)] = &[
    ("u8 s8 {}", 16, 'u'),
    ("e bit {}", 3, 'u'),
    ("s8 9{}", 72, 'u'),
    ("u8 number {}", 501, '1'),
    ("number number {}", 501, '0'),
    ("l u8 {}", 508, '0'),
    ("u40000 u40000 {}", 701, '2'),
    ("u40000 9{}", 701, '1'),
];

const INSIDE: &[(&str, u32, char)] = &[
    ("u8 s8 u8 u8 inside", 1, 'u'),
    ("u8 u129 u8 u8 inside", 1, 'u'),
    ("u8 u8 u8 u129 inside", 502, '4'),
    ("u8 u8 + u129 u8 u8 inside", 502, '2'),
    ("u129 u8 u8 u8 + u8 inside", 502, '6'),
    ("u8 u8 l u8 inside", 508, '4'),
    ("l u8 u8 u8 inside", 508, '4'),
];

fn kind(of: &SvType, signed: bool) -> char {
    if is_enum(of) {
        'e'
    } else if signed {
        's'
    } else {
        'u'
    }
}

fn digit(at: u32) -> char {
    match at {
        0 => '0',
        1 => '1',
        2 => '2',
        3 => '3',
        4 => '4',
        5 => '5',
        6 => '6',
        _ => '-',
    }
}

fn shown(alloc: Global, words: &str) -> (u32, char) {
    match expression(alloc, words) {
        Ok(v) => {
            if is_narrow(&v.expr.of) {
                let signed = eval_parts::is_signed(&v.expr.of);
                (width(&v.expr.of), kind(&v.expr.of, signed))
            } else {
                (0, '-')
            }
        }
        Err(Halt::Breaks { at, rule }) => (u32::from(rule), digit(at)),
        Err(Halt::Memory) => (0, 'm'),
        Err(Halt::Quiet) => (0, 'q'),
    }
}

#[test]
fn operators_between(rt: HostRuntime) -> Result<(), Fail> {
    for (words, number, kind) in BINARY {
        assert_eq!(rt; shown(rt.alloc(), words), (*number, *kind));
    }
    Ok(())
}

#[test]
fn operators_before(rt: HostRuntime) -> Result<(), Fail> {
    for (words, number, kind) in UNARY {
        assert_eq!(rt; shown(rt.alloc(), words), (*number, *kind));
    }
    Ok(())
}

#[test]
fn choices(rt: HostRuntime) -> Result<(), Fail> {
    for (words, number, kind) in CHOICES {
        assert_eq!(rt; shown(rt.alloc(), words), (*number, *kind));
    }
    Ok(())
}

#[test]
fn concatenations(rt: HostRuntime) -> Result<(), Fail> {
    for (words, number, kind) in PARTS {
        assert_eq!(rt; shown(rt.alloc(), words), (*number, *kind));
    }
    Ok(())
}

#[test]
fn memberships(rt: HostRuntime) -> Result<(), Fail> {
    for (words, number, kind) in INSIDE {
        assert_eq!(rt; shown(rt.alloc(), words), (*number, *kind));
    }
    Ok(())
}
