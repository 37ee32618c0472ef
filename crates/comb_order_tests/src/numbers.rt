use comb_order::comb_numbers;
use sqlite_items::Items;
use std::alloc::{AllocError, Global};
use std::process::Abort;
use std::test::Fail;
use sv_source::{Place, Spot, Text};
use sv_types::{EdgeList, Process, ProcessKind, Stmt};

fn kind(alloc: Global, word: &str) -> ProcessKind {
    match word {
        "assign" => ProcessKind::Continuous,
        "link" => ProcessKind::Link(0),
        "comb" => ProcessKind::Comb,
        "latch" => ProcessKind::Latch,
        "star" => ProcessKind::Star,
        _ => ProcessKind::Edges(EdgeList::new(alloc)),
    }
}

fn process(alloc: Global, word: &str) -> Process {
    Process {
        instance: 1,
        kind: kind(alloc, word),
        body: Stmt::Break,
        spot: Spot {
            at: 0,
            place: Place {
                file: 0,
                line: 1,
                col: 1,
            },
            word: Text::new(alloc),
        },
    }
}

fn processes(alloc: Global, text: &str) -> Result<Items<Process>, AllocError> {
    let mut all = Items::new(alloc);
    for word in text.split(' ') {
        all.push(process(alloc, word))?;
    }
    Ok(all)
}

// Processes by their kinds, and the numbers of the combinational ones.
const CASES: &[(&str, &[u32])] = &[
    ("assign", &[0]),
    ("ff", &[]),
    ("ff assign ff ff comb", &[1, 4]),
    ("link latch star ff comb assign", &[0, 1, 2, 4, 5]),
];

#[test]
fn numbers(rt: HostRuntime) -> Result<(), Fail> {
    let alloc = rt.alloc();
    for (text, wanted) in CASES {
        let processes = processes(alloc, text)?;
        assert!(rt; processes.len() < 1000);
        let numbers = comb_numbers(alloc, processes.as_slice())?;
        assert_eq!(rt; numbers.as_slice(), *wanted, "of {text}");
    }
    Ok(())
}
