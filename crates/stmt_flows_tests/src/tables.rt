//! Statements with what is known of them before they run.

use b4_core::{BinOp, OrdOp};
use sv_types::{CaseKind, Way};
use tree_words::Word;
use tree_words::Word::{
    Assign, Binary, Bits, Block, Break, Call, Case, Constant, Declare, Formal, Function, If, Index,
    Int, Local, Loop, Order, Part, Return, Scalar, Set, Signal, Signed, Start, Task, Upto, Vector,
};

/// Assignments and branches, and what is found of each: its reads, writes and nonblocking writes, each with its token and with a
/// question mark where it may write less; the bits that all paths write; the bits that a path reads before it wrote them; how
/// many statements there are.
pub const BRANCHES: &[(&[Word], &str)] = &[
    // s2 = s1
    (
        &[
            Vector(7, 0),
            Signal(2),
            Vector(7, 0),
            Signal(1),
            Assign(1, false),
        ],
        "reads 1[0:8)@2; writes 2[0:8)@1; sure 2[0:8); early 1[0:8)@2; 1",
    ),
    // s2 <= s1
    (
        &[
            Vector(7, 0),
            Signal(2),
            Vector(7, 0),
            Signal(1),
            Assign(1, true),
        ],
        "reads 1[0:8)@2; later 2[0:8)@1; early 1[0:8)@2; 1",
    ),
    // what was written isn't read early
    (
        &[
            Set(1, "00000001"),
            Vector(7, 0),
            Signal(2),
            Vector(7, 0),
            Signal(1),
            Assign(1, false),
            Block(2),
        ],
        "reads 1[0:8)@4; writes 1[0:8)@1 2[0:8)@3; sure 1[0:8) 2[0:8); 3",
    ),
    // a part of it is
    (
        &[
            Vector(7, 0),
            Signal(1),
            Vector(3, 0),
            Part(3, 0),
            Bits("0001"),
            Assign(1, false),
            Vector(7, 0),
            Signal(2),
            Vector(7, 0),
            Signal(1),
            Assign(1, false),
            Block(2),
        ],
        "reads 1[0:8)@5; writes 1[0:4)@2 2[0:8)@4; sure 1[0:4) 2[0:8); early 1[4:8)@5; 3",
    ),
    // s1[s3[1:0]] = 1: an index that isn't known may write less
    (
        &[
            Vector(7, 0),
            Signal(1),
            Vector(7, 0),
            Signal(3),
            Vector(1, 0),
            Part(1, 0),
            Scalar,
            Index,
            Bits("1"),
            Assign(1, false),
        ],
        "reads 3[0:2)@3; writes 1[0:8)@4?; early 3[0:2)@3; 1",
    ),
    // if (s3) s1 = .. else s1 = ..
    (
        &[
            Vector(7, 0),
            Signal(3),
            Set(1, "00000001"),
            Set(1, "00000010"),
            If(true),
        ],
        "reads 3[0:8)@1; writes 1[0:8)@2 1[0:8)@4; sure 1[0:8); early 3[0:8)@1; 3",
    ),
    // without else
    (
        &[Vector(7, 0), Signal(3), Set(1, "00000001"), If(false)],
        "reads 3[0:8)@1; writes 1[0:8)@2; early 3[0:8)@1; 2",
    ),
    // a case with a default
    (
        &[
            Vector(7, 0),
            Signal(3),
            Bits("00000000"),
            Set(1, "00000001"),
            Set(1, "00000010"),
            Case(CaseKind::Plain, "1", true),
        ],
        "reads 3[0:8)@1; writes 1[0:8)@3 1[0:8)@5; sure 1[0:8); early 3[0:8)@1; 3",
    ),
    // without
    (
        &[
            Vector(7, 0),
            Signal(3),
            Bits("00000000"),
            Set(1, "00000001"),
            Case(CaseKind::Plain, "1", false),
        ],
        "reads 3[0:8)@1; writes 1[0:8)@3; early 3[0:8)@1; 2",
    ),
];

/// Loops, jumps, locals and calls: also whether loops can't be unrolled, the tokens at which a local is read that wasn't
/// written, and which jumps end a path.
pub const LOOPS: &[(&[Word], &str)] = &[
    // for (int i = 0; i < 2; i++) s1[i] = 1
    (
        &[
            Upto(5, "010"),
            Vector(7, 0),
            Signal(1),
            Int,
            Local(5),
            Scalar,
            Index,
            Bits("1"),
            Assign(1, false),
            Loop(5),
        ],
        "writes L5[0:32)@0 1[0:1)@10 L5[0:32)@0 1[1:2)@10 L5[0:32)@0; sure 1[0:2) L5[0:32); 2",
    ),
    // a bound that isn't known
    (
        &[
            Int,
            Constant("00000000000000000000000000000000"),
            Int,
            Local(5),
            Vector(7, 0),
            Signal(3),
            Order(OrdOp::Less),
            Int,
            Local(5),
            Signed("01"),
            Binary(BinOp::Add),
            Set(1, "00000001"),
            Loop(5),
        ],
        "writes L5[0:32)@0; sure L5[0:32); endless; 0",
    ),
    // a jump ends a path
    (
        &[
            Vector(7, 0),
            Signal(3),
            Break,
            If(false),
            Set(1, "00000001"),
            Block(2),
        ],
        "reads 3[0:8)@1; writes 1[0:8)@2; sure 1[0:8); early 3[0:8)@1; breaks; 4",
    ),
    // all of them, and what is behind isn't read early
    (
        &[
            Return,
            Vector(7, 0),
            Signal(2),
            Vector(7, 0),
            Signal(1),
            Assign(1, false),
            Block(2),
        ],
        "reads 1[0:8)@2; writes 2[0:8)@1; no end; returns; 3",
    ),
    // a local that is read before it is assigned
    (
        &[
            Vector(7, 0),
            Signal(1),
            Vector(7, 0),
            Local(5),
            Assign(1, false),
            Vector(7, 0),
            Declare(5),
            Block(1),
        ],
        "reads L5[0:8)@2; writes L5[0:8)@0 1[0:8)@1; sure 1[0:8) L5[0:8); unset @2; 2",
    ),
    // one that isn't
    (
        &[
            Vector(7, 0),
            Local(5),
            Bits("00000001"),
            Assign(1, false),
            Vector(7, 0),
            Signal(1),
            Vector(7, 0),
            Local(5),
            Assign(1, false),
            Vector(7, 0),
            Declare(5),
            Block(2),
        ],
        "reads L5[0:8)@4; writes L5[0:8)@0 L5[0:8)@1 1[0:8)@3; sure 1[0:8) L5[0:8); 3",
    ),
    // one that starts with a value
    (
        &[
            Vector(7, 0),
            Signal(3),
            Vector(7, 0),
            Start(5),
            Vector(7, 0),
            Signal(1),
            Vector(7, 0),
            Local(5),
            Assign(1, false),
            Block(1),
        ],
        "reads 3[0:8)@1 L5[0:8)@3; writes L5[0:8)@0 1[0:8)@2; sure 1[0:8) L5[0:8); early 3[0:8)@1; 2",
    ),
    // a task with an input, an output and an inout
    (
        &[
            Vector(7, 0),
            Signal(3),
            Vector(7, 0),
            Signal(1),
            Vector(7, 0),
            Signal(2),
            Task(0, 3),
        ],
        "reads 3[0:8)@1 2[0:8)@3; writes 1[0:8)@2 2[0:8)@3; sure 1[0:8) 2[0:8); early 3[0:8)@1 2[0:8)@3; 1",
    ),
    // an index that takes too long
    (
        &[
            Vector(7, 0),
            Signal(1),
            Scalar,
            Call(1, 0),
            Scalar,
            Index,
            Bits("1"),
            Assign(1, false),
        ],
        "long @2",
    ),
];

/// A task, and a loop without end.
pub const FUNCTIONS: &[Word] = &[
    Scalar,
    Vector(7, 0),
    Formal(1, Way::Input),
    Vector(7, 0),
    Formal(2, Way::Output),
    Vector(7, 0),
    Formal(3, Way::Inout),
    Vector(7, 0),
    Local(2),
    Vector(7, 0),
    Local(1),
    Assign(1, false),
    Function,
    Scalar,
    Int,
    Constant("00000000000000000000000000000000"),
    Bits("1"),
    Int,
    Local(1),
    Block(0),
    Loop(1),
    Function,
];
