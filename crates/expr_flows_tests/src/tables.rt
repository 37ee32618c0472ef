//! Expressions with what is known of them before they run. Local 0 is a variable of a loop that holds 2.

use b4_core::BinOp;
use sv_types::Way;
use tree_words::Word;
use tree_words::Word::{
    Assign, Binary, Bits, Block, Call, Concat, Constant, Formal, Function, Index, Int, Local, Loop,
    Member, Part, Scalar, Signal, Slide, Type, Vector,
};

/// An expression, what it reads, each time with its token, and whether its value is known; or where valuing an index takes too long.
pub const READS: &[(&[Word], &str)] = &[
    (&[Vector(7, 0), Signal(1)], "1[0:8)@1"),
    (&[Bits("0101")], "known"),
    (&[Vector(31, 0), Local(0)], "known"),
    (&[Vector(31, 0), Local(1)], "L1[0:32)@1"),
    // a[3], a[i], a[b], a[9] of eight bits
    (
        &[Vector(7, 0), Signal(1), Bits("011"), Scalar, Index],
        "1[3:4)@3",
    ),
    (
        &[
            Vector(7, 0),
            Signal(1),
            Vector(31, 0),
            Local(0),
            Scalar,
            Index,
        ],
        "1[2:3)@3",
    ),
    (
        &[
            Vector(7, 0),
            Signal(1),
            Vector(2, 0),
            Signal(2),
            Scalar,
            Index,
        ],
        "1[0:8)@3 2[0:3)@2",
    ),
    (
        &[Vector(7, 0), Signal(1), Bits("1001"), Scalar, Index],
        "1[0:0)@3",
    ),
    // a[6:3], a[i +: 4], a[6:3][b]
    (
        &[Vector(7, 0), Signal(1), Vector(3, 0), Part(6, 3)],
        "1[3:7)@2",
    ),
    (
        &[
            Vector(7, 0),
            Signal(1),
            Vector(31, 0),
            Local(0),
            Vector(3, 0),
            Slide(4, true),
        ],
        "1[2:6)@3",
    ),
    (
        &[
            Vector(7, 0),
            Signal(1),
            Vector(3, 0),
            Part(6, 3),
            Vector(2, 0),
            Signal(2),
            Scalar,
            Index,
        ],
        "1[3:7)@4 2[0:3)@3",
    ),
    (
        &[
            Vector(31, 0),
            Local(0),
            Bits("00000000000000000000000000000001"),
            Binary(BinOp::Add),
        ],
        "known",
    ),
    (
        &[
            Vector(31, 0),
            Local(0),
            Vector(7, 0),
            Signal(1),
            Binary(BinOp::Add),
        ],
        "1[0:8)@2",
    ),
    // a[i + 1]
    (
        &[
            Vector(7, 0),
            Signal(1),
            Vector(31, 0),
            Local(0),
            Bits("00000000000000000000000000000001"),
            Binary(BinOp::Add),
            Scalar,
            Index,
        ],
        "1[3:4)@5",
    ),
    (
        &[Vector(7, 0), Signal(1), Vector(2, 0), Signal(2), Concat(2)],
        "1[0:8)@1 2[0:3)@2",
    ),
];

/// Calls and members.
pub const CALLS: &[(&[Word], &str)] = &[
    // sum(3, 6), sum(b, i), a[sum(1, 2)]
    (
        &[Vector(3, 0), Bits("0011"), Bits("0110"), Call(0, 2)],
        "known",
    ),
    (
        &[
            Vector(3, 0),
            Vector(2, 0),
            Signal(2),
            Vector(31, 0),
            Local(0),
            Call(0, 2),
        ],
        "2[0:3)@1",
    ),
    (
        &[
            Vector(7, 0),
            Signal(1),
            Vector(3, 0),
            Bits("0001"),
            Bits("0010"),
            Call(0, 2),
            Scalar,
            Index,
        ],
        "1[3:4)@5",
    ),
    // an index that takes too long
    (
        &[Vector(7, 0), Signal(1), Scalar, Call(1, 0), Scalar, Index],
        "long @2",
    ),
    // the members of a struct, the first one most significant
    (
        &[
            Type("four packed 3 0 four packed 7 0 struct 2"),
            Signal(1),
            Vector(3, 0),
            Member(0),
        ],
        "1[8:12)@2",
    ),
    (
        &[
            Type("four packed 3 0 four packed 7 0 struct 2"),
            Signal(1),
            Vector(7, 0),
            Member(1),
            Bits("001"),
            Scalar,
            Index,
        ],
        "1[1:2)@4",
    ),
];

/// A target, what its indices read, and what it writes, with a question mark where that may be less.
pub const TARGETS: &[(&[Word], &str)] = &[
    (&[Vector(7, 0), Signal(1)], "/ 1[0:8)@1"),
    (
        &[
            Vector(7, 0),
            Signal(1),
            Vector(31, 0),
            Local(0),
            Scalar,
            Index,
        ],
        "/ 1[2:3)@3",
    ),
    (
        &[
            Vector(7, 0),
            Signal(1),
            Vector(2, 0),
            Signal(2),
            Scalar,
            Index,
        ],
        "2[0:3)@2 / 1[0:8)@3?",
    ),
    (
        &[Vector(7, 0), Signal(1), Vector(2, 0), Signal(2), Concat(2)],
        "/ 1[0:8)@1 2[0:3)@2",
    ),
    (
        &[
            Vector(7, 0),
            Signal(1),
            Vector(2, 0),
            Signal(3),
            Scalar,
            Index,
            Vector(2, 0),
            Signal(2),
            Concat(2),
        ],
        "3[0:3)@2 / 1[0:8)@3? 2[0:3)@4",
    ),
    (&[Bits("0101")], "/"),
];

/// The sum of two numbers of four bits, and a loop without end.
pub const FUNCTIONS: &[Word] = &[
    Vector(3, 0),
    Vector(3, 0),
    Formal(1, Way::Input),
    Vector(3, 0),
    Formal(2, Way::Input),
    Vector(3, 0),
    Local(0),
    Vector(3, 0),
    Local(1),
    Vector(3, 0),
    Local(2),
    Binary(BinOp::Add),
    Assign(1, false),
    Function,
    Scalar,
    Int,
    Constant("00000000000000000000000000000000"),
    Bits("1"),
    Int,
    Local(1),
    Block(0),
    Loop(1),
    Function,
];
