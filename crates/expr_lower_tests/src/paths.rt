//! Select paths. Signals by number are a, b and so on, the local is t.

use tree_words::Word;
use tree_words::Word::{
    Bits, Constant, Index, Local, Member, Part, Pattern, Scalar, Signal, Signed, Slide, Type,
    Vector,
};

/// Steps that are known.
pub const STEPS: &[(&[Word], u32, &str)] = &[
    // a
    (&[Vector(7, 0), Signal(0)], 8, "a"),
    // a[3]
    (
        &[Vector(7, 0), Signal(0), Bits("011"), Scalar, Index],
        1,
        "a[3]",
    ),
    // a[5:2]
    (
        &[Vector(7, 0), Signal(0), Vector(3, 0), Part(5, 2)],
        4,
        "a[5:2]",
    ),
    // r[2:5] of [0:7]
    (
        &[Vector(0, 7), Signal(1), Vector(3, 0), Part(2, 5)],
        4,
        "b[5:2]",
    ),
    // a[2 +: 4]
    (
        &[
            Vector(7, 0),
            Signal(0),
            Bits("010"),
            Vector(3, 0),
            Slide(4, true),
        ],
        4,
        "a[5:2]",
    ),
    // a[6 -: 3]
    (
        &[
            Vector(7, 0),
            Signal(0),
            Bits("110"),
            Vector(2, 0),
            Slide(3, false),
        ],
        3,
        "a[6:4]",
    ),
    // s.m of a packed struct
    (
        &[
            Type("four packed 3 0 four packed 7 0 struct 2"),
            Signal(2),
            Vector(7, 0),
            Member(1),
        ],
        8,
        "c[7:0]",
    ),
    // s.m, the first one
    (
        &[
            Type("four packed 3 0 four packed 7 0 struct 2"),
            Signal(2),
            Vector(3, 0),
            Member(0),
        ],
        4,
        "c[11:8]",
    ),
    // m[2] of an unpacked array
    (
        &[
            Type("four packed 7 0 array 0 3"),
            Signal(3),
            Bits("10"),
            Vector(7, 0),
            Index,
        ],
        8,
        "d[15:8]",
    ),
    // an element with an index that has x
    (
        &[Vector(7, 0), Signal(0), Bits("0x1"), Scalar, Index],
        1,
        "a[8]",
    ),
    // one out of range
    (
        &[Vector(7, 0), Signal(0), Bits("1001"), Scalar, Index],
        1,
        "a[8]",
    ),
    // partly out of range
    (
        &[Vector(7, 0), Signal(0), Vector(3, 0), Part(9, 6)],
        4,
        "sv2v_h_select_4_33_2(a[7:6],$signed('000000000000000000000000000000000))",
    ),
    // a two-state member of an unpacked struct
    (
        &[
            Type("two packed 3 0 four packed 3 0 plain 2"),
            Signal(4),
            Type("two packed 3 0"),
            Member(0),
        ],
        4,
        "sv2v_h_two_state_4(e[7:4])",
    ),
];

/// Indices that are known only when the text runs.
pub const INDICES: &[(&[Word], u32, &str)] = &[
    // a[b]
    (
        &[
            Vector(7, 0),
            Signal(0),
            Vector(2, 0),
            Signal(1),
            Scalar,
            Index,
        ],
        1,
        "a[b+:1]",
    ),
    // r[b] of [0:7]
    (
        &[
            Vector(0, 7),
            Signal(0),
            Vector(2, 0),
            Signal(1),
            Scalar,
            Index,
        ],
        1,
        "a[$signed({$signed('0000000111)-$signed({'0,b})})*$signed('0000000001)+:1]",
    ),
    // m[b] of words
    (
        &[
            Type("four packed 7 0 array 0 3"),
            Signal(0),
            Vector(1, 0),
            Signal(1),
            Vector(7, 0),
            Index,
        ],
        8,
        "a[$signed({$signed('0000000000011)-$signed({'0,b})})*$signed('0000000001000)+:8]",
    ),
    // m[b][c]: an inner index reads no neighbour
    (
        &[
            Type("four packed 7 0 array 0 3"),
            Signal(0),
            Vector(1, 0),
            Signal(1),
            Vector(7, 0),
            Index,
            Vector(3, 0),
            Signal(2),
            Scalar,
            Index,
        ],
        1,
        "sv2v_h_select_1_5_8(a[$signed({$signed('0000000000011)-$signed({'0,b})})*$signed('0000000001000)+:8],{'0,c})",
    ),
    // a[b +: 4]
    (
        &[
            Vector(7, 0),
            Signal(0),
            Vector(2, 0),
            Signal(1),
            Vector(3, 0),
            Slide(4, true),
        ],
        4,
        "a[b+:4]",
    ),
    // a[b -: 4]
    (
        &[
            Vector(7, 0),
            Signal(0),
            Vector(2, 0),
            Signal(1),
            Vector(3, 0),
            Slide(4, false),
        ],
        4,
        "a[$signed({$signed({'0,b})-$signed('0000000011)})*$signed('0000000001)+:4]",
    ),
    // a[t] by a local
    (
        &[
            Vector(7, 0),
            Signal(0),
            Vector(2, 0),
            Local(0),
            Scalar,
            Index,
        ],
        1,
        "a[t+:1]",
    ),
    // s.m[b]
    (
        &[
            Type("four packed 3 0 four packed 7 0 struct 2"),
            Signal(2),
            Vector(7, 0),
            Member(1),
            Vector(2, 0),
            Signal(1),
            Scalar,
            Index,
        ],
        1,
        "sv2v_h_select_1_4_8(c[7:0],{'0,b})",
    ),
    // by a signed index of [3:-4]
    (
        &[
            Vector(3, -4),
            Signal(0),
            Word::SignedVector(2, 0),
            Signal(1),
            Scalar,
            Index,
        ],
        1,
        "a[$signed({$signed($signed(b))-$signed('1111111100)})*$signed('0000000001)+:1]",
    ),
];

/// Other things that select paths stand on.
pub const BASES: &[(&[Word], u32, &str)] = &[
    // a constant's element
    (
        &[
            Type("four packed 3 0 array 0 1"),
            Constant("10100101"),
            Vector(0, 0),
            Signal(1),
            Vector(3, 0),
            Index,
        ],
        4,
        "sv2v_h_select_4_13_8({'10100101},$signed({$signed('0000000000001)-$signed({'0,b})})*$signed('0000000000100))",
    ),
    // a pattern's member
    (
        &[
            Vector(3, 0),
            Signal(0),
            Vector(7, 0),
            Signal(1),
            Type("four packed 3 0 four packed 7 0 struct 2"),
            Pattern(2),
            Vector(7, 0),
            Member(1),
        ],
        8,
        "sv2v_h_select_8_33_12({{a,b}},$signed('000000000000000000000000000000000))",
    ),
    // a number's bit
    (
        &[Signed("1101"), Bits("01"), Scalar, Index],
        1,
        "sv2v_h_select_1_33_4({$signed('1101)},$signed('000000000000000000000000000000001))",
    ),
];
