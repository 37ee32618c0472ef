//! Expressions with the values that follow from the standard.

use b4_core::{BinOp, Bit4, ShiftOp};
use tree_words::Word;
use tree_words::Word::{
    Binary, Bits, Both, Cast, Choose, Concat, Constant, Fill, Index, Inside, Local, Member,
    Pattern, Scalar, Shift, Signal, Signed, SignedVector, Slide, Stream, Type, Vector,
};

/// Members and elements of constants (clauses 7.2 to 7.4 and 11.5.1).
pub const PATHS: &[(&[Word], &str)] = &[
    // {u.s.h[0], u.s.h[7], u.s.l[7], u.s.l[0]}
    (
        &[
            Type("four packed 0 7 four packed 7 0 struct 2 four packed 15 0 union 2"),
            Constant("1000000000000001"),
            Type("four packed 0 7 four packed 7 0 struct 2"),
            Member(0),
            Vector(0, 7),
            Member(0),
            Bits("000"),
            Scalar,
            Index,
            Type("four packed 0 7 four packed 7 0 struct 2 four packed 15 0 union 2"),
            Constant("1000000000000001"),
            Type("four packed 0 7 four packed 7 0 struct 2"),
            Member(0),
            Vector(0, 7),
            Member(0),
            Bits("111"),
            Scalar,
            Index,
            Type("four packed 0 7 four packed 7 0 struct 2 four packed 15 0 union 2"),
            Constant("1000000000000001"),
            Type("four packed 0 7 four packed 7 0 struct 2"),
            Member(0),
            Vector(7, 0),
            Member(1),
            Bits("111"),
            Scalar,
            Index,
            Type("four packed 0 7 four packed 7 0 struct 2 four packed 15 0 union 2"),
            Constant("1000000000000001"),
            Type("four packed 0 7 four packed 7 0 struct 2"),
            Member(0),
            Vector(7, 0),
            Member(1),
            Bits("000"),
            Scalar,
            Index,
            Concat(4),
        ],
        "[1001]",
    ),
    // the same
    (
        &[
            Type("four packed 0 7 four packed 7 0 struct 2 four packed 15 0 union 2"),
            Constant("0000000110000000"),
            Type("four packed 0 7 four packed 7 0 struct 2"),
            Member(0),
            Vector(0, 7),
            Member(0),
            Bits("000"),
            Scalar,
            Index,
            Type("four packed 0 7 four packed 7 0 struct 2 four packed 15 0 union 2"),
            Constant("0000000110000000"),
            Type("four packed 0 7 four packed 7 0 struct 2"),
            Member(0),
            Vector(0, 7),
            Member(0),
            Bits("111"),
            Scalar,
            Index,
            Type("four packed 0 7 four packed 7 0 struct 2 four packed 15 0 union 2"),
            Constant("0000000110000000"),
            Type("four packed 0 7 four packed 7 0 struct 2"),
            Member(0),
            Vector(7, 0),
            Member(1),
            Bits("111"),
            Scalar,
            Index,
            Type("four packed 0 7 four packed 7 0 struct 2 four packed 15 0 union 2"),
            Constant("0000000110000000"),
            Type("four packed 0 7 four packed 7 0 struct 2"),
            Member(0),
            Vector(7, 0),
            Member(1),
            Bits("000"),
            Scalar,
            Index,
            Concat(4),
        ],
        "[0110]",
    ),
    // a[i][j] of ones
    (
        &[
            Type("four packed 7 0 packed 3 0"),
            Constant("11111111111111111111111111111111"),
            Bits("01"),
            Vector(7, 0),
            Index,
            Bits("1001"),
            Scalar,
            Index,
        ],
        "x",
    ),
    // a[i][k]
    (
        &[
            Type("four packed 7 0 packed 3 0"),
            Constant("11111111111111111111111111111111"),
            Bits("01"),
            Vector(7, 0),
            Index,
            Signed("1111"),
            Scalar,
            Index,
        ],
        "x",
    ),
    // a[i][j]
    (
        &[
            Type("four packed 7 0 packed 3 0"),
            Constant("11111111111111111111111111111111"),
            Bits("01"),
            Vector(7, 0),
            Index,
            Bits("0x11"),
            Scalar,
            Index,
        ],
        "x",
    ),
    // a[i][k]
    (
        &[
            Type("four packed 7 0 packed 3 0"),
            Constant("11111111111111111111111111111111"),
            Bits("01"),
            Vector(7, 0),
            Index,
            Signed("1000"),
            Scalar,
            Index,
        ],
        "x",
    ),
    // a[i][j]
    (
        &[
            Type("four packed 7 0 packed 3 0"),
            Constant("11111111111111111111111111111111"),
            Bits("01"),
            Vector(7, 0),
            Index,
            Bits("0111"),
            Scalar,
            Index,
        ],
        "1",
    ),
    // a[i][k]
    (
        &[
            Type("four packed 7 0 packed 3 0"),
            Constant("11111111111111111111111111111111"),
            Bits("01"),
            Vector(7, 0),
            Index,
            Signed("0111"),
            Scalar,
            Index,
        ],
        "1",
    ),
];

/// `inside` (clause 11.4.13).
pub const ALTERNATIVES: &[(&[Word], &str)] = &[
    // 4'b10x1 inside {4'b1??1, [4'd2:4'd3]}
    (
        &[
            Bits("10x1"),
            Bits("1zz1"),
            Bits("0010"),
            Bits("0011"),
            Inside("vr"),
        ],
        "1",
    ),
    // 4'b0x01 inside {4'b1??1, [4'd2:4'd3]}
    (
        &[
            Bits("0x01"),
            Bits("1zz1"),
            Bits("0010"),
            Bits("0011"),
            Inside("vr"),
        ],
        "x",
    ),
    // 4'b0010 inside {4'b1??1, [4'd2:4'd3]}
    (
        &[
            Bits("0010"),
            Bits("1zz1"),
            Bits("0010"),
            Bits("0011"),
            Inside("vr"),
        ],
        "1",
    ),
    // 4'b0100 inside {4'b1??1, [4'd2:4'd3]}
    (
        &[
            Bits("0100"),
            Bits("1zz1"),
            Bits("0010"),
            Bits("0011"),
            Inside("vr"),
        ],
        "0",
    ),
    // 4'b0x01 inside {4'b0001}
    (&[Bits("0x01"), Bits("0001"), Inside("v")], "x"),
    // 4'b1010 inside {4'b0001}
    (&[Bits("1010"), Bits("0001"), Inside("v")], "0"),
    // 4'sb1111 inside {8'sb11111111}: both sides are extended
    (&[Signed("1111"), Signed("11111111"), Inside("v")], "1"),
];

/// Patterns, streams and constants (clauses 10.9 and 11.4.14).
pub const PATTERNS: &[(&[Word], &str)] = &[
    // t'{default: '0, hi: (a + b) >> 1}: the item has five bits before it is cut
    (
        &[
            Bits("01111"),
            Bits("00001"),
            Binary(BinOp::Add),
            Bits("1"),
            Shift(ShiftOp::Right),
            Fill(Bit4::Zero),
            Type("four packed 3 0 four packed 3 0 struct 2"),
            Pattern(2),
        ],
        "[[1000][0000]]",
    ),
    // '{1'b1, 1'bx, 1'bz} for an array of three bits
    (
        &[
            Bits("1"),
            Bits("x"),
            Bits("z"),
            Type("four array 0 2"),
            Pattern(3),
        ],
        "[1xz]",
    ),
    // {<<4{16'habcd}}
    (
        &[Bits("1010101111001101"), Stream(true, 4, 1)],
        "[1101110010111010]",
    ),
    // {>>4{8'b1x100z01}}
    (&[Bits("1x100z01"), Stream(false, 4, 1)], "[1x100z01]"),
    // {<<3{8'b11100100}}: the last slice is shorter
    (&[Bits("11100100"), Stream(true, 3, 1)], "[10010011]"),
    // a constant of a two-state type
    (&[Type("two packed 3 0"), Constant("1x01")], "[1001]"),
    // of an unpacked struct
    (&[Type("two four plain 2"), Constant("xz")], "[0z]"),
    // of an enum
    (&[Type("four packed 1 0 enum"), Constant("10")], "10"),
    // a local
    (&[Vector(3, 0), Local(0)], "[1z01]"),
];

/// Two-state types, locals and signals that aren't held (clauses 6.3, 6.8 and 6.24).
pub const STATES: &[(&[Word], &str)] = &[
    // a local that isn't written
    (&[Vector(3, 0), Local(1)], "[xxxx]"),
    // the same of a two-state type
    (&[Type("two packed 3 0"), Local(1)], "[0000]"),
    // an element out of range, two-state
    (
        &[
            Type("two packed 7 0 array 3 0"),
            Signal(4),
            Bits("100"),
            Type("two packed 7 0"),
            Index,
        ],
        "[00000000]",
    ),
    // t[6 +: 4], two-state
    (
        &[
            Type("two packed 7 0"),
            Signal(7),
            Bits("110"),
            Type("two packed 3 0"),
            Slide(4, true),
        ],
        "[0011]",
    ),
    // a cast to more bits by the sign of the inside
    (
        &[SignedVector(3, 0), Signal(10), Vector(7, 0), Cast],
        "[11111101]",
    ),
    // to two-state bits
    (
        &[Vector(7, 0), Signal(0), Type("two packed 7 0"), Cast],
        "[10100001]",
    ),
    // a signal that isn't held
    (&[Vector(7, 0), Signal(6)], "held 1"),
    // the first of two
    (
        &[
            Vector(7, 0),
            Signal(0),
            Vector(7, 0),
            Signal(6),
            Vector(7, 0),
            Signal(6),
            Binary(BinOp::Add),
            Binary(BinOp::Add),
        ],
        "held 2",
    ),
    // an array that isn't held, by an index that isn't
    (
        &[
            Type("four packed 7 0 array 3 0"),
            Signal(6),
            Vector(3, 0),
            Signal(6),
            Vector(7, 0),
            Index,
        ],
        "held 3",
    ),
    // `&&` values both sides
    (&[Bits("0"), Vector(7, 0), Signal(6), Both], "held 2"),
    // `?:` values both arms
    (
        &[Bits("1"), Bits("1"), Vector(7, 0), Signal(6), Choose],
        "held 3",
    ),
];
