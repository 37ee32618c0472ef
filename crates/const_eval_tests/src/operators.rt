//! Expressions with the values that Icarus Verilog gives them.

use b4_core::{BinOp, Bit4, EqOp, OrdOp, RedOp, ShiftOp, UnOp};
use tree_words::Word;
use tree_words::Word::{
    Binary, Bits, Both, Cast, Choose, Clog2, Concat, Either, Equal, Fill, GoesOn, Index, Member,
    Negate, Order, Part, Power, Reduce, Repeat, Scalar, Shift, Signal, Signed, SignedVector, Slide,
    Type, Unary, Vector,
};

/// Numbers and bitwise operators.
pub const BITWISE: &[(&[Word], &str)] = &[
    // 8'b1010x0z1
    (&[Bits("1010x0z1")], "[1010x0z1]"),
    // 4'sb1101
    (&[Signed("1101")], "[1101]"),
    // a & b
    (
        &[
            Vector(7, 0),
            Signal(0),
            Vector(7, 0),
            Signal(1),
            Binary(BinOp::And),
        ],
        "[0000x0x1]",
    ),
    // a | b
    (
        &[
            Vector(7, 0),
            Signal(0),
            Vector(7, 0),
            Signal(1),
            Binary(BinOp::Or),
        ],
        "[10101111]",
    ),
    // a ^ b
    (
        &[
            Vector(7, 0),
            Signal(0),
            Vector(7, 0),
            Signal(1),
            Binary(BinOp::Xor),
        ],
        "[1010x1x0]",
    ),
    // a ~^ b
    (
        &[
            Vector(7, 0),
            Signal(0),
            Vector(7, 0),
            Signal(1),
            Binary(BinOp::Xnor),
        ],
        "[0101x0x1]",
    ),
    // ~a
    (&[Vector(7, 0), Signal(0), Unary(UnOp::Not)], "[0101x1x0]"),
    // -c
    (
        &[SignedVector(7, 0), Signal(2), Unary(UnOp::Neg)],
        "[00010000]",
    ),
    // -a
    (&[Vector(7, 0), Signal(0), Unary(UnOp::Neg)], "[xxxxxxxx]"),
];

/// Arithmetic.
pub const ARITHMETIC: &[(&[Word], &str)] = &[
    // b + t
    (
        &[
            Vector(7, 0),
            Signal(1),
            Type("two packed 7 0"),
            Signal(7),
            Binary(BinOp::Add),
        ],
        "[11011001]",
    ),
    // b - t
    (
        &[
            Vector(7, 0),
            Signal(1),
            Type("two packed 7 0"),
            Signal(7),
            Binary(BinOp::Sub),
        ],
        "[01000101]",
    ),
    // b * i
    (
        &[
            Vector(7, 0),
            Signal(1),
            Vector(3, 0),
            Signal(3),
            Binary(BinOp::Mul),
        ],
        "[01001011]",
    ),
    // c / 8'sb00000011
    (
        &[
            SignedVector(7, 0),
            Signal(2),
            Signed("00000011"),
            Binary(BinOp::Div),
        ],
        "[11111011]",
    ),
    // c % 8'sb00000111
    (
        &[
            SignedVector(7, 0),
            Signal(2),
            Signed("00000111"),
            Binary(BinOp::Rem),
        ],
        "[11111110]",
    ),
    // b / 8'b00000000
    (
        &[
            Vector(7, 0),
            Signal(1),
            Bits("00000000"),
            Binary(BinOp::Div),
        ],
        "[xxxxxxxx]",
    ),
    // a + b
    (
        &[
            Vector(7, 0),
            Signal(0),
            Vector(7, 0),
            Signal(1),
            Binary(BinOp::Add),
        ],
        "[xxxxxxxx]",
    ),
    // n + c
    (
        &[
            SignedVector(3, 0),
            Signal(10),
            SignedVector(7, 0),
            Signal(2),
            Binary(BinOp::Add),
        ],
        "[11101101]",
    ),
    // n + b
    (
        &[
            SignedVector(3, 0),
            Signal(10),
            Vector(7, 0),
            Signal(1),
            Binary(BinOp::Add),
        ],
        "[00011100]",
    ),
    // (i + i) >> 1
    (
        &[
            Vector(3, 0),
            Signal(3),
            Vector(3, 0),
            Signal(3),
            Binary(BinOp::Add),
            Bits("1"),
            Shift(ShiftOp::Right),
        ],
        "[0101]",
    ),
];

/// Shifts and powers.
pub const SHIFTS: &[(&[Word], &str)] = &[
    // 8'b00000000 + ((i + 4'b1111) >> 1)
    (
        &[
            Bits("00000000"),
            Vector(3, 0),
            Signal(3),
            Bits("1111"),
            Binary(BinOp::Add),
            Bits("1"),
            Shift(ShiftOp::Right),
            Binary(BinOp::Add),
        ],
        "[00001010]",
    ),
    // a << 2'b10
    (
        &[Vector(7, 0), Signal(0), Bits("10"), Shift(ShiftOp::Left)],
        "[10x0z100]",
    ),
    // c >>> 2'b10
    (
        &[
            SignedVector(7, 0),
            Signal(2),
            Bits("10"),
            Shift(ShiftOp::Arith),
        ],
        "[11111100]",
    ),
    // b >>> 2'b10
    (
        &[Vector(7, 0), Signal(1), Bits("10"), Shift(ShiftOp::Arith)],
        "[00000011]",
    ),
    // b << u
    (
        &[
            Vector(7, 0),
            Signal(1),
            Vector(1, 0),
            Signal(8),
            Shift(ShiftOp::Left),
        ],
        "[xxxxxxxx]",
    ),
    // b ** 2'b10
    (&[Vector(7, 0), Signal(1), Bits("10"), Power], "[11100001]"),
    // n ** 2'b11
    (
        &[SignedVector(3, 0), Signal(10), Bits("11"), Power],
        "[0101]",
    ),
    // b < t
    (
        &[
            Vector(7, 0),
            Signal(1),
            Type("two packed 7 0"),
            Signal(7),
            Order(OrdOp::Less),
        ],
        "1",
    ),
    // c < 8'sb00000001
    (
        &[
            SignedVector(7, 0),
            Signal(2),
            Signed("00000001"),
            Order(OrdOp::Less),
        ],
        "1",
    ),
];

/// Comparisons.
pub const COMPARISONS: &[(&[Word], &str)] = &[
    // c < 8'b00000001
    (
        &[
            SignedVector(7, 0),
            Signal(2),
            Bits("00000001"),
            Order(OrdOp::Less),
        ],
        "0",
    ),
    // n >= c
    (
        &[
            SignedVector(3, 0),
            Signal(10),
            SignedVector(7, 0),
            Signal(2),
            Order(OrdOp::GreaterEqual),
        ],
        "1",
    ),
    // a > b
    (
        &[
            Vector(7, 0),
            Signal(0),
            Vector(7, 0),
            Signal(1),
            Order(OrdOp::Greater),
        ],
        "x",
    ),
    // a == b
    (
        &[
            Vector(7, 0),
            Signal(0),
            Vector(7, 0),
            Signal(1),
            Equal(EqOp::Logic, false),
        ],
        "0",
    ),
    // i == 4'b010x
    (
        &[
            Vector(3, 0),
            Signal(3),
            Bits("010x"),
            Equal(EqOp::Logic, false),
        ],
        "x",
    ),
    // a != b
    (
        &[
            Vector(7, 0),
            Signal(0),
            Vector(7, 0),
            Signal(1),
            Equal(EqOp::Logic, true),
        ],
        "1",
    ),
    // a === 8'b1010x0z1
    (
        &[
            Vector(7, 0),
            Signal(0),
            Bits("1010x0z1"),
            Equal(EqOp::Case, false),
        ],
        "1",
    ),
    // a !== b
    (
        &[
            Vector(7, 0),
            Signal(0),
            Vector(7, 0),
            Signal(1),
            Equal(EqOp::Case, true),
        ],
        "1",
    ),
    // i ==? 4'b01xz
    (
        &[
            Vector(3, 0),
            Signal(3),
            Bits("01xz"),
            Equal(EqOp::Wild, false),
        ],
        "1",
    ),
    // a !=? 8'b1010xxz1
    (
        &[
            Vector(7, 0),
            Signal(0),
            Bits("1010xxz1"),
            Equal(EqOp::Wild, true),
        ],
        "0",
    ),
    // &a
    (&[Vector(7, 0), Signal(0), Reduce(RedOp::And)], "0"),
    // |a
    (&[Vector(7, 0), Signal(0), Reduce(RedOp::Or)], "1"),
];

/// Reductions, logic and choices.
pub const LOGIC: &[(&[Word], &str)] = &[
    // ^a
    (&[Vector(7, 0), Signal(0), Reduce(RedOp::Xor)], "x"),
    // ~&b
    (&[Vector(7, 0), Signal(1), Reduce(RedOp::Nand)], "1"),
    // !a
    (&[Vector(7, 0), Signal(0), Negate], "0"),
    // !u
    (&[Vector(1, 0), Signal(8), Negate], "0"),
    // u && 1'b0
    (&[Vector(1, 0), Signal(8), Bits("0"), Both], "0"),
    // 2'bx0 && 1'b1
    (&[Bits("x0"), Bits("1"), Both], "x"),
    // 2'bx0 || b
    (&[Bits("x0"), Vector(7, 0), Signal(1), Either], "1"),
    // 1'bx ? b : 8'b00001010
    (
        &[Bits("x"), Vector(7, 0), Signal(1), Bits("00001010"), Choose],
        "[00001x1x]",
    ),
    // 1'b1 ? n : c
    (
        &[
            Bits("1"),
            SignedVector(3, 0),
            Signal(10),
            SignedVector(7, 0),
            Signal(2),
            Choose,
        ],
        "[11111101]",
    ),
    // 1'b1 ? n : b
    (
        &[
            Bits("1"),
            SignedVector(3, 0),
            Signal(10),
            Vector(7, 0),
            Signal(1),
            Choose,
        ],
        "[00001101]",
    ),
    // {i, u, 2'b10}
    (
        &[
            Vector(3, 0),
            Signal(3),
            Vector(1, 0),
            Signal(8),
            Bits("10"),
            Concat(3),
        ],
        "[0101x110]",
    ),
    // {2{u, 1'bz}}
    (
        &[Vector(1, 0), Signal(8), Bits("z"), Repeat(2, 2)],
        "[x1zx1z]",
    ),
    // a[i]
    (
        &[
            Vector(7, 0),
            Signal(0),
            Vector(3, 0),
            Signal(3),
            Scalar,
            Index,
        ],
        "1",
    ),
];

/// Selects.
pub const SELECTS: &[(&[Word], &str)] = &[
    // b[4'b1001]
    (&[Vector(7, 0), Signal(1), Bits("1001"), Scalar, Index], "x"),
    // a[u]
    (
        &[
            Vector(7, 0),
            Signal(0),
            Vector(1, 0),
            Signal(8),
            Scalar,
            Index,
        ],
        "x",
    ),
    // r[3'b111]
    (&[Vector(0, 7), Signal(11), Bits("111"), Scalar, Index], "z"),
    // m[2'b10]
    (
        &[
            Type("four packed 7 0 array 3 0"),
            Signal(4),
            Bits("10"),
            Vector(7, 0),
            Index,
        ],
        "[00000010]",
    ),
    // m[3'b100]
    (
        &[
            Type("four packed 7 0 array 3 0"),
            Signal(4),
            Bits("100"),
            Vector(7, 0),
            Index,
        ],
        "[xxxxxxxx]",
    ),
    // p[2'b10][3'b001]
    (
        &[
            Type("four packed 7 0 packed 3 0"),
            Signal(9),
            Bits("10"),
            Vector(7, 0),
            Index,
            Bits("001"),
            Scalar,
            Index,
        ],
        "1",
    ),
    // a[5:2]
    (
        &[Vector(7, 0), Signal(0), Vector(3, 0), Part(5, 2)],
        "[10x0]",
    ),
    // p[2:1]
    (
        &[
            Type("four packed 7 0 packed 3 0"),
            Signal(9),
            Type("four packed 7 0 packed 1 0"),
            Part(2, 1),
        ],
        "[[10101010][00001111]]",
    ),
    // a[3'b110 +: 4]
    (
        &[
            Vector(7, 0),
            Signal(0),
            Bits("110"),
            Vector(3, 0),
            Slide(4, true),
        ],
        "[xx10]",
    ),
    // a[2'b01 -: 4]
    (
        &[
            Vector(7, 0),
            Signal(0),
            Bits("01"),
            Vector(3, 0),
            Slide(4, false),
        ],
        "[z1xx]",
    ),
    // r[3'b101 +: 4]
    (
        &[
            Vector(0, 7),
            Signal(11),
            Bits("101"),
            Vector(3, 0),
            Slide(4, true),
        ],
        "[00zx]",
    ),
    // s.hi
    (
        &[
            Type("four packed 3 0 four packed 0 3 struct 2"),
            Signal(5),
            Vector(3, 0),
            Member(0),
        ],
        "[10x1]",
    ),
    // s.lo[0]
    (
        &[
            Type("four packed 3 0 four packed 0 3 struct 2"),
            Signal(5),
            Vector(0, 3),
            Member(1),
            Bits("0"),
            Scalar,
            Index,
        ],
        "0",
    ),
    // $signed(b)
    (
        &[Vector(7, 0), Signal(1), SignedVector(7, 0), Cast],
        "[00001111]",
    ),
    // $signed(4'b1000) + c
    (
        &[
            Bits("1000"),
            SignedVector(3, 0),
            Cast,
            SignedVector(7, 0),
            Signal(2),
            Binary(BinOp::Add),
        ],
        "[11101000]",
    ),
];

/// `$clog2`, fills and the rest. Icarus Verilog doesn't give `$clog2` of x and the number whose first digit goes on.
pub const FILLS: &[(&[Word], &str)] = &[
    // $clog2(b)
    (
        &[Vector(7, 0), Signal(1), Clog2],
        "[00000000000000000000000000000100]",
    ),
    // $clog2(8'b00010000)
    (
        &[Bits("00010000"), Clog2],
        "[00000000000000000000000000000100]",
    ),
    // $clog2(a)
    (
        &[Vector(7, 0), Signal(0), Clog2],
        "[xxxxxxxxxxxxxxxxxxxxxxxxxxxxxxxx]",
    ),
    // $clog2(4'b0000)
    (&[Bits("0000"), Clog2], "[00000000000000000000000000000000]"),
    // $clog2(4'b1111)
    (&[Bits("1111"), Clog2], "[00000000000000000000000000000100]"),
    // b & '1
    (
        &[Vector(7, 0), Signal(1), Fill(Bit4::One), Binary(BinOp::And)],
        "[00001111]",
    ),
    // b | 'x
    (
        &[Vector(7, 0), Signal(1), Fill(Bit4::X), Binary(BinOp::Or)],
        "[xxxx1111]",
    ),
    // 8'b11111111 == '1
    (
        &[Bits("11111111"), Fill(Bit4::One), Equal(EqOp::Logic, false)],
        "1",
    ),
    // ~|b
    (&[Vector(7, 0), Signal(1), Reduce(RedOp::Nor)], "0"),
    // ~^b
    (&[Vector(7, 0), Signal(1), Reduce(RedOp::Xnor)], "1"),
    // b <= t
    (
        &[
            Vector(7, 0),
            Signal(1),
            Type("two packed 7 0"),
            Signal(7),
            Order(OrdOp::LessEqual),
        ],
        "1",
    ),
    // t >> 3'b011
    (
        &[
            Type("two packed 7 0"),
            Signal(7),
            Bits("011"),
            Shift(ShiftOp::Right),
        ],
        "[00011001]",
    ),
    // 8'b00000000 | 'bx001
    (
        &[Bits("00000000"), GoesOn("x001"), Binary(BinOp::Or)],
        "[xxxxx001]",
    ),
];
