//! Expressions of small designs, as they stand in continuous assignments.

use b4_core::{BinOp, Bit4, OrdOp, ShiftOp};
use tree_words::Word;
use tree_words::Word::{
    Binary, Bits, Cast, Choose, Concat, Fill, Index, Inside, Int, Member, Order, Pattern, Scalar,
    Shift, Signal, Signed, SignedVector, Type, Vector,
};

/// A packed union of a struct of two bytes, of which the first one counts its bits upward, and of 16 bits.
const UNION: Word = Type("four packed 0 7 four packed 7 0 struct 2 four packed 15 0 union 2");

/// Its struct.
const BYTES: Word = Type("four packed 0 7 four packed 7 0 struct 2");

/// Four words of eight bits.
const WORDS: Word = Type("four packed 7 0 packed 3 0");

/// Expressions at the width of what is assigned to.
pub const DESIGNS: &[(&[Word], u32, &str)] = &[
    // a signed and an unsigned operand of four bits in eight signed bits: nothing extends by the top bit
    (
        &[
            SignedVector(3, 0),
            Signal(0),
            Vector(3, 0),
            Signal(1),
            Binary(BinOp::Add),
        ],
        8,
        "$signed(a)+b",
    ),
    // {u.s.h[0], u.s.h[7], u.s.l[7], u.s.l[0]}
    (
        &[
            UNION,
            Signal(0),
            BYTES,
            Member(0),
            Vector(0, 7),
            Member(0),
            Bits("000"),
            Scalar,
            Index,
            UNION,
            Signal(0),
            BYTES,
            Member(0),
            Vector(0, 7),
            Member(0),
            Bits("111"),
            Scalar,
            Index,
            UNION,
            Signal(0),
            BYTES,
            Member(0),
            Vector(7, 0),
            Member(1),
            Bits("111"),
            Scalar,
            Index,
            UNION,
            Signal(0),
            BYTES,
            Member(0),
            Vector(7, 0),
            Member(1),
            Bits("000"),
            Scalar,
            Index,
            Concat(4),
        ],
        4,
        "{a[15],a[8],a[7],a[0]}",
    ),
    // a conversion to int
    (
        &[Vector(1, 0), Signal(0), Int, Cast],
        32,
        "$signed(sv2v_h_two_state_32({{30{'0}},a}))",
    ),
    // a inside {4'b1??1, [4'd2:4'd3]}
    (
        &[
            Vector(3, 0),
            Signal(0),
            Bits("1zz1"),
            Bits("0010"),
            Bits("0011"),
            Inside("vr"),
        ],
        1,
        "|{sv2v_h_wild_eq_4(a,'1zz1),(a>='0010)&&(a<='0011)}",
    ),
    // a inside {4'b0001}
    (
        &[Vector(3, 0), Signal(0), Bits("0001"), Inside("v")],
        1,
        "sv2v_h_wild_eq_4(a,'0001)",
    ),
    // t'{default: '0, hi: (a + b) >> 1} of two members of four bits: the sum keeps its five bits
    (
        &[
            Vector(4, 0),
            Signal(0),
            Vector(4, 0),
            Signal(1),
            Binary(BinOp::Add),
            Signed("00000000000000000000000000000001"),
            Shift(ShiftOp::Right),
            Fill(Bit4::Zero),
            Type("four packed 3 0 four packed 3 0 struct 2"),
            Pattern(2),
        ],
        8,
        "{sv2v_h_cast_4((a+b)>>$signed('00000000000000000000000000000001)),sv2v_h_cast_4('0000)}",
    ),
];

/// Select paths.
pub const SELECTS: &[(&[Word], u32, &str)] = &[
    // a[b][c]: c has numbers of no bit
    (
        &[
            WORDS,
            Signal(0),
            Vector(1, 0),
            Signal(1),
            Vector(7, 0),
            Index,
            Vector(3, 0),
            Signal(2),
            Scalar,
            Index,
        ],
        1,
        "sv2v_h_select_1_5_8(a[$signed({$signed({'0,b})-$signed('0000000000000)})*$signed('0000000001000)+:8],{'0,c})",
    ),
    // the same by a signed index
    (
        &[
            WORDS,
            Signal(0),
            Vector(1, 0),
            Signal(1),
            Vector(7, 0),
            Index,
            SignedVector(3, 0),
            Signal(2),
            Scalar,
            Index,
        ],
        1,
        "sv2v_h_select_1_4_8(a[$signed({$signed({'0,b})-$signed('0000000000000)})*$signed('0000000001000)+:8],$signed(c))",
    ),
    // s.f, the only member
    (
        &[
            Type("four packed 7 0 struct 1"),
            Signal(0),
            Vector(7, 0),
            Member(0),
        ],
        8,
        "a",
    ),
];

/// Operators that stay one operator each.
pub const ARITHMETIC: &[(&[Word], u32, &str)] = &[
    (
        &[
            Vector(7, 0),
            Signal(0),
            Vector(7, 0),
            Signal(1),
            Binary(BinOp::Mul),
        ],
        8,
        "a*b",
    ),
    (
        &[
            Vector(7, 0),
            Signal(0),
            Vector(7, 0),
            Signal(1),
            Binary(BinOp::Div),
        ],
        8,
        "a/b",
    ),
    (
        &[
            Vector(7, 0),
            Signal(0),
            Vector(7, 0),
            Signal(1),
            Order(OrdOp::Less),
            Vector(7, 0),
            Signal(0),
            Vector(7, 0),
            Signal(1),
            Binary(BinOp::Sub),
            Vector(7, 0),
            Signal(0),
            Vector(7, 0),
            Signal(1),
            Binary(BinOp::Rem),
            Choose,
        ],
        8,
        "(a<b)?(a-b):(a%b)",
    ),
    (
        &[
            Vector(7, 0),
            Signal(2),
            Vector(7, 0),
            Signal(0),
            Binary(BinOp::Add),
        ],
        8,
        "c+a",
    ),
];
