//! Operators and casts. Signals by number are a, b and so on.

use b4_core::{BinOp, OrdOp, ShiftOp};
use tree_words::Word;
use tree_words::Word::{
    Binary, Bits, Call, Cast, Choose, Clog2, Concat, Equal, Fill, Inside, Order, Pattern, Repeat,
    Scalar, Shift, Signal, SignedVector, Stream, Type, Vector,
};

/// Operators in a context.
pub const OPERATORS: &[(&[Word], u32, &str)] = &[
    // a + b of 8 bits in 9
    (
        &[
            Vector(7, 0),
            Signal(0),
            Vector(7, 0),
            Signal(1),
            Binary(BinOp::Add),
        ],
        9,
        "a+b",
    ),
    // of a signed and an unsigned operand
    (
        &[
            SignedVector(7, 0),
            Signal(0),
            Vector(7, 0),
            Signal(1),
            Binary(BinOp::Mul),
        ],
        16,
        "$signed(a)*b",
    ),
    // a >>> b, signed
    (
        &[
            SignedVector(7, 0),
            Signal(0),
            Vector(2, 0),
            Signal(1),
            Shift(ShiftOp::Arith),
        ],
        8,
        "$signed(a)>>>b",
    ),
    // a < b
    (
        &[
            Vector(7, 0),
            Signal(0),
            Vector(3, 0),
            Signal(1),
            Order(OrdOp::Less),
        ],
        1,
        "a<b",
    ),
    // a == b
    (
        &[
            Vector(7, 0),
            Signal(0),
            Vector(7, 0),
            Signal(1),
            Equal(b4_core::EqOp::Logic, false),
        ],
        1,
        "a==b",
    ),
    // a ==? 4'b1x0z
    (
        &[
            Vector(3, 0),
            Signal(0),
            Bits("1x0z"),
            Equal(b4_core::EqOp::Wild, false),
        ],
        1,
        "sv2v_h_wild_eq_4(a,'1x0z)",
    ),
    // a ? b : c
    (
        &[
            Scalar,
            Signal(0),
            Vector(7, 0),
            Signal(1),
            Vector(3, 0),
            Signal(2),
            Choose,
        ],
        8,
        "a?b:c",
    ),
    // {a, {2{b}}}
    (
        &[
            Vector(1, 0),
            Signal(0),
            Vector(1, 0),
            Signal(1),
            Repeat(2, 1),
            Concat(2),
        ],
        6,
        "{a,{2{b}}}",
    ),
    // '1
    (&[Fill(b4_core::Bit4::One)], 5, "'11111"),
    // a stream isn't lowered
    (
        &[Vector(7, 0), Signal(0), Stream(true, 4, 1)],
        8,
        "not lowered",
    ),
];

/// Forms without an operator of the target.
pub const CASTS: &[(&[Word], u32, &str)] = &[
    // a inside {1, [2:3]}
    (
        &[
            Vector(1, 0),
            Signal(0),
            Bits("01"),
            Bits("10"),
            Bits("11"),
            Inside("vr"),
        ],
        1,
        "|{sv2v_h_wild_eq_2(a,'01),(a>='10)&&(a<='11)}",
    ),
    // 8'(a)
    (
        &[Vector(3, 0), Signal(0), Vector(7, 0), Cast],
        8,
        "{{4{'0}},a}",
    ),
    // 8'(a) of a signed operand, and 4'(a)
    (
        &[SignedVector(3, 0), Signal(0), Vector(7, 0), Cast],
        8,
        "sv2v_h_cast_8($signed($signed(a)))",
    ),
    (
        &[Vector(7, 0), Signal(0), Vector(3, 0), Cast],
        4,
        "sv2v_h_cast_4(a)",
    ),
    // $signed(a)
    (
        &[Vector(7, 0), Signal(0), SignedVector(7, 0), Cast],
        8,
        "$signed({a})",
    ),
    // a two-state type
    (
        &[Vector(3, 0), Signal(0), Type("two packed 3 0"), Cast],
        4,
        "sv2v_h_two_state_4({a})",
    ),
    // a pattern of items of as many bits as the members have
    (
        &[
            Vector(3, 0),
            Signal(0),
            Vector(7, 0),
            Signal(1),
            Type("four packed 3 0 four packed 7 0 struct 2"),
            Pattern(2),
        ],
        12,
        "{a,b}",
    ),
    // a member that is two-state, and one that is wider than its item
    (
        &[
            Vector(3, 0),
            Signal(0),
            Vector(5, 0),
            Signal(1),
            Type("two packed 3 0 four packed 7 0 struct 2"),
            Pattern(2),
        ],
        12,
        "{sv2v_h_two_state_4({a}),sv2v_h_cast_8(b)}",
    ),
    // a call of a function without formals
    (&[Vector(7, 0), Call(0, 0)], 8, "f('0)"),
    // $clog2(5)
    (
        &[Bits("101"), Clog2],
        32,
        "$signed('00000000000000000000000000000011)",
    ),
    // $clog2(a)
    (
        &[Vector(1, 0), Signal(0), Clog2],
        32,
        "$signed(((^{a})==='x)?'xxxxxxxxxxxxxxxxxxxxxxxxxxxxxxxx:(({a}<=('1<<'00000000000000000000000000000001))?(({a}<=('1<<'00000000000000000000000000000000))?'00000000000000000000000000000000:'00000000000000000000000000000001):'00000000000000000000000000000010))",
    ),
];
