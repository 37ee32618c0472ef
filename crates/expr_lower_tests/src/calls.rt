//! Calls of functions. Signals by number are a and b, functions f, g and h.

use b4_core::BinOp;
use sv_types::Way;
use tree_words::Word;
use tree_words::Word::{
    Assign, Binary, Bits, Call, Formal, Local, Signal, SignedVector, Type, Vector,
};

/// Functions of eight bits: one without formals, one of a vector of eight bits, and one of four two-state bits.
pub const FUNCTIONS: &[Word] = &[
    Vector(7, 0),
    Vector(7, 0),
    Local(0),
    Bits("00000101"),
    Assign(1, false),
    Word::Function,
    Vector(7, 0),
    Vector(7, 0),
    Formal(1, Way::Input),
    Vector(7, 0),
    Local(0),
    Vector(7, 0),
    Local(1),
    Assign(1, false),
    Word::Function,
    Vector(7, 0),
    Type("two packed 3 0"),
    Formal(1, Way::Input),
    Vector(7, 0),
    Local(0),
    Bits("00000101"),
    Assign(1, false),
    Word::Function,
];

/// Calls of eight bits.
pub const CALLS: &[(&[Word], u32, &str)] = &[
    // no formals
    (&[Vector(7, 0), Call(0, 0)], 8, "f('0)"),
    // an actual of as many bits as its formal, of fewer and of more
    (
        &[Vector(7, 0), Vector(7, 0), Signal(0), Call(1, 1)],
        8,
        "g(a)",
    ),
    (
        &[Vector(7, 0), SignedVector(3, 0), Signal(0), Call(1, 1)],
        8,
        "g($signed(a))",
    ),
    (
        &[Vector(7, 0), Vector(15, 0), Signal(0), Call(1, 1)],
        8,
        "g(a)",
    ),
    // one that is valued in the width of its formal
    (
        &[
            Vector(7, 0),
            Vector(3, 0),
            Signal(0),
            Vector(3, 0),
            Signal(1),
            Binary(BinOp::Add),
            Call(1, 1),
        ],
        8,
        "g(a+b)",
    ),
    // two-state formals
    (
        &[Vector(7, 0), Vector(3, 0), Signal(0), Call(2, 1)],
        8,
        "h(sv2v_h_two_state_4({a}))",
    ),
    (
        &[Vector(7, 0), Vector(7, 0), Signal(0), Call(2, 1)],
        8,
        "h(sv2v_h_two_state_4(sv2v_h_cast_4(a)))",
    ),
];
