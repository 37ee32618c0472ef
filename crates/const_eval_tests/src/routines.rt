//! Functions and tasks that calls name.

use b4_core::{BinOp, EqOp};
use std::alloc::{AllocError, Global};
use sv_types::{Functions, Way};
use tree_words::Word::{
    Assign, Binary, Bits, Block, Call, Constant, Continue, Declare, Equal, Formal, Function, If,
    Int, Local, Loop, More, Return, Scalar, Signal, Signed, Type, Upto, Vector,
};
use tree_words::{Word, functions};

// The sum of two numbers of four bits.
const SUM: &[Word] = &[
    Vector(3, 0),
    Vector(3, 0),
    Formal(1, Way::Input),
    Vector(3, 0),
    Formal(2, Way::Input),
    Vector(3, 0),
    Local(0),
    Vector(3, 0),
    Local(1),
    Vector(3, 0),
    Local(2),
    Binary(BinOp::Add),
    Assign(1, false),
    Function,
];

// Two loops of four turns in each other, the inner one with a `continue` where both variables are equal, the outer one with a
// `return` of the number of inner turns where its variable is 2.
const TURNS: &[Word] = &[
    Vector(7, 0),
    Vector(7, 0),
    Local(1),
    Bits("00000000"),
    Assign(1, false),
    Upto(2, "0100"),
    Upto(3, "0100"),
    Int,
    Local(3),
    Int,
    Local(2),
    Equal(EqOp::Logic, false),
    Continue,
    If(false),
    Vector(7, 0),
    Local(1),
    Vector(7, 0),
    Local(1),
    Bits("00000001"),
    Binary(BinOp::Add),
    Assign(1, false),
    Block(2),
    Loop(3),
    Int,
    Local(2),
    Signed("010"),
    Equal(EqOp::Logic, false),
    Vector(7, 0),
    Local(0),
    Vector(7, 0),
    Local(1),
    Assign(1, false),
    Return,
    Block(2),
    If(false),
    Block(2),
    Loop(2),
    Vector(7, 0),
    Local(0),
    Bits("11111111"),
    Assign(1, false),
    Vector(7, 0),
    Declare(1),
    Block(3),
    Function,
];

// A loop without end.
const ENDLESS: &[Word] = &[
    Scalar,
    Int,
    Constant("00000000000000000000000000000000"),
    Bits("1"),
    Int,
    Local(1),
    Block(0),
    Loop(1),
    Function,
];

// A task. Its second formal becomes the first one and 1, its third one gains the first one.
const TASK: &[Word] = &[
    Scalar,
    Vector(3, 0),
    Formal(1, Way::Input),
    Vector(3, 0),
    Formal(2, Way::Output),
    Vector(3, 0),
    Formal(3, Way::Inout),
    Vector(3, 0),
    Local(2),
    Vector(3, 0),
    Local(1),
    Bits("0001"),
    Binary(BinOp::Add),
    Assign(1, false),
    Vector(3, 0),
    Local(3),
    Vector(3, 0),
    Local(3),
    Vector(3, 0),
    Local(1),
    Binary(BinOp::Add),
    Assign(1, false),
    Block(2),
    Function,
];

// Three times its argument, by two calls of the sum.
const THRICE: &[Word] = &[
    Vector(3, 0),
    Vector(3, 0),
    Formal(1, Way::Input),
    Vector(3, 0),
    Local(0),
    Vector(3, 0),
    Vector(3, 0),
    Local(1),
    Vector(3, 0),
    Vector(3, 0),
    Local(1),
    Vector(3, 0),
    Local(1),
    Call(0, 2),
    Call(0, 2),
    Assign(1, false),
    Function,
];

// A two-state formal, and a result that is assigned in part.
const HALF: &[Word] = &[
    Vector(7, 0),
    Type("two packed 3 0"),
    Formal(1, Way::Input),
    Vector(7, 0),
    Local(0),
    Vector(3, 0),
    Word::Part(3, 0),
    Type("two packed 3 0"),
    Local(1),
    Assign(1, false),
    Function,
];

// A function that reads a signal, which no call of it holds.
const OUTSIDE: &[Word] = &[
    Vector(7, 0),
    Vector(7, 0),
    Local(0),
    Vector(7, 0),
    Signal(0),
    Assign(1, false),
    Function,
];

fn all(alloc: Global, tables: &[&[Word]]) -> Result<Functions, AllocError> {
    let mut words = Vec::new(alloc);
    for table in tables {
        for word in *table {
            words.push(*word)?;
        }
    }
    functions(alloc, &words)
}

/// The functions.
pub fn functions_of(alloc: Global) -> Result<Functions, AllocError> {
    all(alloc, &[SUM, TURNS, ENDLESS, TASK, THRICE, HALF, OUTSIDE])
}
