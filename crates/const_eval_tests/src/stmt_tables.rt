//! Statements with what they leave. Assignments, branches, loops and the task as Icarus Verilog leaves it, which has `disable` in
//! place of `break` and `continue`; streams as targets, the two parts of `{d, a[d]}`, jumps alone, `return`, locals of blocks
//! and what stops by hand.

use b4_core::{BinOp, EqOp};
use sv_types::CaseKind;
use tree_words::Word;
use tree_words::Word::{
    Assign, Binary, Bits, Block, Break, Case, Constant, Continue, Declare, Equal, If, Index, Int,
    Local, Loop, Member, More, Part, Return, Scalar, Set, Signal, Signed, SignedVector, Slide,
    Start, Stream, Task, Type, Upto, Vector,
};

const FIELD: &str = "four packed 7 0 struct 1";

const WORDS: &str = "four packed 3 0 array 0 3";

const TWO: &str = "two packed 3 0";

/// Assignments.
pub const ASSIGNMENTS: &[(&[Word], &str)] = &[
    // c = 4'sb1111 + 4'b0001: a signed operand beside an unsigned one is extended with 0
    (
        &[
            Vector(7, 0),
            Signal(2),
            Signed("1111"),
            Bits("0001"),
            Binary(BinOp::Add),
            Assign(1, false),
        ],
        "Normal 2:00010000 /",
    ),
    // the sign of the target is not taken
    (
        &[
            SignedVector(7, 0),
            Signal(0),
            Bits("1111"),
            Assign(1, false),
        ],
        "Normal 0:00001111 /",
    ),
    // the sign of the value is
    (
        &[Vector(7, 0), Signal(0), Signed("1111"), Assign(1, false)],
        "Normal 0:11111111 /",
    ),
    // nonblocking writes of parts, in order; they aren't seen at once
    (
        &[
            Type(FIELD),
            Signal(0),
            Vector(7, 0),
            Member(0),
            Bits("00000000"),
            Assign(1, true),
            Type(FIELD),
            Signal(0),
            Vector(7, 0),
            Member(0),
            Bits("010"),
            Vector(3, 0),
            Slide(4, true),
            Bits("1111"),
            Assign(1, true),
            Type(FIELD),
            Signal(0),
            Vector(7, 0),
            Member(0),
            Bits("110"),
            Vector(3, 0),
            Slide(4, true),
            Bits("0101"),
            Assign(1, true),
            Block(3),
        ],
        "Normal / 0:01111100",
    ),
    // an index with x writes nothing
    (
        &[
            Type(FIELD),
            Signal(0),
            Vector(7, 0),
            Member(0),
            Bits("0x0"),
            Vector(3, 0),
            Slide(4, true),
            Bits("1111"),
            Assign(1, true),
            Type(FIELD),
            Signal(0),
            Vector(7, 0),
            Member(0),
            Bits("011"),
            Vector(3, 0),
            Slide(4, true),
            Bits("0101"),
            Assign(1, true),
            Block(2),
        ],
        "Normal / 0:00101000",
    ),
    // what a nonblocking assignment writes isn't read at once
    (
        &[
            Vector(7, 0),
            Signal(0),
            Bits("11111111"),
            Assign(1, true),
            Vector(7, 0),
            Signal(1),
            Vector(7, 0),
            Signal(0),
            Assign(1, false),
            Block(2),
        ],
        "Normal / 0:11111111",
    ),
    // what a blocking one writes is
    (
        &[
            Set(0, "11111111"),
            Vector(7, 0),
            Signal(1),
            Vector(7, 0),
            Signal(0),
            Assign(1, false),
            Block(2),
        ],
        "Normal 0:11111111 1:11111111 /",
    ),
    // a concatenation as target
    (
        &[
            Vector(7, 0),
            Signal(0),
            Vector(3, 0),
            Part(3, 0),
            Vector(3, 0),
            Signal(3),
            Bits("10100101"),
            Assign(2, false),
        ],
        "Normal 0:00001010 3:0101 /",
    ),
    // {d, a[d]} = 5'b00111: the indices of all parts are valued first, as this project has it
    (
        &[
            Vector(3, 0),
            Signal(3),
            Vector(7, 0),
            Signal(0),
            Vector(3, 0),
            Signal(3),
            Scalar,
            Index,
            Bits("00111"),
            Assign(2, false),
        ],
        "Normal 0:00000001 3:0011 /",
    ),
    // a part partly out of range
    (
        &[
            Vector(7, 0),
            Signal(0),
            Bits("110"),
            Vector(3, 0),
            Slide(4, true),
            Bits("1101"),
            Assign(1, false),
        ],
        "Normal 0:01000000 /",
    ),
    // below 0
    (
        &[
            Vector(7, 0),
            Signal(0),
            Signed("1110"),
            Vector(3, 0),
            Slide(4, true),
            Bits("1101"),
            Assign(1, false),
        ],
        "Normal 0:00000011 /",
    ),
    // a bit out of range
    (
        &[
            Vector(7, 0),
            Signal(0),
            Bits("1001"),
            Scalar,
            Index,
            Bits("1"),
            Assign(1, false),
        ],
        "Normal /",
    ),
    // an element of an array, whose leftmost element is most significant
    (
        &[
            Type(WORDS),
            Signal(4),
            Bits("01"),
            Vector(3, 0),
            Index,
            Bits("1111"),
            Assign(1, false),
        ],
        "Normal 4:0001111100110100 /",
    ),
    // an element out of range
    (
        &[
            Type(WORDS),
            Signal(4),
            Bits("101"),
            Vector(3, 0),
            Index,
            Bits("1111"),
            Assign(1, false),
        ],
        "Normal /",
    ),
    // x and z are 0 in a two-state target
    (
        &[Type(TWO), Signal(5), Bits("1x1z"), Assign(1, false)],
        "Normal 5:1010 /",
    ),
    // {<<4{a}} = 8'b11110000 (IEEE 1800-2017 clause 11.4.14.3)
    (
        &[
            Vector(7, 0),
            Signal(0),
            Stream(true, 4, 1),
            Bits("11110001"),
            Assign(1, false),
        ],
        "Normal 0:00011111 /",
    ),
];

/// `if` and `case`.
pub const BRANCHES: &[(&[Word], &str)] = &[
    // an unknown condition isn't true
    (
        &[Bits("x"), Set(0, "11111111"), Set(1, "11111111"), If(true)],
        "Normal 1:11111111 /",
    ),
    // one with a bit 1 is
    (
        &[Bits("x1"), Set(0, "11111111"), Set(1, "11111111"), If(true)],
        "Normal 0:11111111 /",
    ),
    // case compares exactly
    (
        &[
            Bits("1x01"),
            Bits("1x01"),
            Set(0, "11111111"),
            Set(1, "11111111"),
            Case(CaseKind::Plain, "1", true),
        ],
        "Normal 0:11111111 /",
    ),
    // z isn't x
    (
        &[
            Bits("1x01"),
            Bits("1z01"),
            Set(0, "11111111"),
            Set(1, "11111111"),
            Case(CaseKind::Plain, "1", true),
        ],
        "Normal 1:11111111 /",
    ),
    // casez: z of either side
    (
        &[
            Bits("1z01"),
            Bits("1001"),
            Set(0, "11111111"),
            Set(1, "11111111"),
            Case(CaseKind::Z, "1", true),
        ],
        "Normal 0:11111111 /",
    ),
    // and no x
    (
        &[
            Bits("1x01"),
            Bits("1001"),
            Set(0, "11111111"),
            Set(1, "11111111"),
            Case(CaseKind::Z, "1", true),
        ],
        "Normal 1:11111111 /",
    ),
    // casex: x too
    (
        &[
            Bits("1x01"),
            Bits("1001"),
            Set(0, "11111111"),
            Set(1, "11111111"),
            Case(CaseKind::X, "1", true),
        ],
        "Normal 0:11111111 /",
    ),
    // the shorter side is extended
    (
        &[
            Bits("0001"),
            Bits("01"),
            Set(0, "11111111"),
            Set(1, "11111111"),
            Case(CaseKind::Plain, "1", true),
        ],
        "Normal 0:11111111 /",
    ),
    // by its sign where all are signed
    (
        &[
            Signed("1111"),
            Signed("11111111"),
            Set(0, "11111111"),
            Set(1, "11111111"),
            Case(CaseKind::Plain, "1", true),
        ],
        "Normal 0:11111111 /",
    ),
    // not where a later item isn't
    (
        &[
            Signed("1111"),
            Signed("11111111"),
            Set(0, "11111111"),
            Bits("0000"),
            Set(0, "00000010"),
            Set(1, "11111111"),
            Case(CaseKind::Plain, "11", true),
        ],
        "Normal 1:11111111 /",
    ),
    // the first item that matches
    (
        &[
            Bits("01"),
            Bits("00"),
            Bits("01"),
            Set(0, "00000001"),
            Bits("01"),
            Set(0, "00000010"),
            Case(CaseKind::Plain, "21", false),
        ],
        "Normal 0:00000001 /",
    ),
    // none
    (
        &[
            Bits("11"),
            Bits("00"),
            Bits("01"),
            Set(0, "00000001"),
            Bits("10"),
            Set(0, "00000010"),
            Case(CaseKind::Plain, "21", false),
        ],
        "Normal /",
    ),
];

/// Loops, jumps, locals and calls of tasks.
pub const LOOPS: &[(&[Word], &str)] = &[
    // four turns
    (&[Upto(2, "0100"), More(0), Loop(2)], "Normal 0:00000100 /"),
    // a break in the third turn
    (
        &[
            Upto(2, "0100"),
            Int,
            Local(2),
            Signed("010"),
            Equal(EqOp::Logic, false),
            Break,
            If(false),
            More(0),
            Block(2),
            Loop(2),
        ],
        "Normal 0:00000010 /",
    ),
    // a continue there
    (
        &[
            Upto(2, "0100"),
            Int,
            Local(2),
            Signed("010"),
            Equal(EqOp::Logic, false),
            Continue,
            If(false),
            More(0),
            Block(2),
            Loop(2),
        ],
        "Normal 0:00000011 /",
    ),
    // a return there
    (
        &[
            Upto(2, "0100"),
            Int,
            Local(2),
            Signed("010"),
            Equal(EqOp::Logic, false),
            Return,
            If(false),
            More(0),
            Block(2),
            Loop(2),
            More(1),
            Block(2),
        ],
        "Return 0:00000010 /",
    ),
    // a break alone
    (&[Break], "Break /"),
    // what stands behind a continue doesn't run
    (&[Continue, More(0), Block(2)], "Continue /"),
    // no turn
    (&[Upto(2, "00"), More(0), Loop(2)], "Normal /"),
    // an unknown test ends a loop
    (&[Upto(2, "0x00"), More(0), Loop(2)], "Normal /"),
    // the inner loop begins anew in each turn
    (
        &[Upto(2, "011"), Upto(3, "010"), More(0), Loop(3), Loop(2)],
        "Normal 0:00000110 /",
    ),
    // a break leaves the inner loop alone
    (
        &[
            Upto(2, "011"),
            Upto(3, "0100"),
            Int,
            Local(3),
            Signed("010"),
            Equal(EqOp::Logic, false),
            Break,
            If(false),
            More(0),
            Block(2),
            Loop(3),
            More(1),
            Block(2),
            Loop(2),
        ],
        "Normal 0:00000110 1:00000011 /",
    ),
    // a local of a block, with a first value
    (
        &[
            Bits("0110"),
            Vector(3, 0),
            Start(5),
            Vector(3, 0),
            Signal(3),
            Vector(3, 0),
            Local(5),
            Assign(1, false),
            Block(1),
        ],
        "Normal 3:0110 /",
    ),
    // without one it is unknown at the start of each turn
    (
        &[
            Upto(2, "010"),
            Vector(3, 0),
            Signal(3),
            Vector(3, 0),
            Local(5),
            Assign(1, false),
            Vector(3, 0),
            Local(5),
            Bits("0101"),
            Assign(1, false),
            Vector(3, 0),
            Declare(5),
            Block(2),
            Loop(2),
        ],
        "Normal 3:xxxx /",
    ),
    // a task with an output and an inout
    (
        &[
            Bits("0011"),
            Vector(3, 0),
            Signal(3),
            Vector(7, 0),
            Signal(0),
            Vector(3, 0),
            Part(7, 4),
            Task(3, 3),
        ],
        "Normal 0:00110000 3:0100 /",
    ),
];

/// Statements that stop, and how many may run.
pub const STOPS: &[(&[Word], Option<u64>, &str)] = &[
    // a signal that isn't held
    (
        &[
            Vector(7, 0),
            Signal(0),
            Vector(7, 0),
            Signal(6),
            Assign(1, false),
        ],
        None,
        "held 2",
    ),
    // a block of two where two may run
    (&[More(0), More(0), Block(2)], Some(2), "turns 0"),
    // where three may
    (
        &[More(0), More(0), Block(2)],
        Some(3),
        "Normal 0:00000010 /",
    ),
    // what comes first
    (
        &[
            Vector(7, 0),
            Signal(0),
            Vector(7, 0),
            Signal(6),
            Assign(1, false),
            More(0),
            Block(2),
        ],
        Some(2),
        "held 2",
    ),
    (
        &[
            More(0),
            Vector(7, 0),
            Signal(0),
            Vector(7, 0),
            Signal(6),
            Assign(1, false),
            Block(2),
        ],
        Some(2),
        "turns 0",
    ),
    // nothing is read of what doesn't run
    (
        &[
            Bits("0"),
            Vector(7, 0),
            Signal(0),
            Vector(7, 0),
            Signal(6),
            Assign(1, false),
            If(false),
        ],
        None,
        "Normal /",
    ),
    // each turn runs its body; the loop itself doesn't count
    (
        &[Upto(2, "0100"), More(0), Loop(2)],
        Some(4),
        "Normal 0:00000100 /",
    ),
    (&[Upto(2, "0100"), More(0), Loop(2)], Some(3), "turns 0"),
];

/// Loops of many turns.
pub const TURNS: &[(&[Word], &str)] = &[
    // 65,536 turns
    (
        &[Upto(2, "010000000000000000"), Block(0), Loop(2)],
        "Normal /",
    ),
    // one more
    (
        &[Upto(2, "010000000000000001"), Block(0), Loop(2)],
        "turns 0",
    ),
    // without end
    (
        &[
            Int,
            Constant("00000000000000000000000000000000"),
            Bits("1"),
            Int,
            Local(2),
            More(0),
            Loop(2),
        ],
        "turns 0",
    ),
];
