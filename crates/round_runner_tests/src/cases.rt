use crate::netlist::{Flop, Gate, Netlist};
use b4_core::{Bit4, Items, Row, Rows, Trace, Vec4};
use round_runner::{RunFail, run};
use std::alloc::{AllocError, Global};
use std::process::Abort;
use std::test::Fail;

fn number(digit: u8) -> usize {
    usize::from(digit.saturating_sub(b'0'))
}

// Adds what a word says: `0>1` is a gate from signal 0 to signal 1, `0~1` one that negates, `2?0>1` one with the enable 2,
// `*0>1` one that waits for signal 0, and `0^12` a flip-flop with the clock 0 from signal 1 to signal 2.
fn add(word: &[u8], gates: &mut Items<Gate>, flops: &mut Items<Flop>) -> Result<(), AllocError> {
    let (waits, enable, rest) = match word {
        [b'*', rest @ ..] => (true, None, rest),
        [enable, b'?', rest @ ..] => (false, Some(number(*enable)), rest),
        _ => (false, None, word),
    };
    match rest {
        [from, kind, to] => gates.push(Gate {
            waits,
            enable,
            negates: *kind == b'~',
            from: number(*from),
            to: number(*to),
        }),
        [clock, _, from, to] => flops.push(Flop {
            clock: number(*clock),
            from: number(*from),
            to: number(*to),
        }),
        _ => Ok(()),
    }
}

fn bit(letter: u8) -> Bit4 {
    match letter {
        b'0' => Bit4::Zero,
        b'1' => Bit4::One,
        b'z' => Bit4::Z,
        _ => Bit4::X,
    }
}

fn letter(bit: Bit4) -> char {
    match bit {
        Bit4::Zero => '0',
        Bit4::One => '1',
        Bit4::X => 'x',
        Bit4::Z => 'z',
    }
}

// A netlist by the bits of its signals before the first row, the signals that are inputs, and its parts.
fn netlist(
    alloc: Global,
    initial: &str,
    inputs: &str,
    parts: &str,
    told: bool,
) -> Result<Option<Netlist>, AllocError> {
    let mut bits = Items::new(alloc);
    for letter in initial.bytes() {
        bits.push(bit(letter))?;
    }
    let mut signals = Items::new(alloc);
    for digit in inputs.bytes() {
        signals.push(number(digit))?;
    }
    let mut gates = Items::new(alloc);
    let mut flops = Items::new(alloc);
    for word in parts.split(' ') {
        add(word.as_bytes(), &mut gates, &mut flops)?;
    }
    Netlist::new(alloc, bits, signals, gates, flops, told)
}

// Rows of words, a letter for each input.
fn rows(alloc: Global, text: &str) -> Result<Rows, AllocError> {
    let mut all = Rows::new(alloc);
    for word in text.split(' ') {
        let mut row = Row::new(alloc);
        for letter in word.bytes() {
            row.push(Vec4::from_slice(alloc, &[bit(letter)])?)?;
        }
        if !word.is_empty() {
            all.push(row)?;
        }
    }
    Ok(all)
}

fn add_letters(text: &mut String, vectors: &[Vec4]) -> Result<(), AllocError> {
    for vector in vectors {
        for bit in vector.as_slice() {
            text.push(letter(*bit))?;
        }
    }
    Ok(())
}

// A trace, a word a row.
fn shown(alloc: Global, trace: &Trace) -> Result<String, AllocError> {
    let mut text = String::new(alloc);
    for store in trace.as_slice() {
        if !text.is_empty() {
            text.push(' ')?;
        }
        add_letters(&mut text, store.as_slice())?;
    }
    Ok(text)
}

// What a run gives: a trace, or the row that doesn't settle with the signal that its last round changed.
fn ran(alloc: Global, netlist: &Netlist, rows: &Rows) -> Result<String, Fail> {
    if !netlist.rows_fit(rows) {
        return Ok(format!(in alloc; "no rows of these inputs")?);
    }
    match run(alloc, netlist, rows) {
        Ok(trace) => Ok(shown(alloc, &trace)?),
        Err(RunFail::Memory) => Err(Fail::from(AllocError)),
        Err(RunFail::Unsettled(row, change)) => {
            let mut text = format!(in alloc; "row {row} signal {}: ", change.signal)?;
            add_letters(&mut text, &[change.before, change.after])?;
            Ok(text)
        }
    }
}

// The bits before the first row, the inputs, the parts, the rows, and what a run gives.
const CASES: &[(&str, &str, &str, &str, &str)] = &[
    // no rows, and no parts
    ("xx", "0", "0>1", "", ""),
    ("xxx", "20", "", "01 1z", "1x0 zx1"),
    // a chain, and one whose parts stand in the other order
    ("xxx", "0", "0~1 1~2", "0 1 x z", "010 101 xxx zxx"),
    ("xxx", "0", "1~2 0~1", "0 1 x z", "010 101 xxx zxx"),
    // a latch
    ("xxx", "01", "0?1>2", "01 11 00 10", "01x 111 001 100"),
    // two writers of one signal: the later one counts
    (
        "xxxxx",
        "0123",
        "0?2>4 1?3>4",
        "1010 0110 1110 0011",
        "10101 01100 11100 00110",
    ),
    // a flip-flop, also at a first row that has an edge from x
    ("xxx", "01", "0^12", "01 11 10 00 10", "01x 111 101 001 100"),
    ("xxx", "01", "0^12", "11", "111"),
    // two that take each other's value
    ("x01", "0", "0^12 0^21", "0 1 0 1", "001 110 010 101"),
    // a gate behind a flip-flop
    ("xxxx", "01", "2~3 0^12", "01 11", "01xx 1110"),
    // a gate that waits until its signal changes, and one that waits for that
    ("0x", "0", "*0>1", "0 1 0", "0x 11 00"),
    ("00x", "0", "*0>1 *1>2", "0 1", "00x 111"),
    ("00x", "0", "*1>2 *0>1", "0 1", "00x 111"),
    // a ring that rests, and one that doesn't
    ("01", "", "0~1 1~0", "", ""),
    ("01x", "2", "0~1 1~0", "0 0", "010 010"),
    ("00x", "2", "0~1 1~0", "0", "row 0 signal 0: 01"),
    // a gate that negates its own signal, once it is on: in a later row, and after an edge
    (
        "xxxx",
        "013",
        "0?1>2 3?2~2",
        "100 001",
        "row 1 signal 2: 01",
    ),
    ("0000", "01", "0^12 2?3~3", "01 11", "row 1 signal 3: 10"),
];

type Case<'a> = (&'a str, &'a str, &'a str, &'a str, &'a str);

fn check(rt: &impl Abort, alloc: Global, case: &Case, told: bool) -> Result<(), Fail> {
    let (initial, inputs, parts, given, want) = *case;
    let rows = rows(alloc, given)?;
    match netlist(alloc, initial, inputs, parts, told)? {
        None => assert!(rt; false, "{parts} isn't whole"),
        Some(netlist) => {
            let text = ran(alloc, &netlist, &rows)?;
            assert_eq!(rt; text.as_str(), want, "of {parts} over {given}");
        }
    }
    Ok(())
}

// Each netlist, where it doesn't tell what its gates read and write, and where it does.
#[test]
fn runs(rt: HostRuntime) -> Result<(), Fail> {
    for case in CASES {
        check(&rt, rt.alloc(), case, false)?;
        check(&rt, rt.alloc(), case, true)?;
    }
    Ok(())
}
