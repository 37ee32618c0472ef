use b4_core::{Bit4, Items, Vec4};
use std::alloc::{AllocError, Global};
use std::process::Abort;
use std::test::Fail;
use stim_rows::{Port, Ports, Shape, lines, read_rows};
use sv_source::Text;

// A small number.
fn narrow(n: usize) -> u32 {
    u32::try_from(n).unwrap_or(u32::MAX)
}

// A port whose marks a word gives, most significant first: `2` for a two-state bit, `4` for another.
fn port(alloc: Global, name: &str, marks: &str, signal: u32) -> Result<Port, AllocError> {
    let mut bits = Vec::new(alloc);
    for mark in marks.bytes().rev() {
        bits.push(if mark == b'2' { Bit4::One } else { Bit4::Zero })?;
    }
    let two_state = Vec4::from_vec(bits);
    Ok(Port {
        name: Text::from_bytes(alloc, name.as_bytes())?,
        width: narrow(two_state.len()),
        two_state,
        signal,
    })
}

// Ports of a text like `a:44 b:2`.
fn ports(alloc: Global, text: &str) -> Result<Ports, AllocError> {
    let mut all = Vec::new(alloc);
    for word in text.split(' ') {
        if let Some((name, marks)) = word.split_once(':') {
            let signal = narrow(all.len());
            all.push(port(alloc, name, marks, signal)?)?;
        }
    }
    Ok(Items::from_vec(all))
}

// What a row file gives: the lines of its rows, or the rule, place and word of its refusal.
fn given(alloc: Global, inputs: &str, bits: u64, text: &str) -> Result<String, Fail> {
    let shape = Shape {
        inputs: ports(alloc, inputs)?,
        outputs: ports(alloc, inputs)?,
        bits,
    };
    let bytes = text.as_bytes();
    if bytes.len() > 4096 {
        return Ok(format!(in alloc; "too long for this test")?);
    }
    match read_rows(alloc, &shape, 7, bytes) {
        Ok(rows) => {
            let shown = lines(alloc, &shape, &rows)?;
            Ok(format!(in alloc; "{} rows: {}", rows.len(), shown.escape_ascii())?)
        }
        Err(sv_source::Fail::Refused(refusal)) => Ok(format!(in alloc;
            "{}:{}:{}: E{} {}",
            refusal.place.file,
            refusal.place.line,
            refusal.place.col,
            refusal.rule,
            refusal.word.as_bytes().escape_ascii()
        )?),
        Err(sv_source::Fail::Memory) => Ok(format!(in alloc; "memory")?),
    }
}

// Inputs, bits of the design, a row file, and what it gives.
const CASES: &[(&str, u64, &str, &str)] = &[
    (
        "a:4444 b:4444",
        12,
        "1x10 0110\nx1z0 0000\n",
        "2 rows: 1x10 0110\\nx1z0 0000\\n",
    ),
    (
        "a:4444 b:4444",
        12,
        "1x10 0110\nx1z0 0000",
        "2 rows: 1x10 0110\\nx1z0 0000\\n",
    ),
    ("a:4444 b:4444", 12, "1x10", "7:1:5: E801 b"),
    ("a:4444 b:4444", 12, "1x10 011", "7:1:9: E801 b"),
    ("a:4444 b:4444", 12, "1x1\n", "7:1:4: E801 a"),
    ("a:4444 b:4444", 12, "1x10 0110 ", "7:1:10: E801 <line>"),
    ("a:4444 b:4444", 12, "1x10  0110\n", "7:1:6: E801 b"),
    ("a:4444 b:4444", 12, "1x10 0110\n\n", "7:2:1: E801 a"),
    ("a:4444 b:4444", 12, "1x10 0110\r\n", "7:1:10: E801 <line>"),
    ("a:4444 b:4444", 12, "1X10 0110\n", "7:1:2: E801 a"),
    ("a:4444 b:4444", 12, "", "0 rows: "),
    ("a:42", 2, "x0\nz1\n", "2 rows: x0\\nz1\\n"),
    ("a:42", 2, "x0\n0x\n", "7:2:2: E801 a"),
    ("", 3, "", "0 rows: "),
    ("", 3, "\n\n", "2 rows: \\n\\n"),
    ("", 3, "\n0", "7:2:1: E801 <line>"),
    ("a:4", 268435456, "0", "1 rows: 0\\n"),
    ("a:4", 268435457, "0", "7:1:1: E802 rows"),
    ("a:4", 134217728, "0\n1\n", "2 rows: 0\\n1\\n"),
    ("a:4", 134217728, "0\n1\nz\n", "7:1:1: E802 rows"),
    ("a:4", 134217728, "0\n1\nz\n2", "7:4:1: E801 a"),
];

#[test]
fn row_files(rt: HostRuntime) -> Result<(), Fail> {
    let alloc = rt.alloc();
    for (inputs, bits, text, want) in CASES {
        assert_eq!(rt; given(alloc, inputs, *bits, text)?.as_str(), *want);
    }
    Ok(())
}
