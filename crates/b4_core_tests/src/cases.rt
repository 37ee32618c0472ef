use crate::table::{ARITHMETIC, BITS, BITWISE, COMPARISONS, POWERS, SHIFTS};
use b4_core::{
    BinOp, Bit4, Edge, EqOp, OrdOp, RedOp, ShiftOp, UnOp, Vec4, binary, both, edge, either, equal,
    extend, merge, negate, order, power, reduce, shift, truth, two_state, unary,
};
use std::alloc::{AllocError, Global};
use std::process::Abort;
use std::test::Fail;

// A line of a table.
#[derive(Clone, Copy)]
struct Case<'a> {
    op: &'a str,
    sign: &'a str,
    a: &'a str,
    b: &'a str,
    want: &'a str,
}

fn read_case(line: &str) -> Option<Case<'_>> {
    let mut words = line.split(' ');
    Some(Case {
        op: words.next()?,
        sign: words.next()?,
        a: words.next()?,
        b: words.next()?,
        want: words.next()?,
    })
}

// The vector of a text, most significant bit first.
fn vector(alloc: Global, text: &str) -> Result<Vec4, AllocError> {
    let mut bits = Vec::new(alloc);
    for c in text.bytes().rev() {
        bits.push(match c {
            b'0' => Bit4::Zero,
            b'1' => Bit4::One,
            b'x' => Bit4::X,
            _ => Bit4::Z,
        })?;
    }
    Vec4::from_slice(alloc, &bits)
}

fn single(alloc: Global, b: Bit4) -> Result<Vec4, AllocError> {
    Vec4::from_slice(alloc, &[b])
}

fn binary_op(text: &str) -> Option<BinOp> {
    match text {
        "&" => Some(BinOp::And),
        "|" => Some(BinOp::Or),
        "^" => Some(BinOp::Xor),
        "~^" => Some(BinOp::Xnor),
        "+" => Some(BinOp::Add),
        "-" => Some(BinOp::Sub),
        "*" => Some(BinOp::Mul),
        "/" => Some(BinOp::Div),
        "%" => Some(BinOp::Rem),
        _ => None,
    }
}

fn shift_op(text: &str) -> Option<ShiftOp> {
    match text {
        "<<" => Some(ShiftOp::Left),
        ">>" => Some(ShiftOp::Right),
        ">>>" => Some(ShiftOp::Arith),
        _ => None,
    }
}

fn reduction_op(text: &str) -> Option<RedOp> {
    match text {
        "r&" => Some(RedOp::And),
        "r|" => Some(RedOp::Or),
        "r^" => Some(RedOp::Xor),
        "r~&" => Some(RedOp::Nand),
        "r~|" => Some(RedOp::Nor),
        "r~^" => Some(RedOp::Xnor),
        _ => None,
    }
}

fn order_op(text: &str) -> Option<OrdOp> {
    match text {
        "<" => Some(OrdOp::Less),
        "<=" => Some(OrdOp::LessEqual),
        ">" => Some(OrdOp::Greater),
        ">=" => Some(OrdOp::GreaterEqual),
        _ => None,
    }
}

fn equality_op(text: &str) -> Option<EqOp> {
    match text {
        "==" => Some(EqOp::Logic),
        "===" => Some(EqOp::Case),
        "==?" => Some(EqOp::Wild),
        _ => None,
    }
}

fn edge_letter(found: Edge) -> &'static str {
    match found {
        Edge::Pos => "P",
        Edge::Neg => "N",
        Edge::None => "E",
    }
}

// The value of two vectors of one length of at most 128 bits.
fn value_of_two(
    rt: &impl Abort,
    alloc: Global,
    op: &str,
    signed: bool,
    a: &Vec4,
    b: &Vec4,
) -> Result<Option<Vec4>, AllocError> {
    assert!(rt; a.len() > 0 && a.len() <= 128 && a.len() == b.len());
    if let Some(op) = binary_op(op) {
        return Ok(Some(binary(alloc, op, a, b, signed)?));
    }
    if let Some(op) = order_op(op) {
        return Ok(Some(single(alloc, order(op, a, b, signed))?));
    }
    if let Some(op) = equality_op(op) {
        return Ok(Some(single(alloc, equal(op, a, b))?));
    }
    Ok(if op == "?:" {
        Some(merge(alloc, a, b)?)
    } else {
        None
    })
}

// The value of one vector.
fn value_of_one(
    rt: &impl Abort,
    alloc: Global,
    op: &str,
    a: &Vec4,
) -> Result<Option<Vec4>, AllocError> {
    assert!(rt; a.len() > 0 && a.len() <= 128);
    if let Some(op) = reduction_op(op) {
        return Ok(Some(single(alloc, reduce(op, a))?));
    }
    Ok(match op {
        "~" => Some(unary(alloc, UnOp::Not, a)?),
        "neg" => Some(unary(alloc, UnOp::Neg, a)?),
        "two" => Some(two_state(alloc, a)?),
        "truth" => Some(single(alloc, truth(a))?),
        "!" => Some(single(alloc, negate(truth(a)))?),
        _ => None,
    })
}

// The value of two vectors of any lengths.
fn value_of_any(
    rt: &impl Abort,
    alloc: Global,
    c: Case<'_>,
    a: &Vec4,
    b: &Vec4,
) -> Result<Option<Vec4>, AllocError> {
    assert!(rt; a.len() > 0 && b.len() > 0);
    if let Some(op) = shift_op(c.op) {
        return Ok(Some(shift(alloc, op, a, b, c.sign == "s")?));
    }
    Ok(match c.op {
        "&&" => Some(single(alloc, both(truth(a), truth(b)))?),
        "||" => Some(single(alloc, either(truth(a), truth(b)))?),
        "**" => {
            assert!(rt; a.len() <= 128 && b.len() <= 128);
            let (a_signed, b_signed) = match c.sign {
                "uu" => (false, false),
                "us" => (false, true),
                "su" => (true, false),
                _ => (true, true),
            };
            Some(power(alloc, a, b, a_signed, b_signed)?)
        }
        _ => None,
    })
}

// The value of a case that gives a vector.
fn value(rt: &impl Abort, alloc: Global, c: Case<'_>) -> Result<Vec4, Fail> {
    let a = vector(alloc, c.a)?;
    if c.op == "ext" {
        assert!(rt; a.len() > 0);
        return Ok(extend(alloc, &a, c.b.parse::<u32>()?, c.sign == "s")?);
    }
    if let Some(found) = value_of_one(rt, alloc, c.op, &a)? {
        return Ok(found);
    }
    let b = vector(alloc, c.b)?;
    if let Some(found) = value_of_any(rt, alloc, c, &a, &b)? {
        return Ok(found);
    }
    Ok(value_of_two(rt, alloc, c.op, c.sign == "s", &a, &b)?.ok_or("no such operator")?)
}

// The edge of a case, from its first operand to its second.
fn edge_of_case(rt: &impl Abort, alloc: Global, c: Case<'_>) -> Result<&'static str, Fail> {
    let (old, new) = (vector(alloc, c.a)?, vector(alloc, c.b)?);
    assert!(rt; old.len() == 1 && new.len() == 1);
    Ok(edge_letter(edge(old.at(0), new.at(0))))
}

// Checks a table, and counts its cases.
fn check(rt: &impl Abort, alloc: Global, table: &str) -> Result<u32, Fail> {
    let mut count = 0u32;
    for line in table.lines() {
        let c = read_case(line).ok_or("no case")?;
        if c.op == "edge" {
            assert_eq!(rt; edge_of_case(rt, alloc, c)?, c.want, "{line}");
        } else {
            assert_eq!(rt;
                value(rt, alloc, c)?.as_slice(),
                vector(alloc, c.want)?.as_slice(),
                "{line}"
            );
        }
        count = count.saturating_add(1);
    }
    Ok(count)
}

#[test]
fn table_cases(rt: HostRuntime) -> Result<(), Fail> {
    for (table, count) in [
        (BITWISE, 26),
        (ARITHMETIC, 91),
        (POWERS, 24),
        (SHIFTS, 86),
        (COMPARISONS, 131),
        (BITS, 119),
    ] {
        assert_eq!(rt; check(&rt, rt.alloc(), table)?, count);
    }
    Ok(())
}

// The calls that the table doesn't reach.
#[test]
fn bits_of_a_vector(rt: HostRuntime) -> Result<(), Fail> {
    let mut v = vector(rt.alloc(), "10xz")?;
    assert_eq!(rt; v.len(), 4);
    assert_eq!(rt; v.at(0), Bit4::Z);
    assert_eq!(rt; v.at(3), Bit4::One);
    v.put(1, Bit4::Zero);
    assert_eq!(rt; v.as_slice(), vector(rt.alloc(), "100z")?.as_slice());
    let bits = [Bit4::X, Bit4::One].to_vec(rt.alloc())?;
    assert_eq!(rt;
        Vec4::from_vec(bits).as_slice(),
        vector(rt.alloc(), "1x")?.as_slice()
    );
    Ok(())
}
