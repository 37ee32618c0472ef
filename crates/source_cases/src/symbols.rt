//! Reads a flat or a nested list of symbols by a small table, for measuring.

use ll_engine::{Items, Ll1, Part, Row, Table};
use std::alloc::{AllocError, Global};
use std::io;

/// Sums of names in brackets, with `PLUS` between the terms, as a list of sums with `COMMA` between.
const NAME: u16 = 0;

const PLUS: u16 = 1;

const OPEN: u16 = 2;

const CLOSE: u16 = 3;

const COMMA: u16 = 4;

fn push_row(
    alloc: Global,
    table: &mut Table,
    head: u16,
    parts: &[Part],
    deep: bool,
) -> Result<(), AllocError> {
    let parts = Items::from_slice(alloc, parts)?;
    table.push(Row { head, parts, deep })
}

fn table(alloc: Global) -> Result<Table, AllocError> {
    let mut table = Items::new(alloc);
    push_row(alloc, &mut table, 0, &[Part::Non(1), Part::Many(2)], false)?;
    push_row(alloc, &mut table, 1, &[Part::Non(3), Part::Chain(4)], true)?;
    push_row(
        alloc,
        &mut table,
        2,
        &[Part::Term(COMMA), Part::Non(1)],
        false,
    )?;
    push_row(alloc, &mut table, 3, &[Part::Term(NAME)], false)?;
    push_row(
        alloc,
        &mut table,
        3,
        &[Part::Term(OPEN), Part::Non(1), Part::Term(CLOSE)],
        false,
    )?;
    push_row(
        alloc,
        &mut table,
        4,
        &[Part::Term(PLUS), Part::Non(3)],
        false,
    )?;
    Ok(table)
}

/// Names with commas between.
fn flat(alloc: Global, count: u32) -> Result<Vec<u16>, AllocError> {
    let mut symbols = Vec::new(alloc);
    symbols.push(NAME)?;
    for _ in 0..count / 2 {
        symbols.push(COMMA)?;
        symbols.push(NAME)?;
    }
    Ok(symbols)
}

/// A list of names in two hundred brackets each.
fn deep(alloc: Global, count: u32) -> Result<Vec<u16>, AllocError> {
    let mut symbols = Vec::new(alloc);
    symbols.push(NAME)?;
    for _ in 0..count / 402 {
        symbols.push(COMMA)?;
        for _ in 0..200 {
            symbols.push(OPEN)?;
        }
        symbols.push(NAME)?;
        for _ in 0..200 {
            symbols.push(CLOSE)?;
        }
    }
    Ok(symbols)
}

/// Reads about so many symbols, and prints how many they are.
pub fn read_symbols(rt: &HostRuntime, is_deep: bool, count: u32) -> io::Result<()> {
    let alloc = rt.alloc();
    let table = table(alloc)?;
    if table.len() > 65536 {
        return println!(rt; "the table is too long");
    }
    let Ok(reader) = Ll1::new(alloc, table) else {
        return println!(rt; "no reader");
    };
    let symbols = if is_deep {
        deep(alloc, count)?
    } else {
        flat(alloc, count)?
    };
    let length = symbols.len();
    if length >= 4_294_967_295 {
        return println!(rt; "too many symbols");
    }
    match reader.parse(symbols.as_slice(), 256) {
        Ok(_) => println!(rt; "{length} symbols read"),
        Err(_) => println!(rt; "no tree of {length} symbols"),
    }
}
