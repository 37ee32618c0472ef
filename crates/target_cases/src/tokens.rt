//! Texts that are cut into tokens.

use case_files::{Case, escaped};
use std::io;
use v_lexer::{Says, VToken, lex};

/// The longest text that is cut, in bytes.
const LONGEST: usize = 1 << 24;

/// Prints the place, the symbol and what is said of a token.
fn print(rt: &HostRuntime, token: &VToken) -> io::Result<()> {
    let VToken {
        symbol,
        at,
        size,
        ..
    } = token;
    match &token.says {
        Says::Nothing => println!(rt; "{at}+{size} {symbol}"),
        Says::Decimal(value) => println!(rt; "{at}+{size} {symbol} {value}"),
        Says::Number(bits) => println!(rt; "{at}+{size} {symbol} {:?}", bits.as_slice()),
        Says::Name(name) => {
            let name = escaped(rt.alloc(), name.as_bytes())?;
            println!(rt; "{at}+{size} {symbol} {name}")
        }
    }
}

/// Cuts the files of a case.
pub fn cut(rt: &HostRuntime, case: &Case) -> io::Result<()> {
    for file in &case.files {
        if file.bytes.len() > LONGEST {
            println!(rt; "too long")?;
            continue;
        }
        for token in lex(rt.alloc(), file.bytes.as_bytes())?.as_slice() {
            print(rt, token)?;
        }
    }
    Ok(())
}
