// How a program prints what a case gave.
use std::alloc::{AllocError, Global};
use std::io::{self, Write};

/// The bytes as text: printable ASCII as it is, a backslash twice, a newline as `\n`, and every other byte as its number in `\{N}`.
pub fn escaped(alloc: Global, bytes: &[u8]) -> Result<String, AllocError> {
    let mut text = String::new(alloc);
    for &byte in bytes {
        match byte {
            b'\n' => text.push_str("\\n")?,
            b'\\' => text.push_str("\\\\")?,
            b' '..=b'~' => text.push(char::from(byte))?,
            _ => write!(text, "\\{{{byte}}}")?,
        }
    }
    Ok(text)
}

/// Prints bytes below a line that says what they are, and says where they don't end a line. Nothing for no bytes.
pub fn print_bytes(rt: &HostRuntime, what: &str, bytes: &[u8]) -> io::Result<()> {
    if bytes.is_empty() {
        return Ok(());
    }
    println!(rt; "{what}:")?;
    rt.stdout().write_all(bytes)?;
    if bytes.ends_with(b"\n") {
        Ok(())
    } else {
        println!(rt; "\n(no newline)")
    }
}
