//! Classes of bytes, and how many bytes of a class begin a text.

ghost use Rattle.std.specs.Prelude.{◌≡◌, ◌≤◌, ◌==◌, not, length};
ghost use Rattle.std.specs.List.{prefix_len};
ghost use Rattle.v_tree.specs.Tokens as spec;

/// Whether the text begins with these bytes.
#[tactic(auto, using(crate::proofs::Begins::starts_begins))]
pub fn begins(bytes: &[u8], text: &[u8]) -> bool
    ensures { result ≡ spec.begins bytes.now text.now }
{
    text.starts_with(bytes)
}

/// A letter or the underscore, which begin a simple name.
pub fn is_letter(byte: u8) -> bool
    ensures { result ≡ spec.is_letter byte }
{
    byte.is_ascii_lowercase() || byte.is_ascii_uppercase() || byte == b'_'
}

/// A decimal digit.
pub fn is_digit(byte: u8) -> bool
    ensures { result ≡ spec.is_digit byte }
{
    byte.is_ascii_digit()
}

fn is_word(byte: u8) -> bool
    ensures { result ≡ spec.is_word byte }
{
    is_letter(byte) || is_digit(byte) || byte == b'$'
}

/// White space (IEEE 1364-2005 clause 3.2).
pub fn is_white(byte: u8) -> bool
    ensures { result ≡ spec.is_white byte }
{
    byte == b' ' || byte == b'\n' || byte == b'\t' || byte == b'\r' || byte == 12
}

fn is_printable(byte: u8) -> bool
    ensures { result ≡ spec.is_printable byte }
{
    (33..=126).contains(&byte)
}

fn is_bit(byte: u8) -> bool
    ensures { result ≡ spec.is_bit byte }
{
    byte == b'0' || byte == b'1' || byte == b'x' || byte == b'z'
}

/// How many bytes at the front go on a simple name.
pub fn words(bytes: &[u8]) -> usize
    ensures value { result ≡ prefix_len spec.is_word bytes.now }
    ensures within { result ≤ length bytes.now }
{
    bytes.iter().take_while(|byte| is_word(**byte)).count()
}

/// How many digits stand at the front.
pub fn digits(bytes: &[u8]) -> usize
    ensures value { result ≡ prefix_len spec.is_digit bytes.now }
    ensures within { result ≤ length bytes.now }
{
    bytes.iter().take_while(|byte| is_digit(**byte)).count()
}

/// How many printable bytes other than space stand at the front.
pub fn printables(bytes: &[u8]) -> usize
    ensures value { result ≡ prefix_len spec.is_printable bytes.now }
    ensures within { result ≤ length bytes.now }
{
    bytes.iter().take_while(|byte| is_printable(**byte)).count()
}

/// How many bits stand at the front.
pub fn bits(bytes: &[u8]) -> usize
    ensures value { result ≡ prefix_len spec.is_bit bytes.now }
    ensures within { result ≤ length bytes.now }
{
    bytes.iter().take_while(|byte| is_bit(**byte)).count()
}

/// How many bytes stand before the end of the line.
pub fn line_rest(bytes: &[u8]) -> usize
    ensures value { result ≡ prefix_len (λ b. not (b == 10)) bytes.now }
    ensures within { result ≤ length bytes.now }
{
    bytes.iter().take_while(|byte| **byte != b'\n').count()
}
