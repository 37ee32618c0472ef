//! Characters of numbers, in either case (IEEE 1800-2017 clause 5.7.1).

ghost use Rattle.std.specs.Prelude.{◌≡◌, ◌≤◌};
ghost use Rattle.expr_type.specs.Literals as number;

/// Whether a character is a letter in either case.
pub fn is_letter(lower: u8, c: u8) -> bool
    ensures { result ≡ number.is_letter lower c }
{
    c == lower || u32::from(c) + 32 == u32::from(lower)
}

/// Whether it is the digit x.
pub fn is_x(c: u8) -> bool
    ensures { result ≡ number.is_x c }
{
    is_letter(b'x', c)
}

/// Whether it is the digit z, which may be written `?`.
pub fn is_z(c: u8) -> bool
    ensures { result ≡ number.is_z c }
{
    is_letter(b'z', c) || c == b'?'
}

/// Whether it is a digit, and not an underscore or a blank.
pub fn is_digit(c: u8) -> bool
    ensures { result ≡ number.is_digit c }
{
    !(c == b'_' || c == b' ' || c == b'\t')
}

/// What a digit stands for.
pub fn digit_value(c: u8) -> u8
    ensures { result ≡ number.digit_value c }
{
    if c <= b'9' {
        c.saturating_sub(b'0')
    } else if b'a' <= c {
        c - 87
    } else {
        c.saturating_sub(55)
    }
}

/// How many bits a digit stands for by the letter of its base: none in base ten.
pub fn bits_of_base(c: u8) -> u32
    ensures value { result ≡ number.bits_of_base c }
    ensures few { result ≤ 4 }
{
    if is_letter(b'b', c) {
        1
    } else if is_letter(b'o', c) {
        3
    } else if is_letter(b'h', c) {
        4
    } else {
        0
    }
}
