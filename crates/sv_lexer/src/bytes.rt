// Classes of bytes.
ghost use Rattle.std.specs.Prelude.{◌≡◌, ◌==◌, ◌||◌};
ghost use Rattle.sv_lexer.specs.Bytes as spec;

/// White space that is no newline.
pub fn is_white(byte: u8) -> bool
    ensures { result ≡ spec.is_white byte }
{
    matches!(byte, b' ' | b'\t' | b'\x0c' | b'\r')
}

/// A space or a tab.
pub fn is_blank(byte: u8) -> bool
    ensures { result ≡ spec.is_blank byte }
{
    matches!(byte, b' ' | b'\t')
}

/// A decimal digit.
pub fn is_digit(byte: u8) -> bool
    ensures { result ≡ spec.is_digit byte }
{
    byte.is_ascii_digit()
}

/// A letter or an underscore, which begin a name.
pub fn is_letter(byte: u8) -> bool
    ensures { result ≡ spec.is_letter byte }
{
    matches!(byte, b'a'..=b'z' | b'A'..=b'Z' | b'_')
}

/// A byte that goes on a name.
pub fn is_word(byte: u8) -> bool
    ensures { result ≡ spec.is_word byte }
{
    is_letter(byte) || is_digit(byte) || byte == b'$'
}

/// A decimal digit or an underscore.
pub fn is_decimal(byte: u8) -> bool
    ensures { result ≡ spec.is_decimal byte }
{
    is_digit(byte) || byte == b'_'
}

/// A digit of an unknown or high impedance value.
pub fn is_unknown(byte: u8) -> bool
    ensures { result ≡ spec.is_unknown byte }
{
    matches!(byte, b'x' | b'X' | b'z' | b'Z' | b'?')
}

/// A digit in base 2.
pub fn is_binary(byte: u8) -> bool
    ensures { result ≡ spec.is_binary byte }
{
    matches!(byte, b'0' | b'1') || is_unknown(byte)
}

/// A digit in base 8.
pub fn is_octal(byte: u8) -> bool
    ensures { result ≡ spec.is_octal byte }
{
    matches!(byte, b'0'..=b'7') || is_unknown(byte)
}

/// A digit in base 16.
pub fn is_hex(byte: u8) -> bool
    ensures { result ≡ spec.is_hex byte }
{
    byte.is_ascii_hexdigit() || is_unknown(byte)
}

/// A byte with which tokens of several kinds or comments begin.
pub fn opens_many(byte: u8) -> bool
    ensures { result ≡ spec.opens_many byte }
{
    matches!(byte, b'/' | b'\\' | b'$' | b'\'' | b'"' | b'`')
}
