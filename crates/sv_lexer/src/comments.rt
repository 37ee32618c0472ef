// Comments: how many bytes of each kind begin a text.
ghost use Rattle.std.specs.Prelude.{◌≡◌, ◌+◌, ◌≤◌, ◌<◌, ◌&&◌, length, not, nat_lt};
ghost use Rattle.sv_lexer.specs.Spans as spec;

fn ends_line(bytes: &[u8]) -> bool
    ensures { result ≡ spec.ends_line bytes.now }
{
    bytes.starts_with(b"\n") || bytes.starts_with(b"\\\n") || bytes.starts_with(b"\\\r\n")
}

// How many bytes stand before the end of the line.
fn line_rest(bytes: &[u8]) -> usize
    ensures value { result ≡ spec.until spec.ends_line bytes.now }
    ensures within { result ≤ length bytes.now }
{
    for at in 0..bytes.len() {
        let (_, rest) = bytes.split_at(at);
        if ends_line(rest) {
            return at;
        }
    }
    bytes.len()
}

/// A comment to the end of its line (IEEE 1800-2017 clause 5.4).
pub fn line_comment_span(bytes: &[u8]) -> usize
    ensures value { result ≡ spec.line_comment_span bytes.now }
    ensures within { result ≤ length bytes.now }
{
    if bytes.starts_with(b"//") {
        line_rest(bytes)
    } else {
        0
    }
}

// How many bytes stand before the first `*/`, or before the end.
fn before_close(bytes: &[u8]) -> usize
    ensures value { result ≡ spec.until spec.closes_comment bytes.now }
    ensures within { result ≤ length bytes.now }
    ensures closed { result < length bytes.now → result + 2 ≤ length bytes.now }
{
    for at in 0..bytes.len() {
        let (_, rest) = bytes.split_at(at);
        if rest.starts_with(b"*/") {
            return at;
        }
    }
    bytes.len()
}

// How many bytes of a block comment stand between its marks, or behind the first up to the end.
fn comment_body(bytes: &[u8]) -> usize
    requires { 2 ≤ length bytes.now }
    ensures value { result ≡ spec.comment_body bytes.now }
    ensures within { result + 2 ≤ length bytes.now }
    ensures closed { result + 2 < length bytes.now → result + 4 ≤ length bytes.now }
{
    before_close(&bytes[2..])
}

/// A block comment that is closed (IEEE 1800-2017 clause 5.4).
pub fn block_comment_span(bytes: &[u8]) -> usize
    ensures value { result ≡ spec.block_comment_span bytes.now }
    ensures within { result ≤ length bytes.now }
{
    if !bytes.starts_with(b"/*") {
        return 0;
    }
    let body = comment_body(bytes);
    if body + 2 < bytes.len() { body + 4 } else { 0 }
}

/// A block comment that isn't closed, to the end of the file.
pub fn cut_span(bytes: &[u8]) -> usize
    ensures value { result ≡ spec.cut_span bytes.now }
    ensures within { result ≤ length bytes.now }
{
    if !bytes.starts_with(b"/*") {
        return 0;
    }
    let body = comment_body(bytes);
    if body + 2 < bytes.len() {
        0
    } else {
        bytes.len()
    }
}
