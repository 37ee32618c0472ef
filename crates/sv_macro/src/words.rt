// What the names of directives say.
ghost use Rattle.std.specs.Prelude.{◌≡◌};
ghost use Rattle.std.specs.Str.{bytes_eq};
ghost use Rattle.sv_macro.specs.Words as spec;

/// A directive that selects branches (IEEE 1800-2017 clause 22.6).
#[derive(Clone, Copy, PartialEq, Eq, Debug)]
pub enum Condition {
    /// `` `ifdef ``
    Ifdef,
    /// `` `ifndef ``
    Ifndef,
    /// `` `elsif ``
    Elsif,
    /// `` `else ``
    Else,
    /// `` `endif ``
    Endif,
}

/// What a backquote and a name say.
#[derive(Clone, Copy, PartialEq, Eq, Debug)]
pub enum Word {
    /// A directive that selects branches.
    Branch(Condition),
    /// `` `define ``
    Define,
    /// `` `undef ``
    Undef,
    /// `` `include ``
    Include,
    /// A directive that is dropped alone.
    Alone,
    /// `` `default_nettype ``
    NetType,
    /// `` `timescale ``
    Timescale,
    /// A directive that isn't supported.
    Unsupported,
    /// Any other name: the use of a macro.
    Use,
}

fn same(name: &[u8], word: &[u8]) -> bool
    ensures { result ≡ bytes_eq name.now word.now }
{
    name == word
}

fn selecting(name: &[u8], other: Word) -> Word
    ensures { result ≡ spec.selecting name.now other }
{
    if same(name, b"ifdef") {
        Word::Branch(Condition::Ifdef)
    } else if same(name, b"ifndef") {
        Word::Branch(Condition::Ifndef)
    } else if same(name, b"elsif") {
        Word::Branch(Condition::Elsif)
    } else if same(name, b"else") {
        Word::Branch(Condition::Else)
    } else if same(name, b"endif") {
        Word::Branch(Condition::Endif)
    } else {
        other
    }
}

fn supported(name: &[u8], other: Word) -> Word
    ensures { result ≡ spec.supported name.now other }
{
    if same(name, b"define") {
        Word::Define
    } else if same(name, b"undef") {
        Word::Undef
    } else if same(name, b"include") {
        Word::Include
    } else if same(name, b"default_nettype") {
        Word::NetType
    } else if same(name, b"timescale") {
        Word::Timescale
    } else {
        other
    }
}

fn without_effect(name: &[u8], other: Word) -> Word
    ensures { result ≡ spec.without_effect name.now other }
{
    if same(name, b"resetall") {
        Word::Alone
    } else if same(name, b"celldefine") {
        Word::Alone
    } else if same(name, b"endcelldefine") {
        Word::Alone
    } else {
        other
    }
}

fn unsupported(name: &[u8], other: Word) -> Word
    ensures { result ≡ spec.unsupported name.now other }
{
    if same(name, b"line") {
        Word::Unsupported
    } else if same(name, b"pragma") {
        Word::Unsupported
    } else if same(name, b"begin_keywords") {
        Word::Unsupported
    } else if same(name, b"end_keywords") {
        Word::Unsupported
    } else if same(name, b"undefineall") {
        Word::Unsupported
    } else {
        other
    }
}

fn unsupported_too(name: &[u8], other: Word) -> Word
    ensures { result ≡ spec.unsupported_too name.now other }
{
    if same(name, b"unconnected_drive") {
        Word::Unsupported
    } else if same(name, b"nounconnected_drive") {
        Word::Unsupported
    } else if same(name, b"__FILE__") {
        Word::Unsupported
    } else if same(name, b"__LINE__") {
        Word::Unsupported
    } else {
        other
    }
}

/// What a name says behind a backquote: every name that isn't a directive's uses a macro.
pub fn word_of(name: &[u8]) -> Word
    ensures { result ≡ spec.word_of name.now }
{
    let other = unsupported(name, unsupported_too(name, Word::Use));
    selecting(name, supported(name, without_effect(name, other)))
}
