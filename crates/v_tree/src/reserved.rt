//! Reserved words and simple names (IEEE 1364-2005 clauses 3.7 and 3.7.1, IEEE 1800-2017 annex B).

ghost use Rattle.std.specs.Prelude.{◌≡◌};
ghost use Rattle.std.specs.List.{list_any, list_all};
ghost use Rattle.std.specs.Str.{bytes_eq};
ghost use Rattle.v_tree.specs.Reserved.{words_of, words_to_f, words_to_m, words_to_s, words_to_x, words_with, is_reserved};
ghost use Rattle.v_tree.specs.Tokens.{is_letter, is_word, is_simple};

// Those that begin with one of the letters `abcdef`.
#[tactic(auto, unfolding(crate::specs::Reserved::words_to_f))]
fn words_to_f(first: u8) -> &'static str
    ensures { result.now ≡ words_to_f first }
{
    match first {
        b'a' => {
            "accept_on alias always always_comb always_ff always_latch and assert assign assume automatic"
        }
        b'b' => { "before begin bind bins binsof bit break buf bufif0 bufif1 byte" }
        b'c' => {
            "case casex casez cell chandle checker class clocking cmos config const constraint context continue cover covergroup coverpoint cross"
        }
        b'd' => { "deassign default defparam design disable dist do" }
        b'e' => {
            "edge else end endcase endchecker endclass endclocking endconfig endfunction endgenerate endgroup endinterface endmodule endpackage endprimitive endprogram endproperty endspecify endsequence endtable endtask enum event eventually expect export extends extern"
        }
        b'f' => { "final first_match for force foreach forever fork forkjoin function" }
        _ => "",
    }
}

// Those that begin with one of the letters `ghijlm`.
#[tactic(auto, unfolding(crate::specs::Reserved::words_to_m))]
fn words_to_m(first: u8) -> &'static str
    ensures { result.now ≡ words_to_m first }
{
    match first {
        b'g' => { "generate genvar global" }
        b'h' => { "highz0 highz1" }
        b'i' => {
            "if iff ifnone ignore_bins illegal_bins implements implies import incdir include initial inout input inside instance int integer interconnect interface intersect"
        }
        b'j' => { "join join_any join_none" }
        b'l' => { "large let liblist library local localparam logic longint" }
        b'm' => { "macromodule matches medium modport module" }
        _ => "",
    }
}

// Those that begin with one of the letters `noprs`.
#[tactic(auto, unfolding(crate::specs::Reserved::words_to_s))]
fn words_to_s(first: u8) -> &'static str
    ensures { result.now ≡ words_to_s first }
{
    match first {
        b'n' => {
            "nand negedge nettype new nexttime nmos nor noshowcancelled not notif0 notif1 null"
        }
        b'o' => { "or output" }
        b'p' => {
            "package packed parameter pmos posedge primitive priority program property protected pull0 pull1 pulldown pullup pulsestyle_ondetect pulsestyle_onevent pure"
        }
        b'r' => {
            "rand randc randcase randsequence rcmos real realtime ref reg reject_on release repeat restrict return rnmos rpmos rtran rtranif0 rtranif1"
        }
        b's' => {
            "s_always s_eventually s_nexttime s_until s_until_with scalared sequence shortint shortreal showcancelled signed small soft solve specify specparam static string strong strong0 strong1 struct super supply0 supply1 sync_accept_on sync_reject_on"
        }
        _ => "",
    }
}

// Those that begin with one of the letters `tuvwx`.
#[tactic(auto, unfolding(crate::specs::Reserved::words_to_x))]
fn words_to_x(first: u8) -> &'static str
    ensures { result.now ≡ words_to_x first }
{
    match first {
        b't' => {
            "table tagged task this throughout time timeprecision timeunit tran tranif0 tranif1 tri tri0 tri1 triand trior trireg type typedef"
        }
        b'u' => { "union unique unique0 unsigned until until_with untyped use uwire" }
        b'v' => { "var vectored virtual void" }
        b'w' => { "wait wait_order wand weak weak0 weak1 while wildcard wire with within wor" }
        b'x' => { "xnor xor" }
        _ => "",
    }
}

// The reserved words that begin with a byte, with one space between.
#[tactic(auto, unfolding(crate::specs::Reserved::words_with))]
fn words_with(first: u8) -> &'static str
    ensures { result.now ≡ words_with first }
{
    if first < b'g' {
        words_to_f(first)
    } else if first < b'n' {
        words_to_m(first)
    } else if first < b't' {
        words_to_s(first)
    } else {
        words_to_x(first)
    }
}

// Whether the name is one of the words of a text, which spaces separate.
fn is_among(words: &'static str, name: &[u8]) -> bool
    ensures { result ≡ list_any (λ word. bytes_eq word name.now) (words_of words.now) }
{
    words.split(' ').any(|word| word.as_bytes() == name)
}

/// Whether the name is a reserved word.
#[tactic(auto, unfolding(crate::specs::Reserved::is_reserved))]
pub fn is_reserved(name: &[u8]) -> bool
    ensures { result ≡ is_reserved name.now }
{
    match name {
        [] => false,
        [first, ..] => is_among(words_with(*first), name),
    }
}

fn is_letter(c: u8) -> bool
    ensures { result ≡ is_letter c }
{
    c.is_ascii_lowercase() || c.is_ascii_uppercase() || c == b'_'
}

fn is_word(c: u8) -> bool
    ensures { result ≡ is_word c }
{
    is_letter(c) || c.is_ascii_digit() || c == b'$'
}

fn are_words(bytes: &[u8]) -> bool
    ensures { result ≡ list_all is_word bytes.now }
{
    bytes.iter().all(|c| is_word(*c))
}

/// Whether the name is a simple one: a letter or an underscore, and then letters, digits, underscores and dollar signs,
/// and no reserved word. Any other name is written as an escaped identifier.
pub fn is_simple(name: &[u8]) -> bool
    ensures { result ≡ is_simple name.now }
{
    match name {
        [] => false,
        [first, rest @ ..] => is_letter(*first) && are_words(rest) && !is_reserved(name),
    }
}
