// The tables of the lexer.
ghost use Rattle.std.specs.Prelude.{◌≡◌, ◌≤◌, ◌<◌, ◌^◌, map, length, IfOk};
ghost use Rattle.std.specs.List.{list_any};
ghost use Rattle.std.specs.Str.{bytes_eq};
ghost use Rattle.sv_lexer.specs.Groups.{IsGrouped, widened, with_word, group_words};
ghost use Rattle.sv_lexer.specs.Tables.{words_of, longest_of, reserved_words, marks as marks_table, is_reserved, mark_span};

use std::alloc::{AllocError, Global};

/// The reserved words, each followed by one space but for the last (IEEE 1800-2017 annex B).
pub const RESERVED: &str =
    "accept_on alias always always_comb always_ff always_latch and assert assign assume automatic before begin bind bins binsof bit break buf bufif0 bufif1 byte case casex casez cell chandle checker class clocking cmos config const constraint context continue cover covergroup coverpoint cross deassign default defparam design disable dist do edge else end endcase endchecker endclass endclocking endconfig endfunction endgenerate endgroup endinterface endmodule endpackage endprimitive endprogram endproperty endspecify endsequence endtable endtask enum event eventually expect export extends extern final first_match for force foreach forever fork forkjoin function generate genvar global highz0 highz1 if iff ifnone ignore_bins illegal_bins implements implies import incdir include initial inout input inside instance int integer interconnect interface intersect join join_any join_none large let liblist library local localparam logic longint macromodule matches medium modport module nand negedge nettype new nexttime nmos nor noshowcancelled not notif0 notif1 null or output package packed parameter pmos posedge primitive priority program property protected pull0 pull1 pulldown pullup pulsestyle_ondetect pulsestyle_onevent pure rand randc randcase randsequence rcmos real realtime ref reg reject_on release repeat restrict return rnmos rpmos rtran rtranif0 rtranif1 s_always s_eventually s_nexttime s_until s_until_with scalared sequence shortint shortreal showcancelled signed small soft solve specify specparam static string strong strong0 strong1 struct super supply0 supply1 sync_accept_on sync_reject_on table tagged task this throughout time timeprecision timeunit tran tranif0 tranif1 tri tri0 tri1 triand trior trireg type typedef union unique unique0 unsigned until until_with untyped use uwire var vectored virtual void wait wait_order wand weak weak0 weak1 while wildcard wire with within wor xnor xor";

/// The operators and marks of punctuation, separated by one space, those with one first byte together.
pub const MARKS: &str =
    "( (* (*) ) [ ] { } ; , . .* : :: ? # @ ' = == === ==? + ++ += +: - -- -= -: * *) ** *= / /= % %= & && &= | || |= ^ ^~ ^= ~ ~& ~| ~^ ! != !== !=? < <= << <<< <<= <<<= > >= >> >>> >>= >>>=";

/// Some words of a table: from `start` on and before `end`.
#[derive(Clone, Copy)]
pub struct Group {
    start: usize,
    end: usize,
}

/// The words of a table, cut apart. All that begin with one byte stand in that byte's group.
#[derive(Drop)]
struct Table {
    words: Vec<&'static str>,
    groups: [Group; 256],
    ghost grouped: { IsGrouped words.items groups },
}

// The words of a table.
fn words(alloc: Global, table: &'static str) -> Result<Vec<&'static str>, AllocError>
    ensures { IfOk result (λ v. map (λ x. x.now) v.items ≡ words_of table.now) }
{
    table.split(' ').collect(alloc)
}

// The group with one more word, which stands at this index.
fn widened(group: Group, at: usize) -> Group
    requires { at < 2 ^ 63 }
    ensures { result ≡ widened group at }
{
    let start = if group.end == 0 { at } else { group.start };
    Group { start, end: at + 1 }
}

// Widens the group of the word's first byte, if it has one.
fn add_word(groups: &mut [Group; 256], word: &str, at: usize)
    requires { at < 2 ^ 63 }
    ensures { groups.new ≡ with_word groups.old word.now at }
{
    if let [first, ..] = word.as_bytes() {
        let first = usize::from(*first);
        groups[first] = widened(groups[first], at);
    }
}

fn groups(words: &[&'static str]) -> [Group; 256]
    ensures { IsGrouped words.now result }
{
    let mut groups = [Group { start: 0, end: 0 }; 256];
    for (at, word) in words.iter().enumerate() {
        add_word(&mut groups, word, at);
    }
    groups
}

impl Table {
    fn new(alloc: Global, table: &'static str) -> Result<Table, AllocError>
        ensures { IfOk result (λ t. map (λ x. x.now) t.words.items ≡ words_of table.now) }
    {
        let words = words(alloc, table)?;
        let groups = groups(&words);
        Ok(Table { words, groups })
    }

    // The words among which are all that begin with the byte.
    fn group(&self, first: u8) -> &[&'static str]
        ensures { result.now ≡ group_words self.now.words.items self.now.groups first }
    {
        let Group { start, end } = self.groups[usize::from(first)];
        &self.words[start..end]
    }
}

fn is_among(words: &[&str], name: &[u8]) -> bool
    ensures { result ≡ list_any (λ word. bytes_eq word.now name.now) words.now }
{
    words.iter().any(|word| word.as_bytes() == name)
}

// The length of the longest of the words that begins the text, or 0.
fn longest_among(words: &[&str], bytes: &[u8]) -> usize
    ensures value { result ≡ longest_of bytes.now 0 (map (λ word. word.now) words.now) }
    ensures within { result ≤ length bytes.now }
{
    let mut best = 0;
    for word in words {
        let word = word.as_bytes();
        if best < word.len() && bytes.starts_with(word) {
            best = word.len();
        }
    }
    best
}

/// The words of both tables.
#[derive(Drop)]
pub struct Tables {
    reserved: Table,
    marks: Table,
    ghost all_reserved: { map (λ word. word.now) reserved.words.items ≡ reserved_words },
    ghost all_marks: { map (λ mark. mark.now) marks.words.items ≡ marks_table },
}

impl Tables {
    /// Both tables, or want of memory.
    #[tactic(auto, unfolding(crate::specs::Tables::reserved_words, crate::specs::Tables::marks))]
    pub fn new(alloc: Global) -> Result<Tables, AllocError> {
        Ok(Tables {
            reserved: Table::new(alloc, RESERVED)?,
            marks: Table::new(alloc, MARKS)?,
        })
    }

    /// Whether the name is a reserved word.
    pub fn is_reserved(&self, name: &[u8]) -> bool
        ensures { result ≡ is_reserved name.now }
    {
        match name {
            [] => false,
            [first, ..] => is_among(self.reserved.group(*first), name),
        }
    }

    /// The length of the longest mark at the front of a text, or 0.
    pub fn mark_span(&self, bytes: &[u8]) -> usize
        ensures value { result ≡ mark_span bytes.now }
        ensures within { result ≤ length bytes.now }
    {
        match bytes {
            [] => 0,
            [first, ..] => longest_among(self.marks.group(*first), bytes),
        }
    }
}
