//! What a text is written on.

ghost use Rattle.std.specs.Prelude.{◌≡◌, ◌≤◌, false, ◌∷◌, [], ◌++◌, codes, decimal, map, reverse, vec_len, vec_capacity};
ghost use Rattle.v_tree.specs.Tokens.{Token};
ghost use Rattle.v_writer.specs.Layout.{token, space, line, bit_digit};
ghost use Rattle.v_writer.specs.Margins.{levels};
ghost use Rattle.v_writer.specs.Sheets.{Sheet, upto, appended, step};
ghost use Rattle.v_writer.specs.Pages.{kept, HasRoom};

use crate::margin::Margin;
use b4_core::{Bit4, Vec4};
use itoa::Buffer;
use std::marker::Model;
use sv_source::Text;
use v_tree::is_simple;

/// What a text is written on: the length of what was written, and where the text is kept its bytes, up to a limit for
/// which there is room.
#[derive(Drop)]
pub struct Page {
    length: u64,
    bytes: Option<Vec<u8>>,
    limit: usize,
    escaped: bool,
}

impl Model for Page {
    ghost use Rattle.v_writer.specs.Sheets.{Sheet};
    ghost use Rattle.v_writer.specs.Pages.{kept, HasRoom};

    ghost Value = { Sheet };

    ghost view = { λ p. record { length_so_far = p.length; bytes = kept p.bytes; limit = p.limit; escaped = p.escaped } };

    ghost invariant = { λ p. HasRoom p.bytes p.limit };
}

// Appends as much of the piece as the limit leaves room for.
#[tactic(auto, unfolding(crate::specs::Sheets::upto))]
fn append_front(bytes: &mut Vec<u8>, limit: usize, piece: &[u8])
    requires { limit ≤ vec_capacity bytes.old }
    ensures items { bytes.new.items ≡ upto limit bytes.old.items piece.now }
    ensures room { limit ≤ vec_capacity bytes.new }
{
    let count = piece.len().min(limit.saturating_sub(bytes.len()));
    bytes.extend_from_slice(&piece[..count]).unwrap();
}

// The same, where the bytes are kept.
#[tactic(auto, unfolding(crate::specs::Sheets::upto))]
fn append_kept(bytes: &mut Option<Vec<u8>>, limit: usize, piece: &[u8])
    requires { HasRoom bytes.old limit }
    ensures items { kept bytes.new ≡ upto limit (kept bytes.old) piece.now }
    ensures room { HasRoom bytes.new limit }
{
    if let Some(bytes) = bytes {
        append_front(bytes, limit, piece);
    }
}

// The digit of a bit.
fn digit(bit: Bit4) -> u8
    ensures { result ≡ bit_digit bit }
{
    match bit {
        Bit4::Zero => b'0',
        Bit4::One => b'1',
        Bit4::X => b'x',
        Bit4::Z => b'z',
    }
}

impl Page {
    /// A page of which only the length is kept.
    pub fn measured() -> Page
        ensures { result ≡ record { length_so_far = 0; bytes = []; limit = 0; escaped = false } }
    {
        Page {
            length: 0,
            bytes: None,
            limit: 0,
            escaped: false,
        }
    }

    /// A page behind these bytes, with room up to their capacity.
    pub fn behind(bytes: Vec<u8>) -> Page
        ensures { result ≡ record { length_so_far = 0; bytes = bytes.items; limit = vec_capacity bytes; escaped = false } }
    {
        let limit = bytes.capacity();
        Page {
            length: 0,
            bytes: Some(bytes),
            limit,
            escaped: false,
        }
    }

    /// The length of all that was written, at most 2^64 - 1.
    pub fn length(&self) -> u64
        ensures { result ≡ self.now.length_so_far }
    {
        self.length
    }

    /// The bytes, where they were kept.
    pub fn into_bytes(self) -> Option<Vec<u8>>
        ensures { kept result ≡ self.bytes }
    {
        let Page { bytes, .. } = self;
        bytes
    }

    /// Appends bytes.
    #[tactic(auto, unfolding(crate::specs::Sheets::appended, crate::specs::Sheets::count))]
    pub fn append(&mut self, piece: &[u8])
        ensures { self.new ≡ appended self.old piece.now }
    {
        self.length = self.length.saturating_add(piece.len() as u64);
        append_kept(&mut self.bytes, self.limit, piece);
    }

    // Appends `'b` and bits, the most significant first.
    #[tactic(auto, using(crate::proofs::Sheets::sheets))]
    fn append_bits(&mut self, bits: &[Bit4])
        ensures { self.new ≡ appended self.old (codes "'b" ++ map bit_digit (reverse bits.now)) }
    {
        self.append(b"'b");
        for bit in bits.iter().rev() {
            self.append(&[digit(*bit)]);
        }
    }

    // Appends a decimal number.
    fn append_decimal(&mut self, n: u64)
        ensures { self.new ≡ appended self.old (decimal n) }
    {
        let mut buffer = Buffer::new();
        self.append(buffer.format(n).as_bytes());
    }

    /// Writes a mark.
    #[tactic(auto, unfolding(crate::specs::Sheets::step))]
    pub fn mark(&mut self, bytes: &[u8])
        ensures { self.new ≡ step self.old (token (Token.mark bytes.now)) }
    {
        self.append(bytes);
        self.escaped = false;
    }

    /// Writes a word.
    #[tactic(auto, unfolding(crate::specs::Sheets::step))]
    pub fn word(&mut self, bytes: &[u8])
        ensures { self.new ≡ step self.old (token (Token.word bytes.now)) }
    {
        self.append(bytes);
        self.escaped = false;
    }

    /// Writes a name, as an escaped identifier where it isn't a simple one.
    #[tactic(auto, using(crate::proofs::Sheets::sheets), unfolding(crate::specs::Sheets::step, crate::specs::Layout::name_spelling, crate::specs::Layout::is_escaped_name))]
    pub fn name(&mut self, name: &Text)
        ensures { self.new ≡ step self.old (token (Token.name name.now)) }
    {
        let simple = is_simple(name.as_bytes());
        if simple {
            self.append(name.as_bytes());
        } else {
            self.append(b"\\");
            self.append(name.as_bytes());
            self.append(b" ");
        }
        self.escaped = !simple;
    }

    /// Writes a sized binary number.
    #[tactic(auto, using(crate::proofs::Sheets::sheets), unfolding(crate::specs::Sheets::step))]
    pub fn number(&mut self, bits: &Vec4)
        ensures { self.new ≡ step self.old (token (Token.number bits.now)) }
    {
        self.append_decimal(bits.len() as u64);
        self.append_bits(bits.as_slice());
        self.escaped = false;
    }

    /// Writes a decimal number.
    #[tactic(auto, unfolding(crate::specs::Sheets::step))]
    pub fn whole(&mut self, n: u32)
        ensures { self.new ≡ step self.old (token (Token.decimal n)) }
    {
        self.append_decimal(u64::from(n));
        self.escaped = false;
    }

    /// Writes a space, but behind an escaped identifier, which has its own.
    #[tactic(auto, unfolding(crate::specs::Sheets::step))]
    pub fn space(&mut self)
        ensures { self.new ≡ step self.old space }
    {
        let space: &[u8] = if self.escaped { b"" } else { b" " };
        self.append(space);
        self.escaped = false;
    }

    /// Ends the line, and indents the next one.
    #[tactic(auto, using(crate::proofs::Sheets::sheets), unfolding(crate::specs::Sheets::step))]
    pub fn line(&mut self, margin: Margin<'_>)
        ensures { self.new ≡ step self.old (line (levels margin.entry)) }
    {
        self.append(b"\n");
        margin.write(self);
        self.escaped = false;
    }
}
