//! The writing of what a text reads as.

ghost use Rattle.std.specs.Prelude.{◌≡◌, ◌<◌, ◌-◌, ◌^◌, length, true, [], IfOk};
ghost use Rattle.v_tree.specs.Grammatical.{is_of_grammar};
ghost use Rattle.v_tree.specs.Reading.{VReads};
ghost use Rattle.v_tree.specs.Rules.{Keeps};
ghost use Rattle.v_writer.specs.Writing.{Writes};
ghost use Rattle.v_round_trip.specs.RoundTrip.{RewriteGives};

use std::alloc::{AllocError, Global};
use sv_source::Text;
use v_reader::{ReadFail, discard, read_verilog};
use v_tree::VDesign;
use v_writer::{text_len, write_text};

// The text of a design of the grammar that keeps the rules.
fn text_of(alloc: Global, design: &VDesign) -> Result<Text, AllocError>
    requires grammar { is_of_grammar design.now ≡ true }
    requires keeps { Keeps design.now }
    ensures { IfOk result (λ text. Writes design.now [] text) }
{
    let mut text = Vec::with_capacity(alloc, text_len(design) as usize)?;
    write_text(design, &mut text);
    Ok(Text::from_vec(text))
}

/// The text of the design that the bytes read as, or want of memory.
pub fn write_read(alloc: Global, bytes: &[u8], design: &VDesign) -> Result<Text, AllocError>
    requires { VReads bytes.now design.now }
    ensures { IfOk result (λ text. Writes design.now [] text) }
{
    let _bytes = bytes;
    text_of(alloc, design)
}

// The same of a design that is dropped.
fn write_last(alloc: Global, bytes: &[u8], design: VDesign) -> Result<Text, AllocError>
    requires { VReads bytes.now design }
    ensures { IfOk result (λ text. Writes design [] text) }
{
    let text = write_read(alloc, bytes, &design);
    discard(design);
    text
}

/// The text that is written of what a target text reads as, exactly where it reads as a design (the subset of IEEE 1364-2005 annex A
/// in which texts are written). Else why it doesn't, as `v_reader::read_verilog` says, or want of memory.
pub fn rewrite(alloc: Global, bytes: &[u8]) -> Result<Text, ReadFail>
    requires { length bytes.now < 2 ^ 32 - 1 }
    ensures { RewriteGives bytes.now result }
{
    match read_verilog(alloc, bytes) {
        Ok(design) => Ok(write_last(alloc, bytes, design)?),
        Err(fail) => Err(fail),
    }
}
