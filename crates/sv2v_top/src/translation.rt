//! From the tokens of a source to the text of its translation.

ghost use Rattle.std.specs.Prelude.{◌≡◌, ◌^◌, ◌-◌, ◌<◌, length, [], true, IfOk};
ghost use Rattle.v_tree.specs.Grammatical.{is_of_grammar};
ghost use Rattle.v_tree.specs.Rules.{Keeps};
ghost use Rattle.v_writer.specs.Writing.{Writes};
ghost use Rattle.sv_build.specs.Reading.{Ends};
ghost use Rattle.sv2v_top.specs.Tokens.{NamesAreSimple};
ghost use Rattle.sv2v_top.specs.Translation.{TranslationGives};

use crate::elab_build::elaborate;
use lower_design::lower_elaborated;
use std::alloc::{AllocError, Global};
use sv_build::read_source;
use sv_source::{Fail, Text, Tokens};
use v_tree::VDesign;
use v_writer::{text_len, write_text};

/// The text of a target design (IEEE 1364-2005), or want of memory. The design must be of the target grammar and keep the rules
/// that need no top.
fn text_of(alloc: Global, target: &VDesign) -> Result<Text, AllocError>
    requires grammar { is_of_grammar target.now ≡ true }
    requires keeps { Keeps target.now }
    ensures { IfOk result (λ text. Writes target.now [] text) }
{
    let mut bytes = Vec::with_capacity(alloc, text_len(target) as usize)?;
    write_text(target, &mut bytes);
    Ok(Text::from_vec(bytes))
}

/// The translation of source tokens, of which the last is the end token, by the top's name. Where they are refused, their
/// first break.
pub fn translate(alloc: Global, top: &[u8], tokens: Tokens) -> Result<Text, Fail>
    requires few { length tokens < 2 ^ 32 - 1 }
    requires names { NamesAreSimple tokens }
    requires ends { Ends tokens }
    ensures { TranslationGives top.now tokens result }
{
    let tree = read_source(alloc, tokens)?;
    let design = elaborate(alloc, &tree, top)?;
    let target = lower_elaborated(alloc, &design)?;
    let text = text_of(alloc, &target)?;
    Ok(text)
}
