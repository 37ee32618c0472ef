//! Expressions, statements and functions of a frame's text.

ghost use Rattle.std.specs.Prelude.{◌≡◌, true};
ghost use Rattle.std.specs.Option.{option_copied};
ghost use Rattle.expr_type.specs.Functions.{routine};
ghost use Rattle.frame_texts.specs.Frames as means;
ghost use Rattle.stmt_laws.specs.Written.{stmt_written};
ghost use Rattle.typing_fits.specs.Sound.{Extends};
ghost use Rattle.typing_parts.specs.Typists.{CalledTo, IsReady};
ghost use Rattle.typing_steps.specs.Steps.{TypesTo};
ghost use Rattle.typing_walks.specs.Written.{is_written};
ghost use Rattle.typing_stmts.specs.Around.{SoundAround, around};
ghost use Rattle.typing_stmts.specs.Frames.{with_functions};

use crate::needed::routine;
use crate::statement;
use expr_type::Halt;
use frame_things::FrameThings;
use std::alloc::Global;
use sv_tree::{Expr, Stmt};
use sv_types::SvType;
use typing_declarations::type_expr as expr_in;
use typing_names::{FrameText, SourceNames};
use typing_parts::Known;
use typing_scopes::Scope;

/// An expression of the text of a frame that begins at a token, by itself or given to a target of a type; or the first rule of
/// elaboration that it breaks in the order of the text, with its token. The functions that it calls are known then (IEEE 1800-2017
/// clause 11).
pub fn type_expr(
    alloc: Global,
    source: &SourceNames<'_>,
    frame: FrameThings<'_>,
    at: u32,
    e: &Expr,
    want: Option<&SvType>,
    known: &mut Known,
) -> Result<sv_types::Expr, Halt>
    requires sound { SoundAround source.now.tree.now frame.frame.now }
    requires written { is_written e.now ≡ true }
    requires ready { IsReady known.old }
    ensures value { TypesTo result (means.type_expr source.now.tree.now source.now.names.now (with_functions frame.entry.frame.now known.old.functions) at e.now (option_copied want.entry)) known.new.functions }
    ensures ready { IsReady known.new }
    ensures keeps { Extends known.old.functions known.new.functions }
{
    let text = FrameText::new(alloc, source, frame, at);
    let depth = source.names.table().declared.len();
    let needs = |inner: u32, k: &mut Known| -> Result<u32, Halt>
        requires sound { SoundAround source.now.tree.now frame.frame.now }
        requires ready { IsReady k.old }
        ensures value { CalledTo result (routine depth (around source.entry.now.tree.now source.entry.now.names.now frame.entry.frame.now at) inner k.old.functions) k.new.functions }
        ensures ready { IsReady k.new }
        ensures keeps { Extends k.old.functions k.new.functions }
    { routine(alloc, source, frame, at, depth, inner, k) };
    expr_in(alloc, &text, &needs, e, want, known)
}

/// A statement of the text of a frame that begins at a token, whose locals are numbered from there; or the first rule of elaboration that
/// it breaks in the order of the text, with its token. The functions that it calls are known then (clauses 9.3, 10.4 and 12).
pub fn type_stmt(
    alloc: Global,
    source: &SourceNames<'_>,
    frame: FrameThings<'_>,
    at: u32,
    s: &Stmt,
    known: &mut Known,
) -> Result<sv_types::Stmt, Halt>
    requires sound { SoundAround source.now.tree.now frame.frame.now }
    requires written { stmt_written s.now ≡ true }
    requires ready { IsReady known.old }
    ensures value { TypesTo result (means.type_stmt source.now.tree.now source.now.names.now (with_functions frame.entry.frame.now known.old.functions) at s.now) known.new.functions }
    ensures ready { IsReady known.new }
    ensures keeps { Extends known.old.functions known.new.functions }
{
    let text = FrameText::new(alloc, source, frame, at);
    let depth = source.names.table().declared.len();
    let needs = |inner: u32, k: &mut Known| -> Result<u32, Halt>
        requires sound { SoundAround source.now.tree.now frame.frame.now }
        requires ready { IsReady k.old }
        ensures value { CalledTo result (routine depth (around source.entry.now.tree.now source.entry.now.names.now frame.entry.frame.now at) inner k.old.functions) k.new.functions }
        ensures ready { IsReady k.new }
        ensures keeps { Extends k.old.functions k.new.functions }
    { routine(alloc, source, frame, at, depth, inner, k) };
    let names = Scope::over(alloc, &text);
    statement(alloc, &names, &needs, s, known)
}

/// The place of the function or task with a declaration among those that are known then; or the first rule of elaboration that its text
/// breaks, with its token. A function of so many statements is typed once, however often it is called (clauses 13.3 and 13.4).
pub fn type_function(
    alloc: Global,
    source: &SourceNames<'_>,
    frame: FrameThings<'_>,
    declaration: u32,
    known: &mut Known,
) -> Result<u32, Halt>
    requires sound { SoundAround source.now.tree.now frame.frame.now }
    requires ready { IsReady known.old }
    ensures value { TypesTo result (means.type_function source.now.tree.now source.now.names.now (with_functions frame.entry.frame.now known.old.functions) declaration) known.new.functions }
    ensures ready { IsReady known.new }
    ensures keeps { Extends known.old.functions known.new.functions }
{
    let depth = source.names.table().declared.len();
    routine(alloc, source, frame, 0, depth, declaration, known)
}
