//! The walk over statements.

ghost use Rattle.std.specs.Prelude.{◌≡◌, map, true, IfOk};
ghost use Rattle.expr_type.specs.Statements as def;
ghost use Rattle.routine_fits.specs.Sound.{AllSoundFunctions};
ghost use Rattle.stmt_laws.specs.Written.{case_written, item_written, items_written, stmt_written};
ghost use Rattle.typing_calls.specs.Lists.{as_meant};
ghost use Rattle.typing_fits.specs.Sound.{Extends};
ghost use Rattle.typing_parts.specs.Typists.{IsReady, MakesKnown};
ghost use Rattle.typing_scopes.specs.Scopes.{context_of};
ghost use Rattle.typing_steps.specs.Steps.{TypesTo};
ghost use Rattle.typing_stmt_parts.specs.Items.{AllFoundTo, FoundTo, item_of, items_of};
ghost use Rattle.typing_stmt_parts.specs.Parts.{SoundIn, part_meant};
ghost use Rattle.typing_stmts.specs.Written.{cases_written, else_if_written, else_of};
ghost use Rattle.typing_walks.specs.Keeps.{Surrounded};

use crate::turns::test_and_step;
use expr_type::Halt;
use std::alloc::Global;
use stmt_types::{BlockPart, CaseFound};
use sv_source::Boxed;
use sv_tree::{BlockItem, CaseItem, Else, Stmt};
use typing_actions::{assign, condition, counted, item_values, returned, task_called};
use typing_declarations::{
    choice, entered, loop_of, loop_variable, named_variables, parameters, variables,
};
use typing_parts::{Known, Names};
use typing_scopes::{Base, Scope};
use typing_stmt_parts::{
    Part, block_by, case_of, empty, ended, ends, item_by, joined, no_values, of_declared,
    of_statement, some_of,
};

/// A statement of a text (IEEE 1800-2017 clauses 9.3, 10.4, 11.4.2, 12.4 to 12.8, 13.3 and 13.5), where `needs` is asked to make a
/// function or task known that isn't. Its first break in the order of the text counts.
#[cycle(stmt)]
pub fn statement<B: Base, C: Fn(u32, &mut Known) -> Result<u32, Halt>>(
    alloc: Global,
    names: &Scope<'_, B>,
    needs: &C,
    s: &Stmt,
    known: &mut Known,
) -> Result<sv_types::Stmt, Halt>
    requires needs { MakesKnown _ ((n : _) (k : _) → IsReady k.now → C.pre needs.now n k) (λ k. k.now) (C.post needs.now) (context_of B.context names.now) }
    requires names { Surrounded AllSoundFunctions (context_of B.context names.now) }
    requires written { stmt_written s.now ≡ true }
    requires ready { IsReady known.old }
    ensures value { TypesTo result (def.typed_stmt (context_of B.context names.now) s.now known.old.functions) known.new.functions }
    ensures ready { IsReady known.new }
    ensures keeps { Extends known.old.functions known.new.functions }
{
    match s {
        Stmt::Block { items, .. } => {
            let inside = items.as_slice();
            block(alloc, names, needs, inside, known)
        }
        Stmt::If {
            test,
            body,
            other,
            ..
        } => {
            let on = condition(alloc, names, needs, test, known);
            let branch = body.get();
            let first = statement(alloc, names, needs, branch, known);
            let second = else_branch(alloc, names, needs, other, known);
            choice(alloc, on, first, second)
        }
        Stmt::Case {
            keyword,
            value,
            items,
            ..
        } => {
            let sought = condition(alloc, names, needs, value, known);
            let cases = items.as_slice();
            let found = case_items(alloc, names, needs, cases, known);
            case_of(alloc, *keyword, sought, found)
        }
        Stmt::For {
            keyword,
            first,
            test,
            step,
            body,
            ..
        } => {
            let variable = loop_variable(alloc, names, needs, first, known);
            let inner = entered(alloc, &*names, &variable)?;
            let controlled = test_and_step(alloc, &inner, needs, &variable, test, step, known);
            let repeated = body.get();
            let turn = statement(alloc, &inner, needs, repeated, known);
            loop_of(alloc, names.text(), *keyword, variable, controlled, turn)
        }
        Stmt::Break { .. } => Ok(sv_types::Stmt::Break),
        Stmt::Continue { .. } => Ok(sv_types::Stmt::Continue),
        Stmt::Return { keyword, value, .. } => {
            let given = names.given();
            returned(alloc, names, needs, *keyword, given, value.as_ref(), known)
        }
        Stmt::Call { of, arguments, .. } => {
            let passed = arguments.as_slice();
            task_called(alloc, names, needs, *of, passed, known)
        }
        Stmt::Assign {
            target,
            operator,
            at,
            value,
            ..
        } => assign(alloc, names, needs, target, *at, *operator, value, known),
        Stmt::Postfix {
            name,
            selects,
            operator,
            at,
            ..
        } => {
            let behind = selects.as_slice();
            counted(alloc, names, needs, *name, *operator, *at, behind, known)
        }
        Stmt::Prefix {
            operator,
            at,
            name,
            selects,
            ..
        } => {
            let chosen = selects.as_slice();
            counted(alloc, names, needs, *name, *operator, *at, chosen, known)
        }
        Stmt::Empty { .. } => Ok(empty(alloc)),
    }
}

// What stands behind `else`, if there is one.
#[cycle(stmt)]
fn else_branch<B: Base, C: Fn(u32, &mut Known) -> Result<u32, Halt>>(
    alloc: Global,
    names: &Scope<'_, B>,
    needs: &C,
    other: &Option<Boxed<Else>>,
    known: &mut Known,
) -> Result<Option<sv_types::Stmt>, Halt>
    requires needs { MakesKnown _ ((n : _) (k : _) → IsReady k.now → C.pre needs.now n k) (λ k. k.now) (C.post needs.now) (context_of B.context names.now) }
    requires names { Surrounded AllSoundFunctions (context_of B.context names.now) }
    requires written { else_if_written other.now ≡ true }
    requires ready { IsReady known.old }
    ensures value { TypesTo result (else_of (context_of B.context names.now) other.now known.old.functions) known.new.functions }
    ensures ready { IsReady known.new }
    ensures keeps { Extends known.old.functions known.new.functions }
{
    match other {
        None => Ok(None),
        Some(other) => {
            let behind = other.get();
            let made = statement(alloc, names, needs, &behind.body, known);
            some_of(made)
        }
    }
}

// An item of a `case`. Want of memory alone is no item.
#[cycle(stmt)]
fn found_item<B: Base, C: Fn(u32, &mut Known) -> Result<u32, Halt>>(
    alloc: Global,
    names: &Scope<'_, B>,
    needs: &C,
    item: &CaseItem,
    known: &mut Known,
) -> Result<CaseFound, Halt>
    requires needs { MakesKnown _ ((n : _) (k : _) → IsReady k.now → C.pre needs.now n k) (λ k. k.now) (C.post needs.now) (context_of B.context names.now) }
    requires names { Surrounded AllSoundFunctions (context_of B.context names.now) }
    requires written { case_written item.now ≡ true }
    requires ready { IsReady known.old }
    ensures value { FoundTo result (item_of (context_of B.context names.now) item.now known.old.functions) known.new.functions }
    ensures ready { IsReady known.new }
    ensures keeps { Extends known.old.functions known.new.functions }
{
    match item {
        CaseItem::Values { values, body, .. } => {
            let written = values.as_slice();
            let found = item_values(alloc, names, needs, written, known);
            if ends(&found) {
                return ended(found);
            }
            let before = known.functions.len();
            let made = statement(alloc, names, needs, body, known);
            item_by(alloc, before, false, found, made, known)
        }
        CaseItem::Default { body, .. } => {
            let count = known.functions.len();
            let other = statement(alloc, names, needs, body, known);
            let none = no_values(alloc);
            item_by(alloc, count, true, none, other, known)
        }
    }
}

// Items of a `case`, up to one whose values break a rule.
#[cycle(stmt)]
fn case_items<B: Base, C: Fn(u32, &mut Known) -> Result<u32, Halt>>(
    alloc: Global,
    names: &Scope<'_, B>,
    needs: &C,
    items: &[CaseItem],
    known: &mut Known,
) -> Result<Vec<CaseFound>, Halt>
    requires needs { MakesKnown _ ((n : _) (k : _) → IsReady k.now → C.pre needs.now n k) (λ k. k.now) (C.post needs.now) (context_of B.context names.now) }
    requires names { Surrounded AllSoundFunctions (context_of B.context names.now) }
    requires written { cases_written items.now ≡ true }
    requires ready { IsReady known.old }
    ensures value { AllFoundTo result (items_of (context_of B.context names.now) items.now known.old.functions) known.new.functions }
    ensures ready { IsReady known.new }
    ensures keeps { Extends known.old.functions known.new.functions }
{
    let mut made = Vec::new(alloc);
    for item in items {
        let found = found_item(alloc, names, needs, item, known)?;
        let last = ends(&found.values);
        made.push(found)?;
        if last {
            return Ok(made);
        }
    }
    Ok(made)
}

// An item of a block.
#[cycle(stmt)]
fn part<B: Base, C: Fn(u32, &mut Known) -> Result<u32, Halt>>(
    alloc: Global,
    names: &Scope<'_, B>,
    needs: &C,
    item: &BlockItem,
    known: &mut Known,
) -> Result<Part, Halt>
    requires needs { MakesKnown _ ((n : _) (k : _) → IsReady k.now → C.pre needs.now n k) (λ k. k.now) (C.post needs.now) (context_of B.context names.now) }
    requires names { Surrounded AllSoundFunctions (context_of B.context names.now) }
    requires written { item_written item.now ≡ true }
    requires ready { IsReady known.old }
    ensures value { TypesTo (as_meant part_meant result) (def.item_meaning item.now (context_of B.context names.now) known.old.functions) known.new.functions }
    ensures sound { IfOk result (SoundIn known.new.functions) }
    ensures ready { IsReady known.new }
    ensures keeps { Extends known.old.functions known.new.functions }
{
    match item {
        BlockItem::Statement(s) => {
            let made = statement(alloc, names, needs, s, known);
            of_statement(made)
        }
        BlockItem::Parameters(p) => {
            let bodies = p.bodies.as_slice();
            let declared = parameters(alloc, names, needs, bodies, known);
            of_declared(declared)
        }
        BlockItem::Variables {
            of,
            declarators,
            ..
        } => {
            let declarators = declarators.as_slice();
            let declared = variables(alloc, names, needs, of, declarators, known);
            of_declared(declared)
        }
        BlockItem::NamedVariables {
            of,
            selects,
            declarators,
            ..
        } => {
            let selects = selects.as_slice();
            let declared_here = declarators.as_slice();
            let declared = named_variables(alloc, names, needs, *of, selects, declared_here, known);
            of_declared(declared)
        }
    }
}

/// A block of items (IEEE 1800-2017 clause 9.3.1): what its declarations declare stands behind them, and a declaration behind statements
/// opens a block with what stands behind it. The first break in the order of the text counts.
#[cycle(stmt)]
pub fn block<B: Base, C: Fn(u32, &mut Known) -> Result<u32, Halt>>(
    alloc: Global,
    names: &Scope<'_, B>,
    needs: &C,
    items: &[BlockItem],
    known: &mut Known,
) -> Result<sv_types::Stmt, Halt>
    requires needs { MakesKnown _ ((n : _) (k : _) → IsReady k.now → C.pre needs.now n k) (λ k. k.now) (C.post needs.now) (context_of B.context names.now) }
    requires names { Surrounded AllSoundFunctions (context_of B.context names.now) }
    requires written { items_written items.now ≡ true }
    requires ready { IsReady known.old }
    ensures value { TypesTo result (def.block (context_of B.context names.now) (map def.item_meaning items.now) known.old.functions) known.new.functions }
    ensures ready { IsReady known.new }
    ensures keeps { Extends known.old.functions known.new.functions }
{
    let mut inner = Scope::inside(alloc, &*names);
    let mut made: Option<Vec<BlockPart>> = Some(Vec::new(alloc));
    for item in items {
        let next = part(alloc, &inner, needs, item, known);
        made = joined(made, &mut inner, next)?;
    }
    block_by(alloc, made)
}
