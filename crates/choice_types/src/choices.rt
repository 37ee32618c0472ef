//! `?:` (IEEE 1800-2017 clause 11.4.11).

ghost use Rattle.std.specs.Prelude.{◌≡◌, ◌≤◌, ◌++◌, IfOk};
ghost use Rattle.expr_type.specs.Answers.{Gives, source};
ghost use Rattle.expr_type.specs.Operators as operator;
ghost use Rattle.sv_types.specs.Layouts.{width_of};
ghost use Rattle.operand_types.specs.Allowed.{IsNarrow};
ghost use Rattle.choice_types.specs.Choices.{choice_rule, made};

use expr_type::{Halt, Source, Valued};
use operand_types::{Operands, Pair, Parts, beside, both_type, in_context};
use std::alloc::{AllocError, Global};
use sv_source::Boxed;
use sv_types::{Expr, Form, SvType};
use type_kinds::{copy_type, is_same_enum, is_unpacked};

// The type of `?:`: that of arms of one enum, else the larger width.
fn chosen_type(alloc: Global, arms: &Operands) -> Result<SvType, AllocError>
    requires left { IsNarrow arms.now.left }
    requires right { IsNarrow arms.now.right }
    ensures value { IfOk result (λ t. t ≡ operator.chosen_type arms.now.left arms.now.right) }
    ensures narrow { IfOk result (λ t. width_of t ≤ 4194304) }
{
    if is_same_enum(&arms.left.expr.of, &arms.right.expr.of) {
        copy_type(alloc, &arms.left.expr.of)
    } else {
        both_type(alloc, arms)
    }
}

// Arms with the type of the whole.
#[derive(Drop)]
struct TypedArms {
    of: SvType,
    arms: Pair,
}

fn typed_arms(alloc: Global, arms: Operands) -> Result<TypedArms, AllocError>
    requires left { IsNarrow arms.left }
    requires right { IsNarrow arms.right }
    ensures of { IfOk result (λ t. t.of ≡ operator.chosen_type arms.left arms.right) }
    ensures narrow { IfOk result (λ t. width_of t.of ≤ 4194304) }
    ensures left { IfOk result (λ t. t.arms.left ≡ arms.left.expr) }
    ensures right { IfOk result (λ t. t.arms.right ≡ arms.right.expr) }
    ensures operators { IfOk result (λ t. t.arms.arithmetic ≡ arms.left.arithmetic ++ arms.right.arithmetic) }
{
    let of = chosen_type(alloc, &arms);
    let (of, arms) = pairs::both(of, beside(alloc, arms))?;
    Ok(TypedArms { of, arms })
}

// A condition with arms.
fn chosen(on: Boxed<Expr>, typed: TypedArms) -> Parts
    ensures { result ≡ record { of = typed.of; form = Form.Choose on typed.arms.left typed.arms.right; arithmetic = typed.arms.arithmetic } }
{
    let TypedArms { of, arms } = typed;
    let Pair {
        left,
        right,
        arithmetic,
    } = arms;
    Parts {
        of,
        form: Form::Choose(on, left, right),
        arithmetic,
    }
}

// A condition and two arms.
#[derive(Drop)]
struct Conditional {
    on: Valued,
    arms: Operands,
}

// The rules on what stands in `?:`.
fn may_choose(text: Source<'_>, at: u32, parts: &Conditional) -> Result<(), Halt>
    ensures { Gives result (choice_rule (source text.entry) at parts.now.on parts.now.arms.left parts.now.arms.right) }
{
    if is_unpacked(&parts.arms.left.expr.of) || is_unpacked(&parts.arms.right.expr.of) {
        return Err(Halt::Breaks { at, rule: 504 });
    }
    if is_unpacked(&parts.on.expr.of) {
        return Err(Halt::Breaks { at, rule: 508 });
    }
    Ok(())
}

// `?:` over what may stand there.
fn choose(alloc: Global, text: Source<'_>, parts: Conditional) -> Result<Valued, Halt>
    requires left { IsNarrow parts.arms.left }
    requires right { IsNarrow parts.arms.right }
    ensures value { Gives result (made (source text.entry) parts.on parts.arms.left parts.arms.right) }
    ensures narrow { IfOk result IsNarrow }
{
    let Conditional { on, arms } = parts;
    let first = on.begins;
    let on = Boxed::new(alloc, on.expr);
    let (on, arms) = pairs::both(on, typed_arms(alloc, arms))?;
    in_context(alloc, text, first, chosen(on, arms))
}

// `?:` at a token.
fn choice_by_rules(
    alloc: Global,
    text: Source<'_>,
    at: u32,
    parts: Conditional,
) -> Result<Valued, Halt>
    requires left { IsNarrow parts.arms.left }
    requires right { IsNarrow parts.arms.right }
    ensures value { Gives result (operator.choice_of (source text.entry) at parts.on parts.arms.left parts.arms.right) }
    ensures narrow { IfOk result IsNarrow }
{
    match may_choose(text, at, &parts) {
        Err(halt) => Err(halt),
        Ok(()) => choose(alloc, text, parts),
    }
}

/// `?:` at a token over a condition and two arms of at most 2^22 bits. It breaks E504 where an arm is unpacked, E508 where the
/// condition is, and E502, at the first operator in the order of the text, where one does arithmetic at more than 128 bits.
pub fn choice_of(
    alloc: Global,
    text: Source<'_>,
    at: u32,
    on: Valued,
    l: Valued,
    r: Valued,
) -> Result<Valued, Halt>
    requires left { IsNarrow l }
    requires right { IsNarrow r }
    ensures value { Gives result (operator.choice_of (source text.entry) at on l r) }
    ensures narrow { IfOk result IsNarrow }
{
    let arms = Operands { left: l, right: r };
    choice_by_rules(alloc, text, at, Conditional { on, arms })
}
