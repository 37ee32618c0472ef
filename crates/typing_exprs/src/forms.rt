//! Forms of expressions.

ghost use Rattle.std.specs.Prelude.{◌≡◌, true};
ghost use Rattle.expr_type.specs.Expressions.{meaning};
ghost use Rattle.routine_fits.specs.Sound.{AllSoundFunctions};
ghost use Rattle.typing_walks.specs.Keeps.{Surrounded};
ghost use Rattle.typing_walks.specs.Written.{is_written};
ghost use Rattle.typing_fits.specs.Sound.{Extends};
ghost use Rattle.typing_steps.specs.Steps.{TypesTo};
ghost use Rattle.typing_parts.specs.Operands.{as_operand};
ghost use Rattle.typing_parts.specs.Typists.{AllCanType, IsReady, MakesKnown};
ghost use Rattle.typing_operators.specs.Children.{children};

use crate::names::{name, word};
use crate::{as_stream, by_sign, by_written_size, called, parenthesized, pattern, plain_operand};
use expr_type::Halt;
use literal_types::{based_number, decimal, fill, sized_number};
use pattern_types::Operand;
use std::alloc::Global;
use sv_tree::Expr;
use typing_operators::{binary, concatenation, conditional, inside, replication, stream, unary};
use typing_parts::{Known, Names};
use typing_paths::system_call;

/// An expression as an operand, over something that types the expressions in it. Its first break in the order of the text counts.
pub fn form<
    S: Names,
    F: Fn(&Expr, &mut Known) -> Result<Operand, Halt>,
    C: Fn(u32, &mut Known) -> Result<u32, Halt>,
>(
    alloc: Global,
    names: &S,
    needs: &C,
    typed: &F,
    e: &Expr,
    known: &mut Known,
) -> Result<Operand, Halt>
    requires needs { MakesKnown _ ((n : _) (k : _) → IsReady k.now → C.pre needs.now n k) (λ k. k.now) (C.post needs.now) (S.context names.now) }
    requires names { Surrounded AllSoundFunctions (S.context names.now) }
    requires written { is_written e.now ≡ true }
    requires can { AllCanType _ _ (λ e. e.now) (λ k. k.now) (F.pre typed.now) (F.post typed.now) (S.context names.now) (children e.now) }
    requires ready { IsReady known.old }
    ensures value { TypesTo (as_operand (S.context names.now).source result) ((meaning e.now).typed (S.context names.now) known.old.functions) known.new.functions }
    ensures ready { IsReady known.new }
    ensures keeps { Extends known.old.functions known.new.functions }
{
    match e {
        Expr::Conditional {
            test,
            question,
            first,
            second,
            ..
        } => {
            let (test, first, second) = (test.get(), first.get(), second.get());
            plain_operand(conditional(alloc, names, typed, *question, test, first, second, known))
        }
        Expr::Binary {
            left,
            operator,
            at,
            right,
        } => {
            let (left, right) = (left.get(), right.get());
            plain_operand(binary(alloc, names, typed, *operator, *at, left, right, known))
        }
        Expr::Inside {
            value,
            keyword,
            ranges,
            ..
        } => {
            let sought = value.get();
            let ranges = ranges.as_slice();
            plain_operand(inside(alloc, names, typed, *keyword, sought, ranges, known))
        }
        Expr::Unary {
            operator,
            at,
            operand,
        } => {
            let operand = operand.get();
            plain_operand(unary(alloc, names, typed, *operator, *at, operand, known))
        }
        Expr::Decimal { digits } => plain_operand(decimal(alloc, names.text(), *digits)),
        Expr::Sized { size, digits } => {
            plain_operand(sized_number(alloc, names.text(), *size, *digits))
        }
        Expr::SizeCast { size, cast } => {
            let sized = cast.get();
            plain_operand(by_written_size(alloc, names, typed, *size, sized, known))
        }
        Expr::Based { digits } => plain_operand(based_number(alloc, names.text(), *digits)),
        Expr::Fill { digit } => plain_operand(fill(alloc, names.text(), *digit)),
        Expr::Parenthesized {
            opening,
            value,
            cast,
            ..
        } => {
            let inner = value.get();
            parenthesized(alloc, names, typed, *opening, inner, cast, known)
        }
        Expr::Replication {
            opening,
            count,
            items,
            ..
        } => {
            let times = count.get();
            let repeated = items.as_slice();
            plain_operand(replication(alloc, names, typed, *opening, times, repeated, known))
        }
        Expr::Concatenation { opening, items, .. } => {
            let parts = items.as_slice();
            plain_operand(concatenation(alloc, names, typed, *opening, parts, known))
        }
        Expr::Stream {
            opening,
            operator,
            size,
            items,
            ..
        } => {
            let streamed = items.as_slice();
            as_stream(stream(
                alloc, names, typed, *opening, *operator, size, streamed, known,
            ))
        }
        Expr::Pattern {
            tick,
            pattern: of,
            ..
        } => {
            let given = of.get();
            pattern(alloc, names, typed, *tick, given, known)
        }
        Expr::Type { of, packed, cast } => {
            let packed = packed.as_slice();
            word(alloc, names, typed, *of, packed, cast, known)
        }
        Expr::SigningCast { signing, cast } => {
            let signed = cast.get();
            plain_operand(by_sign(alloc, names, typed, *signing, signed, known))
        }
        Expr::SystemCall {
            name: of,
            argument,
            ..
        } => {
            let argument = argument.get();
            plain_operand(system_call(alloc, names, typed, *of, argument, known))
        }
        Expr::Call {
            of,
            arguments,
            cast,
            ..
        } => {
            let arguments = arguments.as_slice();
            called(alloc, names, needs, typed, *of, arguments, cast, known)
        }
        Expr::Name { of, selects, cast } => {
            let selects = selects.as_slice();
            name(alloc, names, typed, *of, selects, cast, known)
        }
    }
}
