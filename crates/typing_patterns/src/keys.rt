//! What stands before the items of patterns.

ghost use Rattle.std.specs.Prelude.{◌≡◌, IfOk};
ghost use Rattle.typing_fits.specs.Operands.{SoundContext};
ghost use Rattle.typing_fits.specs.Sound.{Extends};
ghost use Rattle.typing_parts.specs.Typists.{CanType, IsReady};
ghost use Rattle.typing_patterns.specs.Keyed.{NamesConstant, NameStandsFor, alone, key_by, key_number_of, unselected};
ghost use Rattle.typing_steps.specs.Steps.{TypesTo};

use expr_type::Halt;
use pattern_types::{NameKey, Operand};
use std::alloc::Global;
use sv_tree::{Expr, QualifiedName, Select};
use typing_parts::{Known, Names, Thing};
use typing_values::{constant, key_number as number_of_constant, named};

// A name with nothing selected behind it and no package before it.
fn unselected(of: QualifiedName, selects: &[Select]) -> Option<QualifiedName>
    ensures { result ≡ unselected of selects.now }
{
    match selects {
        [] => { if of.scope.is_none() { Some(of) } else { None } }
        [_, ..] => None,
    }
}

/// The name that an expression is, if it is a name alone.
pub fn name_alone(e: &Expr) -> Option<QualifiedName>
    ensures { result ≡ alone e.now }
{
    match e {
        Expr::Name {
            of,
            selects,
            cast: None,
        } => unselected(*of, selects.as_slice()),
        Expr::Name { cast: Some(_), .. } => None,
        Expr::Conditional { .. } => None,
        Expr::Binary { .. } => None,
        Expr::Inside { .. } => None,
        Expr::Unary { .. } => None,
        Expr::Decimal { .. } => None,
        Expr::Sized { .. } => None,
        Expr::SizeCast { .. } => None,
        Expr::Based { .. } => None,
        Expr::Fill { .. } => None,
        Expr::Parenthesized { cast: None, .. } => None,
        Expr::Parenthesized { cast: Some(_), .. } => None,
        Expr::Replication { .. } => None,
        Expr::Concatenation { .. } => None,
        Expr::Stream { .. } => None,
        Expr::Pattern { .. } => None,
        Expr::Type { cast: None, .. } => None,
        Expr::Type { cast: Some(_), .. } => None,
        Expr::SigningCast { .. } => None,
        Expr::SystemCall { .. } => None,
        Expr::Call { cast: None, .. } => None,
        Expr::Call { cast: Some(_), .. } => None,
    }
}

// A constant as a key, by its number or by the rule that it breaks as an index.
fn key_by(n: Result<Option<i128>, Halt>) -> Result<NameKey, Halt>
    ensures { result ≡ key_by n }
{
    match n {
        Ok(n) => Ok(NameKey::Number(n)),
        Err(Halt::Memory) => Err(Halt::Memory),
        Err(Halt::Breaks { at, rule }) => Ok(NameKey::Breaks { at, rule }),
        Err(Halt::Quiet) => Ok(NameKey::Quiet),
    }
}

// The constant that a name stands for, as a key.
#[tactic(auto, using(crate::proofs::Putting::constants))]
fn constant_key<S: Names>(
    alloc: Global,
    names: &S,
    of: QualifiedName,
    known: &Known,
) -> Result<NameKey, Halt>
    requires names { SoundContext (S.context names.now) }
    requires constant { NamesConstant (S.context names.now) of }
    requires ready { IsReady known.now }
    ensures { NameStandsFor (S.context names.now) of result }
{
    let v = named(alloc, names, of)?;
    let marks = known.marks.as_slice();
    key_by(number_of_constant(alloc, names.text(), &v, &known.functions, marks))
}

/// What a name before an item stands for where the type has no members: a constant index, which breaks E507 or E508 where it is none,
/// or something that breaks E404 or E406 there. Or want of memory.
#[tactic(auto, using(crate::proofs::Putting::things))]
pub fn name_key<S: Names>(
    alloc: Global,
    names: &S,
    of: QualifiedName,
    known: &Known,
) -> Result<NameKey, Halt>
    requires names { SoundContext (S.context names.now) }
    requires ready { IsReady known.now }
    ensures { NameStandsFor (S.context names.now) of result }
{
    let at = of.first_token();
    match names.thing(of) {
        Thing::Constant(_, _) => constant_key(alloc, names, of, known),
        Thing::Signal(_, _) => Ok(NameKey::Breaks { at, rule: 406 }),
        Thing::Local(_, _) => Ok(NameKey::Breaks { at, rule: 406 }),
        Thing::TypeName(_) => Ok(NameKey::Breaks { at, rule: 404 }),
        Thing::Interface(_) => Ok(NameKey::Breaks { at, rule: 404 }),
        Thing::Other(n) => match names.key_rule(n) {
            None => Ok(NameKey::Quiet),
            Some(rule) => Ok(NameKey::Breaks { at, rule }),
        },
        Thing::Nothing => Ok(NameKey::Nothing),
    }
}

/// The number of a key that is no name alone, which is a constant index, or none where a bit of it is x or z.
#[tactic(auto, using(crate::proofs::Putting::numbers))]
pub fn key_number<S: Names, F: Fn(&Expr, &mut Known) -> Result<Operand, Halt>>(
    alloc: Global,
    names: &S,
    typed: &F,
    e: &Expr,
    known: &mut Known,
) -> Result<Option<i128>, Halt>
    requires can { CanType _ _ (λ e. e.now) (λ k. k.now) (F.pre typed.now) (F.post typed.now) (S.context names.now) e.now }
    requires ready { IsReady known.old }
    ensures value { TypesTo result (key_number_of (S.context names.now) e.now known.old.functions) known.new.functions }
    ensures ready { IsReady known.new }
    ensures keeps { Extends known.old.functions known.new.functions }
{
    let v = constant(alloc, names, typed, e, known)?;
    number_of_constant(
        alloc,
        names.text(),
        &v,
        &known.functions,
        known.marks.as_slice(),
    )
}
