//! Names by themselves, as values.

ghost use Rattle.std.specs.Prelude.{◌≡◌, IfOk, Ok};
ghost use Rattle.operand_types.specs.Allowed.{IsNarrow};
ghost use Rattle.expr_type.specs.Answers.{Gives};
ghost use Rattle.expr_type.specs.Operators as operator;
ghost use Rattle.typing_fits.specs.Operands.{SoundContext};
ghost use Rattle.typing_values.specs.Leaves.{as_thing, leaf_of, named_alone};
ghost use Rattle.typing_values.specs.Numbers.{CanBeValued};

use constant_types::copy_type;
use expr_type::{Halt, Valued};
use operand_types::by_itself;
use std::alloc::Global;
use sv_tree::QualifiedName;
use sv_types::{Form, SvType};
use typing_parts::{Names, Thing, copy_value};

/// A name alone at its first token.
pub fn leaf<S: Names>(
    alloc: Global,
    names: &S,
    first: u32,
    of: &SvType,
    form: Form,
) -> Result<Valued, Halt>
    ensures value { Gives result (Ok (operator.by_itself (S.context names.now).source first of.now form)) }
    ensures of { IfOk result (λ v. v.expr.of ≡ of.now) }
{
    let of = copy_type(alloc, of)?;
    Ok(by_itself(alloc, names.text(), first, of, form)?)
}

// What a thing is as a value at a name's first token.
fn leaf_of<S: Names>(alloc: Global, names: &S, first: u32, thing: Thing<'_>) -> Result<Valued, Halt>
    ensures { Gives result (leaf_of (S.context names.now).source first (as_thing thing.entry)) }
{
    match thing {
        Thing::Signal(n, t) => leaf(alloc, names, first, t, Form::Signal(n)),
        Thing::Local(n, t) => leaf(alloc, names, first, t, Form::Local(n)),
        Thing::Constant(t, v) => {
            let value = copy_value(alloc, v)?;
            leaf(alloc, names, first, t, Form::Constant(value))
        }
        Thing::TypeName(_) => Err(Halt::Quiet),
        Thing::Interface(_) => Err(Halt::Quiet),
        Thing::Other(_) => Err(Halt::Quiet),
        Thing::Nothing => Err(Halt::Quiet),
    }
}

/// What a name without selects stands for, as a value. What is none breaks nothing here.
#[tactic(auto, using(crate::proofs::Putting::names))]
pub fn named<S: Names>(alloc: Global, names: &S, of: QualifiedName) -> Result<Valued, Halt>
    requires names { SoundContext (S.context names.now) }
    ensures value { Gives result (named_alone (S.context names.now) of) }
    ensures narrow { IfOk result IsNarrow }
    ensures fits { IfOk result (λ v. (fs : _) → CanBeValued fs v) }
{
    leaf_of(alloc, names, of.first_token(), names.thing(of))
}
