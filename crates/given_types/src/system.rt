//! System functions (IEEE 1800-2017 clauses 20.6.2 and 20.8.1).

ghost use Rattle.std.specs.Prelude.{◌≡◌, ◌≤◌, IfOk};
ghost use Rattle.expr_type.specs.Answers.{source};
ghost use Rattle.expr_type.specs.Forms as form;
ghost use Rattle.expr_type.specs.Operators as operator;
ghost use Rattle.expr_type.specs.Shapes as shape;
ghost use Rattle.sv_types.specs.declared.expression.Form.TheVariants as F;
ghost use Rattle.operand_types.specs.Allowed.{IsNarrow};
ghost use Rattle.sv_types.specs.Layouts.{width_of};

use expr_type::{Source, Valued};
use operand_types::{by_itself, vector};
use std::alloc::{AllocError, Global};
use sv_source::Boxed;
use sv_types::{Form, SvType, of_bits};

// The type `integer`.
fn integer(alloc: Global) -> Result<SvType, AllocError>
    ensures value { IfOk result (λ t. t ≡ shape.integer) }
    ensures narrow { IfOk result (λ t. width_of t ≤ 4194304) }
{
    vector(alloc, 32, true)
}

/// `$clog2` of a value that has bits.
pub fn clog2_of(alloc: Global, text: Source<'_>, name: u32, v: Valued) -> Result<Valued, AllocError>
    ensures value { IfOk result (λ r. r ≡ operator.by_itself (source text.entry) name shape.integer (F.Clog2 v.expr)) }
    ensures narrow { IfOk result IsNarrow }
{
    let inner = Boxed::new(alloc, v.expr)?;
    let of = integer(alloc)?;
    by_itself(alloc, text, name, of, Form::Clog2(inner))
}
