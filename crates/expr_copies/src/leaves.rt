//! Copies of values and spots.

ghost use Rattle.std.specs.Prelude.{◌≡◌, IfOk};

use b4_core::Vec4;
use std::alloc::{AllocError, Global};
use sv_source::Spot;
use sv_types::{Value, Values};

/// A copy of a vector.
pub fn copy_bits(alloc: Global, bits: &Vec4) -> Result<Vec4, AllocError>
    ensures { IfOk result (λ c. c ≡ bits.now) }
{
    Vec4::from_slice(alloc, bits.as_slice())
}

/// A copy of a spot.
pub fn copy_spot(alloc: Global, spot: &Spot) -> Result<Spot, AllocError>
    ensures { IfOk result (λ c. c ≡ spot.now) }
{
    Ok(Spot {
        at: spot.at,
        place: spot.place,
        word: spot.word.copy(alloc)?,
    })
}

#[cycle(copy)]
fn copy_values(alloc: Global, values: &[Value]) -> Result<Values, AllocError>
    ensures { IfOk result (λ c. c ≡ values.now) }
{
    let mut made = Values::new(alloc);
    for value in values {
        made.push(copy_value(alloc, value)?)?;
    }
    Ok(made)
}

/// A copy of a value.
#[cycle(copy)]
pub fn copy_value(alloc: Global, value: &Value) -> Result<Value, AllocError>
    ensures { IfOk result (λ c. c ≡ value.now) }
{
    match value {
        Value::Bits(bits) => Ok(Value::Bits(copy_bits(alloc, bits)?)),
        Value::Items(items) => Ok(Value::Items(copy_values(alloc, items.as_slice())?)),
    }
}
