//! Functions of one assignment, and their inputs (IEEE 1364-2005 clause 10.4).

ghost use Rattle.std.specs.Prelude.{◌≡◌, ◌<◌, [], ◌∷◌, IfOk, false};
ghost use Rattle.v_meaning.specs.Values.{meaning};
ghost use Rattle.v_meaning.specs.Statements.{doing, assignment, name_target};
ghost use Rattle.two_state.specs.Kinds.{Gives, input_of, vector, other};

use crate::values::{OTHER, VECTOR};
use pairs::both;
use std::alloc::{AllocError, Global};
use sv_source::{Items, Text};
use v_tree::{VExpr, VFunction, VLocal, VLocals, VLval, VStmt};

/// An input of so many bits. It has a range also where it has one bit, so that it has selects.
fn input(alloc: Global, name: &[u8], width: u32) -> Result<VLocal, AllocError>
    requires { 0 < width }
    ensures { IfOk result (λ l. l ≡ input_of name.now width) }
{
    let name = Text::from_bytes(alloc, name)?;
    Ok(VLocal {
        range: Some(width - 1),
        name,
    })
}

/// The input of a helper with one argument.
pub fn one_input(alloc: Global, width: u32) -> Result<VLocals, AllocError>
    requires { 0 < width }
    ensures { IfOk result (λ ls. ls ≡ input_of vector width ∷ []) }
{
    let mut inputs: VLocals = Items::from_vec(Vec::new(alloc));
    inputs.push(input(alloc, VECTOR, width)?)?;
    Ok(inputs)
}

/// The inputs of a helper with two arguments.
pub fn two_inputs(alloc: Global, width: u32, second: u32) -> Result<VLocals, AllocError>
    requires some { 0 < width }
    requires second { 0 < second }
    ensures { IfOk result (λ ls. ls ≡ input_of vector width ∷ input_of other second ∷ []) }
{
    let mut inputs = one_input(alloc, width)?;
    inputs.push(input(alloc, OTHER, second)?)?;
    Ok(inputs)
}

/// `name = value`
fn assign(alloc: Global, name: Text, value: VExpr) -> VStmt
    ensures { doing result ≡ assignment false (name_target name []) (meaning value) }
{
    VStmt::Assign {
        target: VLval::Name {
            name,
            sels: Items::from_vec(Vec::new(alloc)),
        },
        value,
        later: false,
    }
}

/// A function with these inputs and a result of so many bits, which is a value.
pub fn function(
    alloc: Global,
    name: Text,
    width: u32,
    inputs: VLocals,
    value: VExpr,
) -> Result<VFunction, AllocError>
    requires { 0 < width }
    ensures { IfOk result (λ f. Gives f name width inputs (meaning value)) }
{
    let copy = name.copy(alloc);
    let (result, parts) = both(copy, Ok((name, inputs, value)))?;
    let (name, inputs, value) = parts;
    Ok(VFunction {
        range: Some(width - 1),
        name: result,
        inputs,
        locals: Items::from_vec(Vec::new(alloc)),
        body: assign(alloc, name, value),
    })
}
