//! What the rows of texts, modules and items mean by what their parts mean (IEEE 1364-2005 A.1, A.2, A.4).
#![tactic(auto, using(crate::proofs::KeptItems::kept))]

ghost use Rattle.std.specs.Prelude.{◌≡◌, IfOk};
ghost use Rattle.v_parts.specs.Taking.{others};
ghost use Rattle.v_tree.specs.Meaning as means;
ghost use Rattle.v_tree.specs.Parts.{all_of, as_input, as_local};
ghost use Rattle.v_tree.specs.declared.items.VSignal.TheVariants.{Input, Output, Wire};

use std::alloc::{AllocError, Global};
use sv_source::Items;
use v_parts::{all, first, kinds, split};
use v_tree::{
    VFunction, VInit, VInitial, VInstance, VItem, VLocal, VLocals, VModule, VPart, VParts,
    VProcess, VRegRest, VSignal,
};

/// A whole text, or want of memory.
pub fn text(alloc: Global, parts: VParts) -> Result<VPart, AllocError>
    ensures { IfOk result (λ part. part ≡ means.text_of parts) }
{
    let modules = all::<kinds::Module>(alloc, parts)?;
    Ok(VPart::Text(modules))
}

/// A module, or want of memory.
pub fn module(alloc: Global, mut parts: VParts) -> Result<VPart, AllocError>
    ensures { IfOk result (λ part. part ≡ means.module_of parts) }
{
    let Some(name) = first::<kinds::Name>(&mut parts) else {
        return Ok(VPart::Nothing);
    };
    let ports = match first::<kinds::Ports>(&mut parts) {
        Some(ports) => ports,
        None => Items::new(alloc),
    };
    let items = all::<kinds::Item>(alloc, parts)?;
    Ok(VPart::Module(VModule { name, ports, items }))
}

/// The names of a port list, or want of memory.
pub fn ports(alloc: Global, parts: VParts) -> Result<VPart, AllocError>
    ensures { IfOk result (λ part. part ≡ means.ports_of parts) }
{
    let names = all::<kinds::Name>(alloc, parts)?;
    Ok(VPart::Ports(names))
}

/// `input [left:0] name;`
pub fn input(mut parts: VParts) -> VPart
    ensures { result ≡ means.signal_of Input parts }
{
    let Some(name) = first::<kinds::Name>(&mut parts) else {
        return VPart::Nothing;
    };
    let range = first::<kinds::Range>(&mut parts);
    VPart::Item(VItem::Signal(VSignal::Input { range, name }))
}

/// `output [left:0] name;`
pub fn output(mut parts: VParts) -> VPart
    ensures { result ≡ means.signal_of Output parts }
{
    let Some(name) = first::<kinds::Name>(&mut parts) else {
        return VPart::Nothing;
    };
    let range = first::<kinds::Range>(&mut parts);
    VPart::Item(VItem::Signal(VSignal::Output { range, name }))
}

/// `wire [left:0] name;`
pub fn wire(mut parts: VParts) -> VPart
    ensures { result ≡ means.signal_of Wire parts }
{
    let Some(name) = first::<kinds::Name>(&mut parts) else {
        return VPart::Nothing;
    };
    let range = first::<kinds::Range>(&mut parts);
    VPart::Item(VItem::Signal(VSignal::Wire { range, name }))
}

/// `output reg [left:0] name = initial;`
pub fn output_reg(mut parts: VParts) -> VPart
    ensures { result ≡ means.output_reg_of parts }
{
    let Some(name) = first::<kinds::Name>(&mut parts) else {
        return VPart::Nothing;
    };
    let range = first::<kinds::Range>(&mut parts);
    let initial = first::<kinds::Initial>(&mut parts);
    VPart::Item(VItem::Signal(VSignal::OutputReg {
        range,
        name,
        initial,
    }))
}

/// `reg [left:0] name rest;`
pub fn reg(mut parts: VParts) -> VPart
    ensures { result ≡ means.reg_of parts }
{
    let Some(name) = first::<kinds::Name>(&mut parts) else {
        return VPart::Nothing;
    };
    let range = first::<kinds::Range>(&mut parts);
    let rest = first::<kinds::RegRest>(&mut parts);
    VPart::Item(VItem::Signal(VSignal::Reg { range, name, rest }))
}

/// The range of a memory.
pub fn memory(mut parts: VParts) -> VPart
    ensures { result ≡ means.memory_of parts }
{
    match first::<kinds::Range>(&mut parts) {
        Some(left) => VPart::RegRest(VRegRest::Memory(left)),
        None => VPart::Nothing,
    }
}

/// The declared initial value of a `reg`.
pub fn reg_value(mut parts: VParts) -> VPart
    ensures { result ≡ means.reg_value_of parts }
{
    match first::<kinds::Initial>(&mut parts) {
        Some(value) => VPart::RegRest(VRegRest::Initial(value)),
        None => VPart::Nothing,
    }
}

/// A number as an initial value.
pub fn value(mut parts: VParts) -> VPart
    ensures { result ≡ means.value_of parts }
{
    match first::<kinds::Number>(&mut parts) {
        Some(bits) => VPart::Initial(VInit::Number(bits)),
        None => VPart::Nothing,
    }
}

/// Numbers in braces as an initial value, or want of memory.
pub fn pieces(alloc: Global, parts: VParts) -> Result<VPart, AllocError>
    ensures { IfOk result (λ part. part ≡ means.pieces_of parts) }
{
    let numbers = all::<kinds::Number>(alloc, parts)?;
    Ok(VPart::Initial(VInit::Concat(numbers)))
}

/// The left bound of a range.
pub fn range(mut parts: VParts) -> VPart
    ensures { result ≡ means.range_of parts }
{
    match first::<kinds::Decimal>(&mut parts) {
        Some(left) => VPart::Range(left),
        None => VPart::Nothing,
    }
}

/// `initial name <= value;`
pub fn initial(mut parts: VParts) -> VPart
    ensures { result ≡ means.initial_of parts }
{
    let Some(name) = first::<kinds::Name>(&mut parts) else {
        return VPart::Nothing;
    };
    let Some(value) = first::<kinds::Number>(&mut parts) else {
        return VPart::Nothing;
    };
    VPart::Item(VItem::Initial(VInitial { name, value }))
}

/// `assign target = value;`
pub fn assign(mut parts: VParts) -> VPart
    ensures { result ≡ means.assign_of parts }
{
    let Some(target) = first::<kinds::Lval>(&mut parts) else {
        return VPart::Nothing;
    };
    let Some(value) = first::<kinds::Expr>(&mut parts) else {
        return VPart::Nothing;
    };
    VPart::Item(VItem::Process(VProcess::Assign { target, value }))
}

/// `always @.. body`
pub fn always(mut parts: VParts) -> VPart
    ensures { result ≡ means.always_of parts }
{
    let Some(on) = first::<kinds::Event>(&mut parts) else {
        return VPart::Nothing;
    };
    let Some(body) = first::<kinds::Branch>(&mut parts) else {
        return VPart::Nothing;
    };
    VPart::Item(VItem::Process(VProcess::Always { on, body }))
}

/// The inputs of a function and its variables, or want of memory.
fn declarations(alloc: Global, parts: VParts) -> Result<(VLocals, VLocals), AllocError>
    ensures inputs { IfOk result (λ found. found.0 ≡ all_of as_input parts) }
    ensures locals { IfOk result (λ found. found.1 ≡ all_of as_local (others as_input parts)) }
{
    let (inputs, parts) = split::<kinds::Input>(alloc, parts)?;
    let locals = all::<kinds::Local>(alloc, parts)?;
    Ok((inputs, locals))
}

/// A function, or want of memory.
pub fn function(alloc: Global, mut parts: VParts) -> Result<VPart, AllocError>
    ensures { IfOk result (λ part. part ≡ means.function_of parts) }
{
    let Some(name) = first::<kinds::Name>(&mut parts) else {
        return Ok(VPart::Nothing);
    };
    let Some(body) = first::<kinds::Stmt>(&mut parts) else {
        return Ok(VPart::Nothing);
    };
    let range = first::<kinds::Range>(&mut parts);
    let (inputs, locals) = declarations(alloc, parts)?;
    Ok(VPart::Item(VItem::Function(VFunction {
        range,
        name,
        inputs,
        locals,
        body,
    })))
}

/// An instance of a module; the module's name stands first.
pub fn instance(alloc: Global, mut parts: VParts) -> VPart
    ensures { result ≡ means.instance_of parts }
{
    let Some(of) = first::<kinds::Name>(&mut parts) else {
        return VPart::Nothing;
    };
    let Some(name) = first::<kinds::Name>(&mut parts) else {
        return VPart::Nothing;
    };
    let connections = match first::<kinds::Connections>(&mut parts) {
        Some(connections) => connections,
        None => Items::new(alloc),
    };
    VPart::Item(VItem::Instance(VInstance {
        of,
        name,
        connections,
    }))
}

/// An input of a function.
pub fn function_input(mut parts: VParts) -> VPart
    ensures { result ≡ means.input_of parts }
{
    let Some(name) = first::<kinds::Name>(&mut parts) else {
        return VPart::Nothing;
    };
    let range = first::<kinds::Range>(&mut parts);
    VPart::Input(VLocal { range, name })
}

/// A variable of a function or a block.
pub fn local(mut parts: VParts) -> VPart
    ensures { result ≡ means.local_of parts }
{
    let Some(name) = first::<kinds::Name>(&mut parts) else {
        return VPart::Nothing;
    };
    let range = first::<kinds::Range>(&mut parts);
    VPart::Local(VLocal { range, name })
}
