//! Values as vectors, and vectors as values (IEEE 1800-2017 clauses 6.3, 6.8, 7.2 and 7.4).

ghost use Rattle.std.specs.Prelude.{cond, false, ◌↔◌, IsTrue, ◌≡◌, ◌≤◌, ◌<◌, ◌++◌, ◌*◌, min, length, map, drop, take, IfOk, OnOk};
ghost use Rattle.std.specs.List.{list_all};
ghost use Rattle.sv_types.specs.Layouts.{width_of, layout, count_of, stacked, stacked_marks, widest_marks, struct_marks, union_marks, member_layout, repeated, as_a_whole, stored, stored_bit, default_bits};
ghost use Rattle.sv_types.specs.Values.{bits, shape, member_shape, total, most, cut, cut_evenly, value_of_bits, default};
ghost use Rattle.sv_types.specs.declared.types.Value.{Value};

use crate::types::{Member, SvType, Value, Values};
use b4_core::{Bit4, Vec4};
use std::alloc::{AllocError, Global};

// How many elements there are between two bounds, both included.
fn count_between(left: i64, right: i64) -> u128
    ensures value { result ≡ count_of left right }
    ensures range { result ≤ 18446744073709551616 }
{
    (left as i128 - right as i128).unsigned_abs() + 1
}

/// The largest number of bits that a type may have: 2^22.
pub const MOST_BITS: u32 = 4194304;

// One more than that stands for every larger number.
const TOO_MANY: u128 = 4194305;

/// Whether a type has at most 2^22 bits, as the other calls here ask of it. It takes no memory.
pub fn is_narrow(t: &SvType) -> bool
    ensures { IsTrue result ↔ (width_of t.now ≤ 4194304) }
{
    capped_width(t) <= MOST_BITS
}

/// How many bits a type has, which are at most 2^22. It takes no memory.
pub fn width(t: &SvType) -> u32
    requires { width_of t.now ≤ 4194304 }
    ensures bits { result ≡ width_of t.now }
    ensures shape { result ≡ (shape t.now).width }
{
    capped_width(t)
}

// The bits of a type, or 2^22 + 1 where there are more.
#[cycle(width)]
#[tactic(auto, using(crate::proofs::Lengths::widths))]
fn capped_width(t: &SvType) -> u32
    ensures bits { result ≡ min (width_of t.now) 4194305 }
    ensures shape { result ≡ min (shape t.now).width 4194305 }
{
    match t {
        SvType::Scalar { .. } => 1,
        SvType::PackedArray {
            left,
            right,
            item,
            ..
        } => array_width(*left, *right, item.get()),
        SvType::Struct { members, .. } => total_width(members.as_slice()),
        SvType::Union { members, .. } => greatest_width(members.as_slice()),
        SvType::Enum { base, .. } => capped_width(base.get()),
        SvType::UnpackedArray { left, right, item } => array_width(*left, *right, item.get()),
    }
}

// The bits of all elements of an array.
#[cycle(width)]
#[tactic(auto, using(crate::proofs::Lengths::capped_product))]
fn array_width(left: i64, right: i64, item: &SvType) -> u32
    ensures bits { result ≡ min (count_of left right * width_of item.now) 4194305 }
    ensures shape { result ≡ min (count_of left right * (shape item.now).width) 4194305 }
{
    let count = count_between(left, right);
    (count * u128::from(capped_width(item))).min(TOO_MANY) as u32
}

// The bits of all members together.
#[cycle(width)]
fn total_width(members: &[Member]) -> u32
    ensures bits { result ≡ min (length (stacked_marks (map member_layout members.now))) 4194305 }
    ensures shape { result ≡ min (total (map member_shape members.now)) 4194305 }
{
    let mut sum: u32 = 0;
    for member in members {
        sum = (sum + capped_width(&member.of)).min(MOST_BITS + 1);
    }
    sum
}

// The bits of the widest member.
#[cycle(width)]
fn greatest_width(members: &[Member]) -> u32
    ensures bits { result ≡ min (length (widest_marks (map member_layout members.now))) 4194305 }
    ensures shape { result ≡ min (most (map member_shape members.now)) 4194305 }
{
    let mut greatest: u32 = 0;
    for member in members {
        greatest = capped_width(&member.of).max(greatest);
    }
    greatest
}

// The value of a type that has these bits.
#[cycle(value)]
fn cut_value(alloc: Global, t: &SvType, v: &[Bit4]) -> Result<Value, AllocError>
    requires same { length v.now ≡ (shape t.now).width }
    requires narrow { length v.now ≤ 4194304 }
    ensures value { IfOk result (λ r. r ≡ (shape t.now).value v.now) }
    ensures back { IfOk result (λ r. bits r ≡ v.now) }
{
    match t {
        SvType::Scalar { .. } => Ok(Value::Bits(Vec4::from_slice(alloc, v)?)),
        SvType::PackedArray {
            left,
            right,
            item,
            ..
        } => cut_array(alloc, count_between(*left, *right), item.get(), v),
        SvType::Struct { members, .. } => cut_struct(alloc, members.as_slice(), v),
        SvType::Union { .. } => Ok(Value::Bits(Vec4::from_slice(alloc, v)?)),
        SvType::Enum { .. } => Ok(Value::Bits(Vec4::from_slice(alloc, v)?)),
        SvType::UnpackedArray { left, right, item } => {
            cut_array(alloc, count_between(*left, *right), item.get(), v)
        }
    }
}

// The value of an array of so many elements, the leftmost one on top.
#[cycle(value)]
#[tactic(auto, using(crate::proofs::Cuts::cuts))]
fn cut_array(alloc: Global, count: u128, item: &SvType, v: &[Bit4]) -> Result<Value, AllocError>
    requires some { 0 < count }
    requires same { length v.now ≡ count * (shape item.now).width }
    requires narrow { length v.now ≤ 4194304 }
    ensures value { IfOk result (λ r. r ≡ Value.Items (cut_evenly count (shape item.now) v.now)) }
    ensures back { IfOk result (λ r. bits r ≡ v.now) }
{
    let width = (v.len() as u128 / count) as usize;
    let mut items = Vec::new(alloc);
    let mut rest = v;
    for _i in 0..count {
        let (below, top) = rest.split_at(rest.len() - width);
        items.push(cut_value(alloc, item, top)?)?;
        rest = below;
    }
    Ok(Value::Items(Values::from_vec(items)))
}

// The value of a struct, the first member on top.
#[cycle(value)]
#[tactic(auto, using(crate::proofs::Cuts::cuts))]
fn cut_struct(alloc: Global, members: &[Member], v: &[Bit4]) -> Result<Value, AllocError>
    requires same { length v.now ≡ total (map member_shape members.now) }
    requires narrow { length v.now ≤ 4194304 }
    ensures value { IfOk result (λ r. r ≡ Value.Items (cut (map member_shape members.now) v.now)) }
    ensures back { IfOk result (λ r. bits r ≡ v.now) }
{
    let mut items = Vec::new(alloc);
    let mut rest = v;
    for member in members {
        let (below, top) = rest.split_at(rest.len() - capped_width(&member.of) as usize);
        items.push(cut_value(alloc, &member.of, top)?)?;
        rest = below;
    }
    Ok(Value::Items(Values::from_vec(items)))
}

// Adds, for each bit of a type, whether it is two-state.
#[cycle(marks)]
#[tactic(auto, using(crate::proofs::Marks::marking))]
fn push_marks(alloc: Global, t: &SvType, to: &mut Vec<bool>) -> Result<(), AllocError>
    ensures { OnOk result (to.new.items ≡ to.old.items ++ (layout t.now).two_state) }
{
    match t {
        SvType::Scalar { four, .. } => {
            to.push(!*four)?;
            Ok(())
        }
        SvType::PackedArray {
            left,
            right,
            item,
            ..
        } => push_repeated(alloc, count_between(*left, *right), item.get(), to),
        SvType::Struct {
            packed,
            members,
            ..
        } => push_struct(alloc, *packed, members.as_slice(), to),
        SvType::Union { members, .. } => push_union(alloc, members.as_slice(), to),
        SvType::Enum { base, .. } => push_marks(alloc, base.get(), to),
        SvType::UnpackedArray { left, right, item } => {
            push_repeated(alloc, count_between(*left, *right), item.get(), to)
        }
    }
}

// Adds the marks of so many elements.
#[cycle(marks)]
#[tactic(auto, using(crate::proofs::Marks::marking))]
fn push_repeated(
    alloc: Global,
    count: u128,
    item: &SvType,
    to: &mut Vec<bool>,
) -> Result<(), AllocError>
    ensures { OnOk result (to.new.items ≡ to.old.items ++ repeated count (layout item.now).two_state) }
{
    for _i in 0..count {
        push_marks(alloc, item, to)?;
    }
    Ok(())
}

// The marks of all members, the last one lowest.
#[cycle(marks)]
#[tactic(auto, using(crate::proofs::Marks::marking))]
fn member_marks(alloc: Global, members: &[Member]) -> Result<Vec<bool>, AllocError>
    ensures { IfOk result (λ r. r.items ≡ stacked_marks (map member_layout members.now)) }
{
    let mut marks = Vec::new(alloc);
    let mut i = members.len();
    while i > 0 {
        i -= 1;
        push_marks(alloc, &members[i].of, &mut marks)?;
    }
    Ok(marks)
}

// The marks of the widest member.
#[cycle(marks)]
#[tactic(auto, using(crate::proofs::Marks::marking))]
fn widest_member(alloc: Global, members: &[Member]) -> Result<Vec<bool>, AllocError>
    ensures { IfOk result (λ r. r.items ≡ widest_marks (map member_layout members.now)) }
{
    let mut widest: Vec<bool> = Vec::new(alloc);
    let mut i = members.len();
    while i > 0 {
        i -= 1;
        let mut marks = Vec::new(alloc);
        push_marks(alloc, &members[i].of, &mut marks)?;
        if widest.len() <= marks.len() {
            widest = marks;
        }
    }
    Ok(widest)
}

// Whether all of these bits are two-state.
fn is_two_state(marks: &[bool]) -> bool
    ensures { result ≡ list_all (λ b. b) marks.now }
{
    marks.iter().all(|two| *two)
}

// Adds these marks where all is two-state, else as many that aren't.
#[tactic(auto, using(crate::proofs::Marks::kept))]
fn push_if(all: bool, marks: Vec<bool>, to: &mut Vec<bool>) -> Result<(), AllocError>
    ensures { OnOk result (to.new.items ≡ to.old.items ++ cond all marks.items (map (λ b. false) marks.items)) }
{
    for two in marks.iter() {
        to.push(*two && all)?;
    }
    Ok(())
}

// Adds the marks of a struct.
#[cycle(marks)]
#[tactic(auto, unfolding(crate::specs::Layouts::as_a_whole))]
fn push_struct(
    alloc: Global,
    packed: bool,
    members: &[Member],
    to: &mut Vec<bool>,
) -> Result<(), AllocError>
    ensures { OnOk result (to.new.items ≡ to.old.items ++ struct_marks packed (map member_layout members.now)) }
{
    let mut marks = member_marks(alloc, members)?;
    if packed {
        let all = is_two_state(&marks);
        push_if(all, marks, to)
    } else {
        to.append(&mut marks)
    }
}

// Adds the marks of a union.
#[cycle(marks)]
fn push_union(alloc: Global, members: &[Member], to: &mut Vec<bool>) -> Result<(), AllocError>
    ensures { OnOk result (to.new.items ≡ to.old.items ++ union_marks (map member_layout members.now)) }
{
    let marks = member_marks(alloc, members)?;
    push_if(is_two_state(&marks), widest_member(alloc, members)?, to)
}

// For each bit of a type, whether it is two-state.
fn marks_of(alloc: Global, t: &SvType) -> Result<Vec<bool>, AllocError>
    requires { width_of t.now ≤ 4194304 }
    ensures marks { IfOk result (λ r. r.items ≡ (layout t.now).two_state) }
    ensures shape { (shape t.now).width ≡ width_of t.now }
{
    let mut marks = Vec::with_capacity(alloc, width(t) as usize)?;
    push_marks(alloc, t, &mut marks)?;
    Ok(marks)
}

// A bit as it is stored.
fn stored_one(two_state: bool, b: Bit4) -> Bit4
    ensures { result ≡ stored_bit two_state b }
{
    match (two_state, b) {
        (true, Bit4::X) | (true, Bit4::Z) => Bit4::Zero,
        _ => b,
    }
}

// A vector as it is stored.
fn stored_bits(alloc: Global, marks: &[bool], v: &[Bit4]) -> Result<Vec<Bit4>, AllocError>
    ensures { IfOk result (λ r. r.items ≡ stored marks.now v.now) }
{
    marks
        .iter()
        .zip(v)
        .map(|(two, b)| stored_one(*two, *b))
        .collect(alloc)
}

// The bits of the default of a type.
fn bits_of_default(alloc: Global, marks: &[bool]) -> Result<Vec<Bit4>, AllocError>
    ensures { IfOk result (λ r. r.items ≡ default_bits marks.now) }
{
    marks
        .iter()
        .map(|two| stored_one(*two, Bit4::X))
        .collect(alloc)
}

// Adds the bits of a value.
#[cycle(bits)]
fn push_bits(v: &Value, to: &mut Vec<Bit4>) -> Result<(), AllocError>
    ensures { OnOk result (to.new.items ≡ to.old.items ++ bits v.now) }
{
    match v {
        Value::Bits(b) => to.extend_from_slice(b.as_slice()),
        Value::Items(items) => push_items(items.as_slice(), to),
    }
}

// Adds the bits of all of them, the last one lowest.
#[cycle(bits)]
fn push_items(items: &[Value], to: &mut Vec<Bit4>) -> Result<(), AllocError>
    ensures { OnOk result (to.new.items ≡ to.old.items ++ stacked (map bits items.now)) }
{
    let mut i = items.len();
    while i > 0 {
        i -= 1;
        push_bits(&items[i], to)?;
    }
    Ok(())
}

/// The bits of a value of the type `t`, the first member or the leftmost element most significant (IEEE 1800-2017 clauses
/// 7.2.1 and 7.4.1). `AllocError` where memory runs out.
pub fn bits_of(alloc: Global, t: &SvType, v: &Value) -> Result<Vec4, AllocError>
    ensures { IfOk result (λ r. r ≡ bits v.now) }
{
    let mut to = Vec::with_capacity(alloc, capped_width(t) as usize)?;
    push_bits(v, &mut to)?;
    Ok(Vec4::from_vec(to))
}

/// Bits as the type `t` of at most 2^22 bits stores them: 0 in place of x and z in two-state bits (IEEE 1800-2017 clause
/// 6.3.2). `AllocError` where memory runs out.
pub fn store(alloc: Global, t: &SvType, v: &Vec4) -> Result<Vec4, AllocError>
    requires { width_of t.now ≤ 4194304 }
    ensures { IfOk result (λ r. r ≡ stored (layout t.now).two_state v.now) }
{
    let marks = marks_of(alloc, t)?;
    Ok(Vec4::from_vec(stored_bits(alloc, &marks, v.as_slice())?))
}

/// The value of the type `t` that has these bits, as many as the type has, at most 2^22. An x or z bit is 0 in the value
/// where the bit is two-state (IEEE 1800-2017 clause 6.3.2). `AllocError` where memory runs out.
#[tactic(auto, using(crate::proofs::Stored::storing))]
pub fn of_bits(alloc: Global, t: &SvType, v: &Vec4) -> Result<Value, AllocError>
    requires narrow { width_of t.now ≤ 4194304 }
    requires same { length v.now ≡ width_of t.now }
    ensures value { IfOk result (λ r. r ≡ value_of_bits t.now v.now) }
    ensures back { IfOk result (λ r. bits r ≡ stored (layout t.now).two_state v.now) }
{
    let marks = marks_of(alloc, t)?;
    let held = stored_bits(alloc, &marks, v.as_slice())?;
    cut_value(alloc, t, &held)
}

/// The default of the type `t`, which has at most 2^22 bits: 0 in two-state bits, x in all others (IEEE 1800-2017 clause
/// 6.8). `AllocError` where memory runs out.
#[tactic(auto, using(crate::proofs::Stored::storing))]
pub fn default_of(alloc: Global, t: &SvType) -> Result<Value, AllocError>
    requires narrow { width_of t.now ≤ 4194304 }
    ensures value { IfOk result (λ r. r ≡ default t.now) }
    ensures back { IfOk result (λ r. bits r ≡ default_bits (layout t.now).two_state) }
{
    let marks = marks_of(alloc, t)?;
    let held = bits_of_default(alloc, &marks)?;
    cut_value(alloc, t, &held)
}
