//! Fitting a pattern to a type.

ghost use Rattle.std.specs.Prelude.{◌≡◌, ◌<◌, ◌≤◌, ℕ, unsigned_abs, ◌-ℤ◌, Bool, true, false, ◌||◌, length, map, replicate, Option, List, OnSome, OnOk, IfOk, IfSome, None, cond, ◌-◌, ◌++◌, ◌*◌};
ghost use Rattle.std.specs.List.{list_all, list_any, All};
ghost use Rattle.sv_types.specs.declared.types.SvType.{out-SvType};
ghost use Rattle.sv_types.specs.declared.types.Member.{Member};
ghost use Rattle.sv_types.specs.Layouts.{count_of};
ghost use Rattle.pattern_fit.specs.Fits.{fits, fit_in, Gives, is_place, is_plain, by_default, by_place, named, member_number, element_number, between, item_at, is_once, item_or, covers, OnceGives, AllWithin, struct_places, array_places, by_key};
ghost use Rattle.sv_types.specs.Windows.{tabulated};
ghost use Rattle.pattern_fit.specs.declared.pattern.PatternItem.TheVariants.{Item, Default, Spread};

use crate::pattern::{FitFail, Key, Pattern, PatternItem, PatternItems, Rest};
use crate::same::is_same;
use std::alloc::{AllocError, Global};
use sv_types::{Member, SvType, Text};

// Whether a key is left out.
fn is_left_out(key: &Key) -> bool
    ensures { result ≡ is_place key.now }
{
    match key {
        Key::Place => true,
        Key::Member(_) => false,
        Key::Index(_) => false,
    }
}

fn any_left_out(keys: &[Key]) -> bool
    ensures { result ≡ list_any is_place keys.now }
{
    keys.iter().any(is_left_out)
}

fn all_left_out(keys: &[Key]) -> bool
    ensures { result ≡ list_all is_place keys.now }
{
    keys.iter().all(is_left_out)
}

// Whether a type takes the value of `default` itself, whatever the value's type is.
fn takes_plainly(t: &SvType) -> bool
    ensures { result ≡ is_plain (out-SvType t.now) }
{
    match t {
        SvType::Scalar { .. } => true,
        SvType::PackedArray { item, .. } => match item.get() {
            SvType::Scalar { .. } => true,
            SvType::PackedArray { .. } => false,
            SvType::Struct { .. } => false,
            SvType::Union { .. } => false,
            SvType::Enum { .. } => false,
            SvType::UnpackedArray { .. } => false,
        },
        SvType::Struct { .. } => false,
        SvType::Union { .. } => true,
        SvType::Enum { .. } => true,
        SvType::UnpackedArray { .. } => false,
    }
}

fn whole_or_spread(whole: bool) -> PatternItem
    ensures { result ≡ cond whole Default Spread }
{
    if whole {
        PatternItem::Default
    } else {
        PatternItem::Spread
    }
}

// What a member that no item names takes.
fn default_item(rest: &Rest, t: &SvType) -> Option<PatternItem>
    ensures { result ≡ by_default rest.now t.now }
{
    match rest {
        Rest::Absent => None,
        Rest::Plain => Some(whole_or_spread(takes_plainly(t))),
        Rest::Typed(of) => Some(whole_or_spread(takes_plainly(t) || is_same(t, of))),
    }
}

// The number of the member with a name.
fn number_of_name(members: &[Member], name: &Text) -> Option<usize>
    ensures value { result ≡ named 0 members.now name.now }
    ensures within { IfSome result (λ n. n < length members.now) }
{
    for (n, member) in members.iter().enumerate() {
        if member.name == *name {
            return Some(n);
        }
    }
    None
}

fn number_of_member(members: &[Member], key: &Key) -> Option<usize>
    ensures value { result ≡ member_number members.now key.now }
    ensures within { IfSome result (λ n. n < length members.now) }
{
    match key {
        Key::Place => None,
        Key::Member(name) => number_of_name(members, name),
        Key::Index(_) => None,
    }
}

// Whether an index lies between two bounds.
fn is_between(left: i64, right: i64, i: i64) -> bool
    ensures { result ≡ between left right i }
{
    (right <= i && i <= left) || (left <= i && i <= right)
}

// How far an index stands from the left bound.
#[tactic(auto, using(crate::proofs::Tables::distances))]
fn distance(left: i64, right: i64, i: i64) -> u128
    requires { between left right i ≡ true }
    ensures value { result ≡ unsigned_abs (left -ℤ i) }
    ensures within { result < count_of left right }
{
    (left as i128 - i as i128).unsigned_abs()
}

// The number of the element with an index.
fn number_of_element(left: i64, right: i64, key: &Key) -> Option<u128>
    ensures value { result ≡ element_number left right key.now }
    ensures within { IfSome result (λ n. n < count_of left right) }
{
    match key {
        Key::Place => None,
        Key::Member(_) => None,
        Key::Index(i) => {
            if is_between(left, right, *i) {
                Some(distance(left, right, *i))
            } else {
                None
            }
        }
    }
}

// The items of a pattern without keys.
#[tactic(auto, using(crate::proofs::Tables::tables))]
fn fit_by_place(
    alloc: Global,
    rest: &Rest,
    items: usize,
    count: u128,
) -> Result<PatternItems, FitFail>
    requires { items < 4294967296 }
    ensures { Gives result (by_place rest.now items count) }
{
    match rest {
        Rest::Absent => {
            if items as u128 != count {
                return Err(FitFail::NoFit);
            }
            let mut all = Vec::new(alloc);
            for n in 0..items {
                all.push(PatternItem::Item(n as u32))?;
            }
            Ok(PatternItems::from_vec(all))
        }
        Rest::Plain => Err(FitFail::NoFit),
        Rest::Typed(_) => Err(FitFail::NoFit),
    }
}

// A table in which no place is taken.
fn nothing_taken(alloc: Global, count: usize) -> Result<Vec<Option<u32>>, AllocError>
    ensures { IfOk result (λ v. v.items ≡ replicate count None) }
{
    let mut taken: Vec<Option<u32>> = Vec::with_capacity(alloc, count)?;
    for _i in 0..count {
        taken.push(None)?;
    }
    Ok(taken)
}

// For each place the item that stands for it, by the places that the keys stand for.
fn items_by_place(
    alloc: Global,
    numbers: &[Option<usize>],
    count: usize,
) -> Result<Vec<Option<u32>>, FitFail>
    requires few { length numbers.now < 4294967296 }
    requires within { AllWithin count numbers.now }
    ensures { OnceGives result (is_once numbers.now) (tabulated count (item_at 0 numbers.now)) }
{
    let mut taken = nothing_taken(alloc, count)?;
    let mut i = numbers.len();
    while i > 0 {
        i -= 1;
        match numbers[i] {
            None => return Err(FitFail::NoFit),
            Some(place) => {
                if taken[place].is_some() {
                    return Err(FitFail::NoFit);
                }
                taken[place] = Some(i as u32);
            }
        }
    }
    Ok(taken)
}

// What a place takes: the item that stands for it, or what `default` gives.
fn item_for(taken: Option<u32>, otherwise: Option<PatternItem>) -> Option<PatternItem>
    ensures { result ≡ item_or taken otherwise }
{
    match taken {
        Some(n) => Some(PatternItem::Item(n)),
        None => otherwise,
    }
}

// What each member takes.
#[tactic(auto, using(crate::proofs::Covers::covering))]
fn cover_members(
    alloc: Global,
    rest: &Rest,
    numbers: &[Option<usize>],
    taken: &[Option<u32>],
    members: &[Member],
) -> Result<PatternItems, FitFail>
    requires { taken.now ≡ tabulated (length members.now) (item_at 0 numbers.now) }
    ensures { Gives result (covers rest.now numbers.now 0 (map (λ (m : Member). m.of) members.now)) }
{
    let mut items = Vec::new(alloc);
    for (n, member) in members.iter().enumerate() {
        match item_for(taken[n], default_item(rest, &member.of)) {
            Some(item) => items.push(item)?,
            None => return Err(FitFail::NoFit),
        }
    }
    Ok(PatternItems::from_vec(items))
}

// What each element takes.
#[tactic(auto, using(crate::proofs::Covers::covering))]
fn cover_elements(
    alloc: Global,
    rest: &Rest,
    numbers: &[Option<usize>],
    taken: &[Option<u32>],
    element: &SvType,
) -> Result<PatternItems, FitFail>
    requires { taken.now ≡ tabulated (length taken.now) (item_at 0 numbers.now) }
    ensures { Gives result (covers rest.now numbers.now 0 (replicate (length taken.now) element.now)) }
{
    let otherwise = default_item(rest, element);
    let mut items = Vec::new(alloc);
    for place in taken {
        match item_for(*place, otherwise) {
            Some(item) => items.push(item)?,
            None => return Err(FitFail::NoFit),
        }
    }
    Ok(PatternItems::from_vec(items))
}

// The members that the keys stand for.
fn members_of_keys(
    alloc: Global,
    members: &[Member],
    keys: &[Key],
) -> Result<Vec<Option<usize>>, AllocError>
    ensures value { IfOk result (λ v. v.items ≡ map (member_number members.now) keys.now) }
    ensures within { IfOk result (λ v. AllWithin (length members.now) v.items) }
{
    let mut numbers = Vec::with_capacity(alloc, keys.len())?;
    for key in keys {
        numbers.push(number_of_member(members, key))?;
    }
    Ok(numbers)
}

// The bounds of an array.
#[derive(Clone, Copy)]
struct Bounds {
    left: i64,
    right: i64,
}

fn bounds_of(left: &i64, right: &i64) -> Bounds
    ensures left { result.left ≡ left.now }
    ensures right { result.right ≡ right.now }
{
    Bounds {
        left: *left,
        right: *right,
    }
}

// An element's number, in an array of so many.
fn number_in(count: usize, bounds: &Bounds, key: &Key) -> Option<usize>
    requires { count ≡ count_of bounds.now.left bounds.now.right }
    ensures value { result ≡ element_number bounds.now.left bounds.now.right key.now }
    ensures within { IfSome result (λ n. n < count) }
{
    match number_of_element(bounds.left, bounds.right, key) {
        Some(n) => Some(n as usize),
        None => None,
    }
}

// The elements that the keys stand for.
fn elements_of_keys(
    alloc: Global,
    count: usize,
    bounds: &Bounds,
    keys: &[Key],
) -> Result<Vec<Option<usize>>, AllocError>
    requires { count ≡ count_of bounds.now.left bounds.now.right }
    ensures value { IfOk result (λ v. v.items ≡ map (element_number bounds.now.left bounds.now.right) keys.now) }
    ensures within { IfOk result (λ v. AllWithin count v.items) }
{
    let mut numbers = Vec::with_capacity(alloc, keys.len())?;
    for key in keys {
        numbers.push(number_in(count, bounds, key))?;
    }
    Ok(numbers)
}

fn fit_struct(alloc: Global, members: &[Member], p: &Pattern) -> Result<PatternItems, FitFail>
    requires { length p.now.keys < 4294967296 }
    ensures { Gives result (fit_in p.now (struct_places members.now)) }
{
    let keys = p.keys.as_slice();
    if any_left_out(keys) {
        if !all_left_out(keys) {
            return Err(FitFail::NoFit);
        }
        return fit_by_place(alloc, &p.rest, keys.len(), members.len() as u128);
    }
    let numbers = members_of_keys(alloc, members, keys)?;
    let taken = items_by_place(alloc, &numbers, members.len())?;
    cover_members(alloc, &p.rest, &numbers, &taken, members)
}

// How many elements there are between two bounds, both included.
fn elements_between(bounds: &Bounds) -> u128
    ensures { result ≡ count_of bounds.now.left bounds.now.right }
{
    (bounds.left as i128 - bounds.right as i128).unsigned_abs() + 1
}

fn fit_array(
    alloc: Global,
    bounds: &Bounds,
    element: &SvType,
    p: &Pattern,
) -> Result<PatternItems, FitFail>
    requires { length p.now.keys < 4294967296 }
    ensures { Gives result (fit_in p.now (array_places bounds.now.left bounds.now.right element.now)) }
{
    let keys = p.keys.as_slice();
    let count = elements_between(bounds);
    if any_left_out(keys) {
        if !all_left_out(keys) {
            return Err(FitFail::NoFit);
        }
        return fit_by_place(alloc, &p.rest, keys.len(), count);
    }
    let Ok(count) = usize::try_from(count) else {
        return Err(FitFail::Memory);
    };
    fit_elements(alloc, count, bounds, element, p)
}

// The elements of an array of so many, by keys.
fn fit_elements(
    alloc: Global,
    count: usize,
    bounds: &Bounds,
    element: &SvType,
    p: &Pattern,
) -> Result<PatternItems, FitFail>
    requires all { count ≡ count_of bounds.now.left bounds.now.right }
    requires few { length p.now.keys < 4294967296 }
    ensures { Gives result (by_key p.now.rest (map (element_number bounds.now.left bounds.now.right) p.now.keys) (replicate count element.now)) }
{
    let numbers = elements_of_keys(alloc, count, bounds, p.keys.as_slice())?;
    let taken = items_by_place(alloc, &numbers, count)?;
    cover_elements(alloc, &p.rest, &numbers, &taken, element)
}

/// What each member or element of `t` takes of a pattern with fewer than 2^32 items: the item that stands for it, or the
/// value of `default`, or the pattern `'{default: value}` (IEEE 1800-2017 clause 10.9). `NoFit` exactly where the type has
/// no members or elements, where some items have keys (or there is a `default`) and others don't, or where the items don't
/// cover each member once; `Memory` where memory runs out.
pub fn fit(alloc: Global, t: &SvType, p: &Pattern) -> Result<PatternItems, FitFail>
    requires { length p.now.keys < 4294967296 }
    ensures { Gives result (fits t.now p.now) }
{
    match t {
        SvType::Scalar { .. } => Err(FitFail::NoFit),
        SvType::PackedArray {
            left,
            right,
            item,
            ..
        } => { fit_array(alloc, &bounds_of(left, right), item.get(), p) }
        SvType::Struct { members, .. } => fit_struct(alloc, members.as_slice(), p),
        SvType::Union { .. } => Err(FitFail::NoFit),
        SvType::Enum { .. } => Err(FitFail::NoFit),
        SvType::UnpackedArray { left, right, item } => {
            fit_array(alloc, &bounds_of(left, right), item.get(), p)
        }
    }
}
