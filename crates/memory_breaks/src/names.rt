//! The signals that expressions name.

ghost use Rattle.std.specs.Prelude.{◌≡◌, map, length};
ghost use Rattle.sv_types.specs.Layouts.{layout, count_of};
ghost use Rattle.sv_types.specs.Operators.{parts_of};
ghost use Rattle.memory_breaks.specs.Names as spec;

use crate::Marks;
use crate::marks::mark;
use sv_types::{Choice, Expr, Form, SvType};

/// Which of the signals that an expression names count.
#[derive(Clone, Copy)]
pub(crate) enum Sense {
    /// All of them.
    Named,
    /// What a select path stands on, and what its indices name.
    Selected,
    /// What only indices name.
    Inner,
}

// What counts of that from which a select is made.
fn of_path(sense: Sense) -> Sense
    ensures { result ≡ spec.of_path sense }
{
    match sense {
        Sense::Named => Sense::Selected,
        Sense::Selected => Sense::Selected,
        Sense::Inner => Sense::Inner,
    }
}

// What counts of the parts of a concatenation or stream.
fn of_parts(sense: Sense) -> Sense
    ensures { result ≡ spec.of_parts sense }
{
    match sense {
        Sense::Named => Sense::Named,
        Sense::Selected => Sense::Inner,
        Sense::Inner => Sense::Inner,
    }
}

fn mark_signal(signal: u32, sense: Sense, marks: &mut Marks)
    ensures { marks.new ≡ spec.signal signal sense marks.old }
{
    match sense {
        Sense::Named => mark(u128::from(signal), marks),
        Sense::Selected => mark(u128::from(signal), marks),
        Sense::Inner => (),
    }
}

// How many elements there are between two bounds, both included.
fn count_between(left: i64, right: i64) -> u128
    ensures { result ≡ count_of left right }
{
    (left as i128 - right as i128).unsigned_abs() + 1
}

// How many members a struct or union has; one without any is selected from as from the bits [-1:0].
fn member_count(members: usize) -> u128
    ensures { result ≡ spec.member_count members }
{
    if members == 0 { 2 } else { members as u128 }
}

// How many members or elements a type has.
#[tactic(auto, using(crate::proofs::PartCounts::counts))]
fn part_count(t: &SvType) -> u128
    ensures { result ≡ length (parts_of (layout t.now)) }
{
    match t {
        SvType::Scalar { .. } => 1,
        SvType::PackedArray { left, right, .. } => count_between(*left, *right),
        SvType::Struct { members, .. } => member_count(members.len()),
        SvType::Union { members, .. } => member_count(members.len()),
        SvType::Enum { base, .. } => part_count(base.get()),
        SvType::UnpackedArray { left, right, .. } => count_between(*left, *right),
    }
}

#[cycle(names)]
fn mark_choice(choice: &Choice, marks: &mut Marks)
    ensures { marks.new ≡ spec.choice_walk choice.now spec.named marks.old }
{
    match choice {
        Choice::Value(v) => mark_names(v, Sense::Named, marks),
        Choice::Range(low, high) => {
            mark_names(low, Sense::Named, marks);
            mark_names(high, Sense::Named, marks);
        }
    }
}

#[cycle(names)]
fn mark_choices(choices: &[Choice], marks: &mut Marks)
    ensures { marks.new ≡ spec.in_turn (map spec.choice_walk choices.now) spec.named marks.old }
{
    for choice in choices {
        mark_choice(choice, marks);
    }
}

/// Marks the signals that expressions name.
#[cycle(names)]
pub(crate) fn mark_all_names(es: &[Expr], sense: Sense, marks: &mut Marks)
    ensures { marks.new ≡ spec.in_turn (map spec.walk es.now) sense marks.old }
{
    for e in es {
        mark_names(e, sense, marks);
    }
}

/// Marks the signals that the first so many expressions name.
#[cycle(names)]
pub(crate) fn mark_first_names(es: &[Expr], count: u128, marks: &mut Marks)
    ensures { marks.new ≡ spec.first count (map spec.walk es.now) marks.old }
{
    let mut left = count;
    for e in es {
        if left == 0 {
            return;
        }
        left -= 1;
        mark_names(e, Sense::Named, marks);
    }
}

/// Marks the signals that an expression names, as far as they count.
#[cycle(names)]
pub(crate) fn mark_names(e: &Expr, sense: Sense, marks: &mut Marks)
    ensures { marks.new ≡ spec.walk e.now sense marks.old }
{
    match &e.form {
        Form::Literal { .. } => (),
        Form::Fill(_) => (),
        Form::Constant(_) => (),
        Form::Signal(n) => mark_signal(*n, sense, marks),
        Form::Local(_) => (),
        Form::Member(from, _) => mark_names(from.get(), of_path(sense), marks),
        Form::Index(from, index) => {
            mark_names(from.get(), of_path(sense), marks);
            mark_names(index.get(), Sense::Named, marks);
        }
        Form::Part { from, .. } => mark_names(from.get(), of_path(sense), marks),
        Form::Slide { from, base, .. } => {
            mark_names(from.get(), of_path(sense), marks);
            mark_names(base.get(), Sense::Named, marks);
        }
        Form::Unary(_, operand) => mark_names(operand.get(), Sense::Named, marks),
        Form::Reduce(_, operand) => mark_names(operand.get(), Sense::Named, marks),
        Form::Negate(operand) => mark_names(operand.get(), Sense::Named, marks),
        Form::Binary(_, left, right) => {
            mark_names(left.get(), Sense::Named, marks);
            mark_names(right.get(), Sense::Named, marks);
        }
        Form::Shift(_, left, right) => {
            mark_names(left.get(), Sense::Named, marks);
            mark_names(right.get(), Sense::Named, marks);
        }
        Form::Power(left, right) => {
            mark_names(left.get(), Sense::Named, marks);
            mark_names(right.get(), Sense::Named, marks);
        }
        Form::Order(_, left, right) => {
            mark_names(left.get(), Sense::Named, marks);
            mark_names(right.get(), Sense::Named, marks);
        }
        Form::Equal { left, right, .. } => {
            mark_names(left.get(), Sense::Named, marks);
            mark_names(right.get(), Sense::Named, marks);
        }
        Form::Both(left, right) => {
            mark_names(left.get(), Sense::Named, marks);
            mark_names(right.get(), Sense::Named, marks);
        }
        Form::Either(left, right) => {
            mark_names(left.get(), Sense::Named, marks);
            mark_names(right.get(), Sense::Named, marks);
        }
        Form::Choose(on, left, right) => {
            mark_names(on.get(), Sense::Named, marks);
            mark_names(left.get(), Sense::Named, marks);
            mark_names(right.get(), Sense::Named, marks);
        }
        Form::Concat(parts) => mark_all_names(parts.as_slice(), of_parts(sense), marks),
        Form::Repeat(_, parts) => mark_all_names(parts.as_slice(), Sense::Named, marks),
        Form::Inside(value, choices) => {
            mark_names(value.get(), Sense::Named, marks);
            mark_choices(choices.as_slice(), marks);
        }
        Form::Cast(operand) => mark_names(operand.get(), Sense::Named, marks),
        Form::Clog2(operand) => mark_names(operand.get(), Sense::Named, marks),
        Form::Pattern(items) => mark_first_names(items.as_slice(), part_count(&e.of), marks),
        Form::Call(_, actuals) => mark_all_names(actuals.as_slice(), Sense::Named, marks),
        Form::Stream { parts, .. } => mark_all_names(parts.as_slice(), of_parts(sense), marks),
    }
}
