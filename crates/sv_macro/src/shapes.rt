// Tokens that are dropped with their directive.
ghost use Rattle.std.specs.Prelude.{◌≡◌, None, Some, if◌then◌else◌, drop};
ghost use Rattle.sv_macro.specs.Shapes as spec;
ghost use Rattle.sv_macro.specs.Lines.{first_by, raw_token};

use crate::coming::Coming;
use crate::lines::raw_token;
use crate::pending::Pending;
use crate::tokens::{is, is_continued, is_decimal, is_name, is_word};
use sv_source::Token;

/// What a token has to be.
#[derive(Clone, Copy, PartialEq, Eq, Debug)]
pub enum Shape {
    /// A simple name.
    AnyName,
    /// A simple name or a reserved word.
    AnyWord,
    /// A decimal number.
    Number,
    /// A slash.
    Slash,
}

fn fits(shape: Shape, token: &Token) -> bool
    ensures { result ≡ spec.fits shape token.now }
{
    match shape {
        Shape::AnyName => is_name(token),
        Shape::AnyWord => is_word(token),
        Shape::Number => is_decimal(token),
        Shape::Slash => is(token, b"/"),
    }
}

fn is_joint(item: &Coming) -> bool
    ensures { result ≡ spec.is_joint item.now }
{
    match item {
        Coming::Raw(token) => is_continued(token),
        Coming::Kept(_) => false,
        Coming::FileEnd => false,
        Coming::UseEnd(_) => false,
    }
}

fn begins_joint(coming: &Pending) -> bool
    ensures { result ≡ spec.begins_joint coming.now }
{
    match coming.top() {
        Some(item) => is_joint(&item.what),
        None => false,
    }
}

// Takes newlines behind a backslash off.
fn skip_joints(coming: &mut Pending)
    ensures { coming.new ≡ spec.behind_joints coming.old }
{
    while begins_joint(coming) {
        coming.pop();
    }
}

// Takes a token of the line off, and says whether it fits.
fn take_fitting(coming: &mut Pending, shape: Shape) -> bool
    ensures value { result ≡ spec.first_fits shape (first_by raw_token (spec.behind_joints coming.old)) }
    ensures rest { coming.new ≡ drop 1 (spec.behind_joints coming.old) }
{
    skip_joints(coming);
    let Some(item) = coming.pop() else {
        return false;
    };
    match raw_token(item) {
        Some(token) => fits(shape, &token),
        None => false,
    }
}

/// Takes tokens of the line off, one of each shape, and says whether they are there.
pub fn take_shapes(coming: &mut Pending, shapes: &[Shape]) -> bool
    ensures { spec.behind_shapes shapes.now coming.old ≡ (if result then Some coming.new else None) }
{
    let mut rest = shapes;
    while let [shape, more @ ..] = rest {
        if !take_fitting(coming, *shape) {
            return false;
        }
        rest = more;
    }
    true
}
