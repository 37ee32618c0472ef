//! What has to fit for an expression to fit.

use eval_parts::Places;
use sv_types::{Choice, Expr};

/// A part of an expression, and the width at which it is valued.
#[derive(Clone, Copy)]
pub struct Part<'a> {
    /// The part.
    pub of: &'a Expr,
    /// The width.
    pub width: u32,
}

/// What has to fit for an expression to fit.
#[derive(Clone, Copy)]
pub enum Need<'a> {
    /// It doesn't fit.
    Never,
    /// It fits.
    Nothing,
    /// This part.
    One(Part<'a>),
    /// Both parts.
    Two(Part<'a>, Part<'a>),
    /// All three parts.
    Three(Part<'a>, Part<'a>, Part<'a>),
    /// Each of these alone.
    Each(&'a [Expr]),
    /// Each of these, assigned to its place.
    Placed(Places<'a>, &'a [Expr]),
    /// A value, and what it is compared with.
    Inside(&'a Expr, &'a [Choice]),
}
