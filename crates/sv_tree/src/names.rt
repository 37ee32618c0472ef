//! Names and the words that stand alone beside them. Each `u32` is the number of a token among the tree's tokens.

use sv_source::Items;

/// The tokens of a list of names, in order.
pub type Names = Items<u32>;

/// `package::` before a name (IEEE 1800-2017 clause 26.3, A.9.3 package_scope).
#[derive(Clone, Copy)]
pub struct PackageScope {
    /// The package's name.
    pub package: u32,
    /// The `::`.
    pub colons: u32,
}

/// A name, alone or in a package.
#[derive(Clone, Copy)]
pub struct QualifiedName {
    /// The package that is named before it.
    pub scope: Option<PackageScope>,
    /// The name.
    pub name: u32,
}

/// `: name` behind a `begin` or an end (IEEE 1800-2017 clauses 9.3.4 and 23.2).
#[derive(Clone, Copy)]
pub struct Label {
    /// The `:`.
    pub colon: u32,
    /// The name.
    pub name: u32,
}

/// The lifetime of the variables of a design element (IEEE 1800-2017 A.2.1.3), with its word.
#[derive(Clone, Copy)]
pub enum Lifetime {
    /// `automatic`
    Automatic(u32),
    /// `static`
    Static(u32),
}

/// The direction of a port (IEEE 1800-2017 A.1.3 port_direction), with its word.
#[derive(Clone, Copy)]
pub enum Direction {
    /// `input`
    Input(u32),
    /// `output`
    Output(u32),
}

/// Whether a net or a variable is declared (IEEE 1800-2017 A.2.1.3), with its word.
#[derive(Clone, Copy)]
pub enum NetOrVariable {
    /// `wire`
    Wire(u32),
    /// `var`
    Var(u32),
}

/// Whether a type is signed (IEEE 1800-2017 A.2.2.1 signing), with its word.
#[derive(Clone, Copy)]
pub enum Signing {
    /// `signed`
    Signed(u32),
    /// `unsigned`
    Unsigned(u32),
}
