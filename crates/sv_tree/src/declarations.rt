//! Declared names, parameters and imports (IEEE 1800-2017 A.2.1, A.2.4). Each `u32` is the number of a token among the
//! tree's tokens.

use crate::expressions::{Dimensions, Expr};
use crate::types::TypeText;
use sv_source::Items;

/// `= value` behind a name.
#[derive(Drop)]
pub struct Initializer {
    /// The `=`.
    pub equals: u32,
    /// The value, or a type in the place of one.
    pub value: Expr,
}

/// A declared name (IEEE 1800-2017 A.2.4 variable_decl_assignment).
#[derive(Drop)]
pub struct Declarator {
    /// The name.
    pub name: u32,
    /// The unpacked dimensions.
    pub unpacked: Dimensions,
    /// The first value, where it is written.
    pub initial: Option<Initializer>,
}

/// Declared names of one type, in order (IEEE 1800-2017 A.2.3 list_of_variable_decl_assignments).
pub type Declarators = Items<Declarator>;

/// Whether a parameter can be set from outside (IEEE 1800-2017 clause 6.20.4), with its word.
#[derive(Clone, Copy)]
pub enum ParameterKeyword {
    /// `parameter`
    Parameter(u32),
    /// `localparam`
    Localparam(u32),
}

/// What a parameter stands for (IEEE 1800-2017 A.2.4 param_assignment and type_assignment).
#[derive(Drop)]
pub enum ParameterBody {
    /// A type.
    Type {
        /// The word `type`.
        keyword: u32,
        /// The parameter's name.
        name: u32,
        /// The type that it has where none is given.
        initial: Option<Initializer>,
    },
    /// A value.
    Value {
        /// The type.
        of: TypeText,
        /// The parameter's name and value.
        declarator: Declarator,
    },
}

/// Parameters behind one word, in order.
pub type ParameterBodies = Items<ParameterBody>;

/// Parameters of a body (IEEE 1800-2017 A.2.1.1 parameter_declaration and local_parameter_declaration).
#[derive(Drop)]
pub struct ParameterDeclaration {
    /// The first word.
    pub keyword: ParameterKeyword,
    /// The parameters, at least one.
    pub bodies: ParameterBodies,
    /// The `;`.
    pub semicolon: u32,
}

/// A name that is imported, or all (IEEE 1800-2017 A.2.1.3 package_import_item).
#[derive(Drop)]
pub enum ImportItem {
    /// `package::name`
    Name {
        /// The package's name.
        package: u32,
        /// The `::`.
        colons: u32,
        /// The name that is imported.
        name: u32,
    },
    /// `package::*`
    All {
        /// The package's name.
        package: u32,
        /// The `::`.
        colons: u32,
        /// The `*`.
        star: u32,
    },
}

/// What one declaration imports, in order.
pub type ImportItems = Items<ImportItem>;

/// Names that are imported (IEEE 1800-2017 A.2.1.3 package_import_declaration).
#[derive(Drop)]
pub struct Import {
    /// The word `import`.
    pub keyword: u32,
    /// What is imported, at least one item.
    pub items: ImportItems,
    /// The `;`.
    pub semicolon: u32,
}

/// Imports, in order.
pub type Imports = Items<Import>;
