//! Source texts (IEEE 1800-2017 A.1.2, A.1.11). Each `u32` is the number of a token among the tree's tokens.

use crate::declarations::{Import, ParameterDeclaration};
use crate::functions::{Function, Task};
use crate::items::ModuleItems;
use crate::names::{Label, Lifetime};
use crate::ports::Header;
use crate::types::TypeDeclaration;
use sv_source::{Items, Tokens};

/// An item of a package (IEEE 1800-2017 A.1.11 package_item).
#[derive(Drop)]
pub enum PackageItem {
    /// Names that are imported.
    Import(Import),
    /// A type's name.
    Typedef(TypeDeclaration),
    /// Parameters.
    Parameters(ParameterDeclaration),
    /// A function.
    Function(Function),
    /// A task.
    Task(Task),
    /// `;`
    Empty {
        /// The `;`.
        semicolon: u32,
    },
}

/// The items of a package, in order.
pub type PackageItems = Items<PackageItem>;

/// A package (IEEE 1800-2017 A.1.2 package_declaration).
#[derive(Drop)]
pub struct Package {
    /// The word `package`.
    pub keyword: u32,
    /// The lifetime, where it is written.
    pub lifetime: Option<Lifetime>,
    /// The name.
    pub name: u32,
    /// The `;`.
    pub semicolon: u32,
    /// The items.
    pub items: PackageItems,
    /// The word `endpackage`.
    pub end: u32,
    /// The name behind it.
    pub end_label: Option<Label>,
}

/// A module or an interface (IEEE 1800-2017 A.1.2 module_declaration and interface_declaration).
#[derive(Drop)]
pub struct Module {
    /// The word `module` or `interface`.
    pub keyword: u32,
    /// The header.
    pub header: Header,
    /// The items.
    pub items: ModuleItems,
    /// The word `endmodule` or `endinterface`.
    pub end: u32,
    /// The name behind it.
    pub end_label: Option<Label>,
}

/// A description of a source text (IEEE 1800-2017 A.1.2 description).
#[derive(Drop)]
pub enum Unit {
    /// A package.
    Package(Package),
    /// A module.
    Module(Module),
    /// An interface.
    Interface(Module),
    /// Names that are imported.
    Import(Import),
    /// A type's name.
    Typedef(TypeDeclaration),
    /// Parameters.
    Parameters(ParameterDeclaration),
    /// A function.
    Function(Function),
    /// A task.
    Task(Task),
    /// `;`
    Empty {
        /// The `;`.
        semicolon: u32,
    },
}

/// The descriptions of a source text, in order.
pub type Units = Items<Unit>;

/// The tree of a source text, with its tokens (IEEE 1800-2017 A.1.2 source_text).
#[derive(Drop)]
pub struct SourceTree {
    /// The descriptions.
    pub units: Units,
    /// The tokens that the tree numbers, from 0.
    pub tokens: Tokens,
}
