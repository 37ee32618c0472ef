//! The scopes of a text, and what is declared and imported in them.

ghost use Rattle.std.specs.Prelude.{◌≡◌};
ghost use Rattle.package_scope.specs.Lookup as means;

use name_events::{Declared, Role, ScopeKind, SelectPath};
use sv_source::{Items, Text};

/// What a declared name is.
#[derive(Clone, Copy, PartialEq, Eq)]
pub enum DeclKind {
    /// A package.
    Package,
    /// A module.
    Module,
    /// An interface.
    Interface,
    /// A parameter or local parameter that is a value.
    Constant,
    /// A type's name, or a parameter that is a type.
    TypeName,
    /// A name of an enumeration.
    EnumName,
    /// A port, a net or a variable outside statements and functions.
    Signal,
    /// The name of a generate loop.
    Genvar,
    /// A function or a task.
    Function,
    /// An instance of a module or an interface.
    Instance,
    /// A block.
    Block,
    /// A modport.
    Modport,
    /// A formal argument.
    Formal,
    /// A variable of a block, a function, a task or a loop.
    Local,
}

/// Whether what is declared is visible everywhere in its scope, and not only behind its declarator.
pub fn is_everywhere(what: DeclKind) -> bool
    ensures { result ≡ means.is_everywhere what }
{
    match what {
        DeclKind::Function => true,
        DeclKind::Module => true,
        DeclKind::Interface => true,
        _ => false,
    }
}

/// A scope (IEEE 1800-2017 clause 23.9).
#[derive(Clone, Copy)]
pub struct Scope {
    /// What it belongs to.
    pub kind: ScopeKind,
    /// Its first token.
    pub first: u32,
    /// Its last token.
    pub last: u32,
    /// The scope around it; that of the compilation unit is itself.
    pub outer: u32,
}

/// A declaration.
#[derive(Drop)]
pub struct Declaration {
    /// The name.
    pub name: Text,
    /// The name's token.
    pub at: u32,
    /// The scope that it belongs to.
    pub scope: u32,
    /// What it is.
    pub what: DeclKind,
    /// What it is, more closely.
    pub how: Declared,
    /// The last token of its declarator: it is visible behind it, unless it is visible everywhere.
    pub last: u32,
    /// The scope that it opens, if it opens one, or else the one that it belongs to.
    pub inner: u32,
}

/// An import of one name.
#[derive(Drop)]
pub struct NamedImport {
    /// The scope that it stands in.
    pub scope: u32,
    /// The package.
    pub source: Text,
    /// The package's token.
    pub source_at: u32,
    /// The name.
    pub name: Text,
    /// The name's token.
    pub at: u32,
}

/// An import of all names of a package.
#[derive(Drop)]
pub struct WildcardImport {
    /// The scope that it stands in.
    pub scope: u32,
    /// The package.
    pub source: Text,
    /// The package's token.
    pub source_at: u32,
    /// The `*`.
    pub at: u32,
}

/// The use of a name.
#[derive(Clone, Copy)]
pub struct Use {
    /// The scope that it stands in.
    pub scope: u32,
    /// The token of the package before it.
    pub source: Option<u32>,
    /// The name's token.
    pub at: u32,
    /// As what it is used.
    pub role: Role,
    /// The selects behind it.
    pub path: SelectPath,
}

/// What a generate loop runs over.
#[derive(Clone, Copy)]
pub struct LoopRun {
    /// The loop's scope.
    pub scope: u32,
    /// The genvar's name in the loop.
    pub name: u32,
    /// The last token of its first value.
    pub last: u32,
}

/// The end of the header of a module or an interface.
#[derive(Clone, Copy)]
pub struct Head {
    /// Its scope.
    pub scope: u32,
    /// How many declarations stand before it.
    pub declared: u32,
}

/// A port of an instance that is connected by its name.
#[derive(Drop)]
pub struct Link {
    /// The number of the instance's declaration.
    pub instance: u32,
    /// The port's name.
    pub name: Text,
}

/// A `.*`, which connects the further ports of an instance.
#[derive(Clone, Copy)]
pub struct Rest {
    /// The number of the instance's declaration.
    pub instance: u32,
    /// Its token.
    pub at: u32,
}

/// What the events of a text leave, up to one of them.
#[derive(Drop)]
pub struct Table {
    /// The innermost open scope.
    pub current: u32,
    /// The scopes, each behind the one around it. The first is the compilation unit.
    pub scopes: Items<Scope>,
    /// The declarations, in the order of their tokens.
    pub declared: Items<Declaration>,
    /// The imports of one name.
    pub named: Items<NamedImport>,
    /// The imports of all names.
    pub wildcards: Items<WildcardImport>,
    /// The uses of names.
    pub uses: Items<Use>,
    /// What generate loops run over.
    pub loops: Items<LoopRun>,
    /// The ends of headers.
    pub heads: Items<Head>,
    /// The ports that are connected by their names.
    pub links: Items<Link>,
    /// Each `.*`.
    pub rests: Items<Rest>,
}

/// What a name stands for.
#[derive(Clone, Copy, PartialEq, Eq)]
pub enum Found {
    /// The declaration with this number.
    Decl(u32),
    /// Nothing.
    Absent,
    /// Two declarations, by two imports of all names.
    Twice,
}
