//! What happens to names in a source text, as a list of events. Each `u32` is the number of a token among the tree's tokens.

use sv_source::Items;

/// What a scope belongs to (IEEE 1800-2017 clauses 23.9 and 27).
#[derive(Clone, Copy, PartialEq, Eq, Debug)]
pub enum ScopeKind {
    /// The compilation unit. No event opens it.
    Unit,
    /// A package.
    Package,
    /// A module.
    Module,
    /// An interface.
    Interface,
    /// A function with a value.
    Function,
    /// A function without a value.
    VoidFunction,
    /// A task.
    Task,
    /// A `begin` block of statements.
    Block,
    /// A `for` statement.
    Loop,
    /// A generate loop with its block.
    GenerateLoop,
    /// A block of a conditional generate.
    GenerateBlock,
}

/// Whether a type is packed, as far as its own text says (IEEE 1800-2017 clause 7.4).
#[derive(Clone, Copy, PartialEq, Eq, Debug)]
pub enum Packedness {
    /// It is packed, or one scalar.
    Packed,
    /// It is an array with unpacked dimensions, or a structure or union without `packed`.
    Unpacked,
    /// It is as the type that is named at this token.
    AsNamed(u32),
}

/// What is declared.
#[derive(Clone, Copy, Debug)]
pub enum Declared {
    /// A package.
    Package,
    /// A module.
    Module,
    /// An interface.
    Interface,
    /// A parameter or local parameter that is a value.
    Parameter,
    /// A parameter or local parameter that is a type.
    TypeParameter,
    /// A type's name.
    TypeName(Packedness),
    /// A name of an enumeration.
    EnumName,
    /// A net.
    Net,
    /// A variable outside statements and functions.
    Variable,
    /// A port that is an interface.
    InterfacePort,
    /// A port without direction whose type is a name alone: an interface port where that is an interface's name.
    NamedPort {
        /// The name of the type or the interface.
        of: u32,
        /// Whether it is a net where it is a port with a type.
        net: bool,
    },
    /// The name of a generate loop.
    Genvar,
    /// A function with a value.
    Function,
    /// A function without a value.
    VoidFunction,
    /// A task.
    Task,
    /// An instance of a module or an interface.
    Instance {
        /// The name of the module or interface.
        of: u32,
    },
    /// A block of statements, or of a generate loop.
    Block,
    /// A block of a conditional generate.
    Alternative {
        /// The first word of the whole conditional generate.
        construct: u32,
    },
    /// A modport.
    Modport,
    /// A formal argument.
    Formal,
    /// A variable of a block, a function or a task.
    Local,
    /// The variable of a `for` statement.
    LoopVariable,
}

/// As what a name is used.
#[derive(Clone, Copy, Debug)]
pub enum Role {
    /// As a value.
    Value,
    /// As a type.
    Type,
    /// As a value or a type.
    ValueOrType,
    /// As the argument of the system function at this token, which takes a type only where it is `$bits`.
    Argument(u32),
    /// As what a port is connected to: a value or an interface.
    Connection,
    /// As a function that is called for its value.
    Call,
    /// As a routine that is called by a statement.
    CallStatement,
    /// As what a statement assigns to.
    ProceduralTarget,
    /// As what a continuous assignment assigns to.
    ContinuousTarget,
    /// As the type of a port, or the interface that it is.
    TypeOrInterface,
    /// As the interface whose modport a port has.
    Interface,
    /// As the module or interface of an instance.
    Instantiated,
    /// As a signal whose edge is waited for.
    Edge,
    /// As the variable of a generate loop that is declared outside it.
    LoopGenvar,
    /// As what the step of a loop assigns to.
    Step,
    /// As a signal that a modport lists.
    ModportPort,
    /// As the key of a pattern's item, where it stands alone: the name of a member, or a constant.
    Key,
}

/// What kind of select stands behind a name.
#[derive(Clone, Copy, PartialEq, Eq, Debug)]
pub enum SelectKind {
    /// `.name`
    Member,
    /// `[left:right]`
    Range,
    /// Another one.
    Other,
}

/// What selects stand behind a name.
#[derive(Clone, Copy, PartialEq, Eq, Debug)]
pub enum SelectPath {
    /// None.
    Alone,
    /// A member first.
    Member,
    /// Ranges alone, as behind a type.
    Ranges,
    /// Others.
    Other,
}

/// The port that stands before a port.
#[derive(Clone, Copy, Debug)]
pub enum Before {
    /// There is none.
    Nothing,
    /// A port with a type.
    Data,
    /// An interface port.
    Interface,
    /// A port whose type or interface is named at this token.
    Named(u32),
}

/// An event. Those of one text stand in the order of their tokens, but for names of types and packages that stand before
/// what is used.
#[derive(Clone, Copy, Debug)]
pub enum Event {
    /// A scope begins.
    Opens {
        /// What it belongs to.
        kind: ScopeKind,
        /// Its first token.
        first: u32,
        /// Its last token.
        last: u32,
    },
    /// The header of the module or interface that is open ends, behind its ports.
    Heads,
    /// The innermost open scope ends.
    Closes,
    /// A name is declared.
    Declares {
        /// What it is.
        what: Declared,
        /// The name.
        name: u32,
        /// The last token of its declarator: of the name, its dimensions and its value.
        last: u32,
        /// Whether it belongs to the scope around the one that is open.
        outside: bool,
    },
    /// `package::name` is imported.
    ImportsName {
        /// The package.
        package: u32,
        /// The name.
        name: u32,
    },
    /// `package::*` is imported.
    ImportsAll {
        /// The package.
        package: u32,
        /// The `*`.
        star: u32,
    },
    /// A name is used.
    Uses {
        /// The package before it.
        package: Option<u32>,
        /// The name.
        name: u32,
        /// As what.
        role: Role,
        /// The selects behind it.
        path: SelectPath,
    },
    /// The generate loop that is open runs over a genvar.
    Runs {
        /// The genvar's name.
        name: u32,
        /// The last token of its first value.
        last: u32,
    },
    /// A name has to be the same as another one.
    Repeats {
        /// The other one.
        of: u32,
        /// The name.
        name: u32,
    },
    /// A named type has to be packed.
    Packs {
        /// The type's name.
        of: u32,
        /// What is wrong otherwise.
        at: u32,
    },
    /// A port without direction, which isn't the modport of an interface.
    Undirected {
        /// The port's name.
        name: u32,
        /// The name that may be that of its interface.
        of: Option<u32>,
        /// The port before it.
        before: Before,
    },
    /// A type that isn't a name stands as the argument of a system function, which has to be `$bits`.
    TypeArgument {
        /// The function's name.
        function: u32,
        /// The type's word.
        at: u32,
    },
    /// A port of the instance that was declared last is connected by its name.
    Connects {
        /// The port's name.
        port: u32,
    },
    /// `.*` connects the further ports of the instance that was declared last.
    ConnectsRest {
        /// The `.*`.
        mark: u32,
    },
    /// The tree alone shows a break of E404.
    Wrong {
        /// The token.
        at: u32,
    },
}

/// Events, in order.
pub type Events = Items<Event>;
