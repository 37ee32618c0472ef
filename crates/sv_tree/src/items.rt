//! Items of modules and interfaces, and generate constructs (IEEE 1800-2017 clauses 23.2.4 and 27, A.1.4, A.4.2). Each `u32`
//! is the number of a token among the tree's tokens.

use crate::declarations::{Declarators, Import, ParameterDeclaration};
use crate::expressions::{Expr, Exprs};
use crate::functions::{Function, Task};
use crate::instances::{Instantiation, ModportDeclaration};
use crate::names::{Label, Names, NetOrVariable};
use crate::processes::{Always, ContinuousAssign};
use crate::statements::LoopStep;
use crate::types::{TypeDeclaration, TypeText};
use sv_source::{Boxed, Items};

/// Nets or variables (IEEE 1800-2017 A.2.1.3 data_declaration and net_declaration).
#[derive(Drop)]
pub struct DataDeclaration {
    /// The word `wire` or `var`, where it is written.
    pub net: Option<NetOrVariable>,
    /// The type.
    pub of: TypeText,
    /// The names, at least one.
    pub declarators: Declarators,
    /// The `;`.
    pub semicolon: u32,
}

/// Names of generate loops (IEEE 1800-2017 A.2.1.3 genvar_declaration).
#[derive(Drop)]
pub struct GenvarDeclaration {
    /// The word `genvar`.
    pub keyword: u32,
    /// The names, at least one.
    pub names: Names,
    /// The `;`.
    pub semicolon: u32,
}

/// What stands between the parentheses of a generate loop (IEEE 1800-2017 A.4.2 loop_generate_construct).
#[derive(Drop)]
pub struct GenerateLoop {
    /// The word `genvar`, where the name is declared here.
    pub genvar: Option<u32>,
    /// The name.
    pub name: u32,
    /// The `=`.
    pub equals: u32,
    /// Its first value.
    pub first: Expr,
    /// The `;` behind it.
    pub first_semicolon: u32,
    /// Whether there is another block.
    pub test: Expr,
    /// The `;` behind it.
    pub test_semicolon: u32,
    /// How the next value comes.
    pub step: LoopStep,
}

/// The block of a generate construct (IEEE 1800-2017 A.4.2 generate_block).
#[derive(Drop)]
#[cycle(item)]
pub enum GenerateBlock {
    /// `begin items end`
    Block {
        /// The word `begin`.
        begin: u32,
        /// The name behind it.
        label: Option<Label>,
        /// The items.
        items: ModuleItems,
        /// The word `end`.
        end: u32,
        /// The name behind it.
        end_label: Option<Label>,
    },
    /// One item alone.
    Single(Boxed<Item>),
}

/// `else` and its block (IEEE 1800-2017 A.4.2 if_generate_construct).
#[derive(Drop)]
#[cycle(item)]
pub struct GenerateElse {
    /// The word `else`.
    pub keyword: u32,
    /// The block.
    pub body: GenerateBlock,
}

/// An item of a generate `case` (IEEE 1800-2017 A.4.2 case_generate_item). At most one is the default.
#[derive(Drop)]
#[cycle(item)]
pub enum CaseGenerateItem {
    /// `values: block`
    Values {
        /// The values, at least one.
        values: Exprs,
        /// The `:`.
        colon: u32,
        /// The block.
        body: GenerateBlock,
    },
    /// `default: block`
    Default {
        /// The word `default`.
        keyword: u32,
        /// The `:`, where it is written.
        colon: Option<u32>,
        /// The block.
        body: GenerateBlock,
    },
}

/// The items of a generate `case`, in order.
pub type CaseGenerateItems = Items<CaseGenerateItem>;

/// An item of a module, an interface or a generate block (IEEE 1800-2017 A.1.4 module_or_generate_item).
#[derive(Drop)]
#[cycle(item)]
pub enum Item {
    /// Parameters.
    Parameters(ParameterDeclaration),
    /// A type's name.
    Typedef(TypeDeclaration),
    /// Names that are imported.
    Import(Import),
    /// A function.
    Function(Function),
    /// A task.
    Task(Task),
    /// Nets or variables.
    Data(DataDeclaration),
    /// Names of generate loops.
    Genvars(GenvarDeclaration),
    /// Continuous assignments.
    Assign(ContinuousAssign),
    /// A process.
    Always(Always),
    /// `generate items endgenerate`
    Generate {
        /// The word `generate`.
        keyword: u32,
        /// The items.
        items: ModuleItems,
        /// The word `endgenerate`.
        end: u32,
    },
    /// `for (control) block`
    LoopGenerate {
        /// The word `for`.
        keyword: u32,
        /// The `(`.
        opening: u32,
        /// The name and its values.
        control: GenerateLoop,
        /// The `)`.
        closing: u32,
        /// The block.
        body: Boxed<GenerateBlock>,
    },
    /// `if (test) block else ..`
    IfGenerate {
        /// The word `if`.
        keyword: u32,
        /// The `(`.
        opening: u32,
        /// The condition.
        test: Expr,
        /// The `)`.
        closing: u32,
        /// The block where it is true.
        body: Boxed<GenerateBlock>,
        /// The block where it isn't.
        other: Option<Boxed<GenerateElse>>,
    },
    /// `case (value) items endcase`
    CaseGenerate {
        /// The word `case`.
        keyword: u32,
        /// The `(`.
        opening: u32,
        /// The value that is compared.
        value: Expr,
        /// The `)`.
        closing: u32,
        /// The items, at least one.
        items: CaseGenerateItems,
        /// The word `endcase`.
        end: u32,
    },
    /// Modports.
    Modports(ModportDeclaration),
    /// Instances of a module or an interface.
    Instances(Instantiation),
    /// `;`
    Empty {
        /// The `;`.
        semicolon: u32,
    },
}

/// The items of a module, an interface or a block, in order.
pub type ModuleItems = Items<Item>;
