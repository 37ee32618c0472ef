//! What a name stands for.

/// What holds a value (IEEE 1364-2005 clauses 4.2 and 10.4).
#[derive(Clone, Copy, Drop)]
pub enum Kind {
    /// An input of the module.
    Input,
    /// Another net.
    Net,
    /// A variable of the module.
    Variable,
    /// A variable of a function or block.
    Local,
}

/// What a declared name stands for. A range is `[left:0]`, and its left bound is kept.
#[derive(Clone, Copy, Drop)]
pub enum Entry {
    /// A signal, or a variable of a function or block.
    Value {
        /// What holds the value.
        kind: Kind,
        /// The left bound of the range, if there is one.
        left: Option<u32>,
    },
    /// A memory.
    Memory {
        /// The left bound of the range of a word, if there is one.
        left: Option<u32>,
    },
    /// A function.
    Function {
        /// The left bound of the result's range, if there is one.
        left: Option<u32>,
        /// The number of the function among the items of its module.
        item: usize,
    },
    /// The result of a function, in its own body.
    Result {
        /// The left bound of the result's range, if there is one.
        left: Option<u32>,
        /// The number of the function among the items of its module.
        item: usize,
    },
    /// An instance or a block.
    Part,
}
