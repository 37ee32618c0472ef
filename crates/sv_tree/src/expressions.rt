//! Expressions (IEEE 1800-2017 clause 11 and A.8). Each `u32` is the number of a token among the tree's tokens. A comma
//! between two items of a list isn't kept: it stands directly before the second item.

use crate::names::{QualifiedName, Signing};
use crate::operators::{BinaryOperator, PartOperator, StreamOperator, UnaryOperator};
use crate::types::KeywordType;
use sv_source::{Boxed, Items};

/// Expressions, in order.
pub type Exprs = Items<Expr>;

/// Dimensions, the first one outermost.
pub type Dimensions = Items<Dimension>;

/// Selects, in order.
pub type Selects = Items<Select>;

/// The items on the right of `inside`, in order.
pub type ValueRanges = Items<ValueRange>;

/// The items of an assignment pattern, in order.
pub type PatternItems = Items<PatternItem>;

/// A dimension of a type or a name (IEEE 1800-2017 A.2.5).
#[derive(Drop)]
#[cycle(expr)]
pub enum Dimension {
    /// `[size]`
    Size {
        /// The `[`.
        opening: u32,
        /// How many elements.
        size: Expr,
        /// The `]`.
        closing: u32,
    },
    /// `[left:right]`
    Range {
        /// The `[`.
        opening: u32,
        /// The left bound.
        left: Expr,
        /// The `:`.
        colon: u32,
        /// The right bound.
        right: Expr,
        /// The `]`.
        closing: u32,
    },
}

/// A step of a path behind a name (IEEE 1800-2017 A.8.4 select).
#[derive(Drop)]
#[cycle(expr)]
pub enum Select {
    /// `.name`
    Member {
        /// The `.`.
        dot: u32,
        /// The member's name.
        name: u32,
    },
    /// `[index]`
    Index {
        /// The `[`.
        opening: u32,
        /// The index.
        index: Expr,
        /// The `]`.
        closing: u32,
    },
    /// `[left:right]`, `[base+:width]` or `[base-:width]`
    Part {
        /// The `[`.
        opening: u32,
        /// The left bound, or the base.
        left: Expr,
        /// What stands between.
        operator: PartOperator,
        /// The operator's token.
        at: u32,
        /// The right bound, or the width.
        right: Expr,
        /// The `]`.
        closing: u32,
    },
}

/// An item on the right of `inside` (IEEE 1800-2017 A.8.3 value_range).
#[derive(Drop)]
#[cycle(expr)]
pub enum ValueRange {
    /// A value.
    Value(Expr),
    /// `[low:high]`
    Range {
        /// The `[`.
        opening: u32,
        /// The low bound.
        low: Expr,
        /// The `:`.
        colon: u32,
        /// The high bound.
        high: Expr,
        /// The `]`.
        closing: u32,
    },
}

/// An item of an assignment pattern (IEEE 1800-2017 A.6.7.1).
#[derive(Drop)]
#[cycle(expr)]
pub enum PatternItem {
    /// `default: value`
    Default {
        /// The word `default`.
        keyword: u32,
        /// The `:`.
        colon: u32,
        /// The value.
        value: Expr,
    },
    /// `key: value`
    Keyed {
        /// A member's name or an index.
        key: Expr,
        /// The `:`.
        colon: u32,
        /// The value.
        value: Expr,
    },
    /// A value in its place.
    Value(Expr),
}

/// What stands between the braces of an assignment pattern (IEEE 1800-2017 A.6.7.1 assignment_pattern).
#[derive(Drop)]
#[cycle(expr)]
pub enum Pattern {
    /// Items, at least one.
    Items(PatternItems),
    /// `count { items }`
    Replication {
        /// How often.
        count: Boxed<Expr>,
        /// The inner `{`.
        opening: u32,
        /// What is repeated, at least one value.
        items: Exprs,
        /// The inner `}`.
        closing: u32,
    },
}

/// What is cast or built to a type that stands before it (IEEE 1800-2017 A.8.4 cast, A.6.7.1).
#[derive(Drop)]
#[cycle(expr)]
pub enum Cast {
    /// `'(value)`
    Value {
        /// The `'`.
        tick: u32,
        /// The `(`.
        opening: u32,
        /// What is cast.
        value: Boxed<Expr>,
        /// The `)`.
        closing: u32,
    },
    /// `'{pattern}`
    Pattern {
        /// The `'`.
        tick: u32,
        /// The `{`.
        opening: u32,
        /// The pattern.
        pattern: Pattern,
        /// The `}`.
        closing: u32,
    },
}

/// How many bits a slice of a stream has (IEEE 1800-2017 A.8.1 slice_size).
#[derive(Drop)]
#[cycle(expr)]
pub enum SliceSize {
    /// A number.
    Decimal {
        /// Its digits.
        digits: u32,
    },
    /// As many as a value of a type that one word names.
    Keyword(KeywordType),
    /// A constant, or as many as a value of a named type.
    Name(QualifiedName),
    /// `(size)`
    Parenthesized {
        /// The `(`.
        opening: u32,
        /// The size.
        value: Boxed<Expr>,
        /// The `)`.
        closing: u32,
    },
}

/// An expression (IEEE 1800-2017 A.8.3 expression and A.8.4 primary), or a type in the place of one.
#[derive(Drop)]
#[cycle(expr)]
pub enum Expr {
    /// `test ? first : second`
    Conditional {
        /// The condition.
        test: Boxed<Expr>,
        /// The `?`.
        question: u32,
        /// The value where the condition is true.
        first: Boxed<Expr>,
        /// The `:`.
        colon: u32,
        /// The value where it is false.
        second: Boxed<Expr>,
    },
    /// An operator between two operands. Operators of one precedence associate to the left.
    Binary {
        /// The operand before the operator.
        left: Boxed<Expr>,
        /// The operator.
        operator: BinaryOperator,
        /// The operator's token.
        at: u32,
        /// The operand behind it.
        right: Boxed<Expr>,
    },
    /// `value inside { ranges }`
    Inside {
        /// The value that is sought.
        value: Boxed<Expr>,
        /// The word `inside`.
        keyword: u32,
        /// The `{`.
        opening: u32,
        /// Where it is sought, at least one item.
        ranges: ValueRanges,
        /// The `}`.
        closing: u32,
    },
    /// An operator before its operand.
    Unary {
        /// The operator.
        operator: UnaryOperator,
        /// The operator's token.
        at: u32,
        /// The operand.
        operand: Boxed<Expr>,
    },
    /// A decimal number.
    Decimal {
        /// Its digits.
        digits: u32,
    },
    /// A size and a based number.
    Sized {
        /// The size.
        size: u32,
        /// The base and the digits.
        digits: u32,
    },
    /// A cast to a number of bits.
    SizeCast {
        /// The number of bits.
        size: u32,
        /// What is cast.
        cast: Boxed<Cast>,
    },
    /// A based number without a size.
    Based {
        /// The base and the digits.
        digits: u32,
    },
    /// A value for every bit, as `'0`.
    Fill {
        /// The value.
        digit: u32,
    },
    /// `(value)`, or a cast to a size that stands so.
    Parenthesized {
        /// The `(`.
        opening: u32,
        /// The value.
        value: Boxed<Expr>,
        /// The `)`.
        closing: u32,
        /// What is cast to it.
        cast: Option<Boxed<Cast>>,
    },
    /// `{count {items}}`
    Replication {
        /// The outer `{`.
        opening: u32,
        /// How often.
        count: Boxed<Expr>,
        /// The inner `{`.
        inner_opening: u32,
        /// What is repeated, at least one value.
        items: Exprs,
        /// The inner `}`.
        inner_closing: u32,
        /// The outer `}`.
        closing: u32,
    },
    /// `{items}`
    Concatenation {
        /// The `{`.
        opening: u32,
        /// The values, at least one, the most significant first.
        items: Exprs,
        /// The `}`.
        closing: u32,
    },
    /// `{<<size{items}}` or `{>>size{items}}` (IEEE 1800-2017 A.8.1 streaming_concatenation).
    Stream {
        /// The outer `{`.
        opening: u32,
        /// The order of the slices.
        operator: StreamOperator,
        /// The operator's token.
        at: u32,
        /// The size of a slice, where it is written.
        size: Option<Boxed<SliceSize>>,
        /// The inner `{`.
        inner_opening: u32,
        /// The values, at least one.
        items: Exprs,
        /// The inner `}`.
        inner_closing: u32,
        /// The outer `}`.
        closing: u32,
    },
    /// `'{pattern}`, of the type that its place gives it.
    Pattern {
        /// The `'`.
        tick: u32,
        /// The `{`.
        opening: u32,
        /// The pattern.
        pattern: Boxed<Pattern>,
        /// The `}`.
        closing: u32,
    },
    /// A type by a word and dimensions, alone or with what is cast to it.
    Type {
        /// The word, with its sign.
        of: KeywordType,
        /// The packed dimensions.
        packed: Dimensions,
        /// What is cast to it.
        cast: Option<Boxed<Cast>>,
    },
    /// A cast to signed or unsigned.
    SigningCast {
        /// Which one.
        signing: Signing,
        /// What is cast.
        cast: Boxed<Cast>,
    },
    /// A call of `$bits`, `$clog2`, `$signed` or `$unsigned`.
    SystemCall {
        /// The function's name.
        name: u32,
        /// The `(`.
        opening: u32,
        /// The argument.
        argument: Boxed<Expr>,
        /// The `)`.
        closing: u32,
    },
    /// A call of a function.
    Call {
        /// The function's name.
        of: QualifiedName,
        /// The `(`.
        opening: u32,
        /// The arguments.
        arguments: Exprs,
        /// The `)`.
        closing: u32,
        /// What is cast to a size that the call gives.
        cast: Option<Boxed<Cast>>,
    },
    /// A name and its selects, of a value or of a type.
    Name {
        /// The name.
        of: QualifiedName,
        /// The selects behind it.
        selects: Selects,
        /// What is cast to the type or the size that it names.
        cast: Option<Boxed<Cast>>,
    },
}
