//! The first and the last token of the parts of a source text, by their numbers among the tree's tokens.

ghost use Rattle.std.specs.Prelude.{◌≡◌, map};
ghost use Rattle.sv_tree.specs.Extents as means;

use crate::declarations::{Declarator, ParameterKeyword};
use crate::expressions::{Cast, Dimension, Dimensions, Expr, Select, Selects};
use crate::items::{DataDeclaration, GenerateBlock, Item};
use crate::names::{Label, NetOrVariable, QualifiedName, Signing};
use crate::processes::Always;
use crate::statements::{CaseKeyword, Lvalue, Stmt, UniquePriority};
use crate::types::{Aggregate, KeywordType, TypeText};

impl Signing {
    /// The word.
    pub fn token(&self) -> u32
        ensures { result ≡ means.signing_token self.now }
    {
        match self {
            Signing::Signed(at) => *at,
            Signing::Unsigned(at) => *at,
        }
    }
}

impl QualifiedName {
    /// The package, or the name where it stands alone.
    pub fn first_token(&self) -> u32
        ensures { result ≡ means.qualified_first self.now }
    {
        match self.scope {
            None => self.name,
            Some(scope) => scope.package,
        }
    }
}

impl KeywordType {
    /// The sign, or the word where it stands alone.
    pub fn last_token(&self) -> u32
        ensures { result ≡ means.keyword_last self.now }
    {
        match self.signing {
            None => self.at,
            Some(signing) => signing.token(),
        }
    }
}

impl Cast {
    /// The closing bracket.
    pub fn last_token(&self) -> u32
        ensures { result ≡ means.last_of_cast self.now }
    {
        match self {
            Cast::Value { closing, .. } => *closing,
            Cast::Pattern { closing, .. } => *closing,
        }
    }
}

impl Dimension {
    /// The `]`.
    pub fn last_token(&self) -> u32
        ensures { result ≡ means.last_of_dimension self.now }
    {
        match self {
            Dimension::Size { closing, .. } => *closing,
            Dimension::Range { closing, .. } => *closing,
        }
    }
}

impl Select {
    /// The member's name or the `]`.
    pub fn last_token(&self) -> u32
        ensures { result ≡ means.last_of_select self.now }
    {
        match self {
            Select::Member { name, .. } => *name,
            Select::Index { closing, .. } => *closing,
            Select::Part { closing, .. } => *closing,
        }
    }
}

/// The last token of dimensions, or the token before them where there are none.
fn last_of_dimensions(before: u32, dimensions: &Dimensions) -> u32
    ensures { result ≡ means.last_of before (map means.last_of_dimension dimensions.now) }
{
    let mut last = before;
    for dimension in dimensions.as_slice() {
        last = dimension.last_token();
    }
    last
}

/// The last token of selects, or the token before them where there are none.
fn last_of_selects(before: u32, selects: &Selects) -> u32
    ensures { result ≡ means.last_of before (map means.last_of_select selects.now) }
{
    let mut last = before;
    for select in selects.as_slice() {
        last = select.last_token();
    }
    last
}

impl Expr {
    /// The first token.
    pub fn first_token(&self) -> u32
        ensures { result ≡ (means.extent_of_expr self.now).first }
    {
        match self {
            Expr::Conditional { test, .. } => test.get().first_token(),
            Expr::Binary { left, .. } => left.get().first_token(),
            Expr::Inside { value, .. } => value.get().first_token(),
            Expr::Unary { at, .. } => *at,
            Expr::Decimal { digits } => *digits,
            Expr::Sized { size, .. } => *size,
            Expr::SizeCast { size, .. } => *size,
            Expr::Based { digits } => *digits,
            Expr::Fill { digit } => *digit,
            Expr::Parenthesized { opening, .. } => *opening,
            Expr::Replication { opening, .. } => *opening,
            Expr::Concatenation { opening, .. } => *opening,
            Expr::Stream { opening, .. } => *opening,
            Expr::Pattern { tick, .. } => *tick,
            Expr::Type { of, .. } => of.at,
            Expr::SigningCast { signing, .. } => signing.token(),
            Expr::SystemCall { name, .. } => *name,
            Expr::Call { of, .. } => of.first_token(),
            Expr::Name { of, .. } => of.first_token(),
        }
    }

    /// The last token.
    pub fn last_token(&self) -> u32
        ensures { result ≡ (means.extent_of_expr self.now).last }
    {
        match self {
            Expr::Conditional { second, .. } => second.get().last_token(),
            Expr::Binary { right, .. } => right.get().last_token(),
            Expr::Inside { closing, .. } => *closing,
            Expr::Unary { operand, .. } => operand.get().last_token(),
            Expr::Decimal { digits } => *digits,
            Expr::Sized { digits, .. } => *digits,
            Expr::SizeCast { cast, .. } => cast.get().last_token(),
            Expr::Based { digits } => *digits,
            Expr::Fill { digit } => *digit,
            Expr::Parenthesized { closing, cast, .. } => match cast {
                None => *closing,
                Some(cast) => cast.get().last_token(),
            },
            Expr::Replication { closing, .. } => *closing,
            Expr::Concatenation { closing, .. } => *closing,
            Expr::Stream { closing, .. } => *closing,
            Expr::Pattern { closing, .. } => *closing,
            Expr::Type { of, packed, cast } => match cast {
                None => last_of_dimensions(of.last_token(), packed),
                Some(cast) => cast.get().last_token(),
            },
            Expr::SigningCast { cast, .. } => cast.get().last_token(),
            Expr::SystemCall { closing, .. } => *closing,
            Expr::Call { closing, cast, .. } => match cast {
                None => *closing,
                Some(cast) => cast.get().last_token(),
            },
            Expr::Name { of, selects, cast } => match cast {
                None => last_of_selects(of.name, selects),
                Some(cast) => cast.get().last_token(),
            },
        }
    }
}

impl Aggregate {
    /// The word.
    pub fn token(&self) -> u32
        ensures { result ≡ means.aggregate_token self.now }
    {
        match self {
            Aggregate::Struct(at) => *at,
            Aggregate::Union(at) => *at,
        }
    }
}

impl Dimension {
    /// The `[`.
    pub fn first_token(&self) -> u32
        ensures { result ≡ means.first_of_dimension self.now }
    {
        match self {
            Dimension::Size { opening, .. } => *opening,
            Dimension::Range { opening, .. } => *opening,
        }
    }
}

impl TypeText {
    /// The first token, if the type has one.
    pub fn first_token(&self) -> Option<u32>
        ensures { result ≡ means.first_of_type self.now }
    {
        match self {
            TypeText::Keyword { of, .. } => Some(of.at),
            TypeText::Structure { aggregate, .. } => Some(aggregate.token()),
            TypeText::Enumeration { keyword, .. } => Some(*keyword),
            TypeText::Named { of, .. } => Some(of.first_token()),
            TypeText::Implicit { signing, packed } => match signing {
                Some(signing) => Some(signing.token()),
                None => match packed.as_slice() {
                    [] => None,
                    [first, ..] => Some(first.first_token()),
                },
            },
        }
    }

    /// The last token, if the type has one.
    pub fn last_token(&self) -> Option<u32>
        ensures { result ≡ means.last_of_type self.now }
    {
        match self {
            TypeText::Keyword { of, packed } => Some(last_of_dimensions(of.last_token(), packed)),
            TypeText::Structure {
                closing,
                packed,
                ..
            } => Some(last_of_dimensions(*closing, packed)),
            TypeText::Enumeration {
                closing,
                packed,
                ..
            } => Some(last_of_dimensions(*closing, packed)),
            TypeText::Named { of, packed } => Some(last_of_dimensions(of.name, packed)),
            TypeText::Implicit { signing, packed } => implicit_last(*signing, packed),
        }
    }
}

/// The last token of a sign and dimensions, if there is one.
fn implicit_last(signing: Option<Signing>, packed: &Dimensions) -> Option<u32>
    ensures { result ≡ means.implicit_last signing packed.now }
{
    match signing {
        Some(signing) => Some(last_of_dimensions(signing.token(), packed)),
        None => match packed.as_slice() {
            [] => None,
            [first, ..] => Some(last_of_dimensions(first.last_token(), packed)),
        },
    }
}

impl Lvalue {
    /// The first token.
    pub fn first_token(&self) -> u32
        ensures { result ≡ means.first_of_lvalue self.now }
    {
        match self {
            Lvalue::Name { name, .. } => *name,
            Lvalue::Concatenation { opening, .. } => *opening,
            Lvalue::Stream { opening, .. } => *opening,
        }
    }
}

impl UniquePriority {
    /// The word.
    pub fn token(&self) -> u32
        ensures { result ≡ means.promise_token self.now }
    {
        match self {
            UniquePriority::Unique(at) => *at,
            UniquePriority::Unique0(at) => *at,
            UniquePriority::Priority(at) => *at,
        }
    }
}

impl CaseKeyword {
    /// The word.
    pub fn token(&self) -> u32
        ensures { result ≡ means.case_token self.now }
    {
        match self {
            CaseKeyword::Case(at) => *at,
            CaseKeyword::Casez(at) => *at,
            CaseKeyword::Casex(at) => *at,
        }
    }
}

/// The name behind an end, or the end where it has none.
fn labelled(end: u32, label: Option<Label>) -> u32
    ensures { result ≡ means.labelled end label }
{
    match label {
        None => end,
        Some(label) => label.name,
    }
}

/// The word before an `if` or a `case`, or that where there is none.
fn promised(promise: Option<UniquePriority>, keyword: u32) -> u32
    ensures { result ≡ means.promised promise keyword }
{
    match promise {
        None => keyword,
        Some(promise) => promise.token(),
    }
}

impl Stmt {
    /// The first token.
    pub fn first_token(&self) -> u32
        ensures { result ≡ (means.extent_of_stmt self.now).first }
    {
        match self {
            Stmt::Block { begin, .. } => *begin,
            Stmt::If {
                promise,
                keyword,
                ..
            } => promised(*promise, *keyword),
            Stmt::Case {
                promise,
                keyword,
                ..
            } => promised(*promise, keyword.token()),
            Stmt::For { keyword, .. } => *keyword,
            Stmt::Break { keyword, .. } => *keyword,
            Stmt::Continue { keyword, .. } => *keyword,
            Stmt::Return { keyword, .. } => *keyword,
            Stmt::Call { of, .. } => of.first_token(),
            Stmt::Assign { target, .. } => target.first_token(),
            Stmt::Postfix { name, .. } => *name,
            Stmt::Prefix { at, .. } => *at,
            Stmt::Empty { semicolon } => *semicolon,
        }
    }

    /// The last token.
    pub fn last_token(&self) -> u32
        ensures { result ≡ (means.extent_of_stmt self.now).last }
    {
        match self {
            Stmt::Block { end, end_label, .. } => labelled(*end, *end_label),
            Stmt::If { body, other, .. } => match other {
                None => body.get().last_token(),
                Some(other) => other.get().body.last_token(),
            },
            Stmt::Case { end, .. } => *end,
            Stmt::For { body, .. } => body.get().last_token(),
            Stmt::Break { semicolon, .. } => *semicolon,
            Stmt::Continue { semicolon, .. } => *semicolon,
            Stmt::Return { semicolon, .. } => *semicolon,
            Stmt::Call { semicolon, .. } => *semicolon,
            Stmt::Assign { semicolon, .. } => *semicolon,
            Stmt::Postfix { semicolon, .. } => *semicolon,
            Stmt::Prefix { semicolon, .. } => *semicolon,
            Stmt::Empty { semicolon } => *semicolon,
        }
    }
}

impl Always {
    /// The word.
    pub fn first_token(&self) -> u32
        ensures { result ≡ (means.extent_of_always self.now).first }
    {
        match self {
            Always::Comb { keyword, .. } => *keyword,
            Always::Latch { keyword, .. } => *keyword,
            Always::Ff { keyword, .. } => *keyword,
            Always::Plain { keyword, .. } => *keyword,
        }
    }

    /// The last token of the statement.
    pub fn last_token(&self) -> u32
        ensures { result ≡ (means.extent_of_always self.now).last }
    {
        match self {
            Always::Comb { body, .. } => body.last_token(),
            Always::Latch { body, .. } => body.last_token(),
            Always::Ff { body, .. } => body.last_token(),
            Always::Plain { body, .. } => body.last_token(),
        }
    }
}

impl ParameterKeyword {
    /// The word.
    pub fn token(&self) -> u32
        ensures { result ≡ means.parameter_token self.now }
    {
        match self {
            ParameterKeyword::Parameter(at) => *at,
            ParameterKeyword::Localparam(at) => *at,
        }
    }
}

impl NetOrVariable {
    /// The word.
    pub fn token(&self) -> u32
        ensures { result ≡ means.net_token self.now }
    {
        match self {
            NetOrVariable::Wire(at) => *at,
            NetOrVariable::Var(at) => *at,
        }
    }
}

/// The first of the names.
fn first_name(declarators: &[Declarator]) -> u32
    ensures { result ≡ means.name_first declarators.now }
{
    match declarators {
        [] => 0,
        [first, ..] => first.name,
    }
}

impl DataDeclaration {
    /// The first token.
    pub fn first_token(&self) -> u32
        ensures { result ≡ means.first_of_data self.now }
    {
        match self.net {
            Some(net) => net.token(),
            None => match self.of.first_token() {
                Some(at) => at,
                None => first_name(self.declarators.as_slice()),
            },
        }
    }
}

impl GenerateBlock {
    /// The first token.
    pub fn first_token(&self) -> u32
        ensures { result ≡ (means.extent_of_generate_block self.now).first }
    {
        match self {
            GenerateBlock::Block { begin, .. } => *begin,
            GenerateBlock::Single(item) => item.get().first_token(),
        }
    }

    /// The last token.
    #[cycle(last)]
    pub fn last_token(&self) -> u32
        ensures { result ≡ (means.extent_of_generate_block self.now).last }
    {
        match self {
            GenerateBlock::Block { end, end_label, .. } => labelled(*end, *end_label),
            GenerateBlock::Single(item) => item.get().last_token(),
        }
    }
}

impl Item {
    /// The first token.
    pub fn first_token(&self) -> u32
        ensures { result ≡ (means.extent_of_item self.now).first }
    {
        match self {
            Item::Parameters(declaration) => declaration.keyword.token(),
            Item::Typedef(declaration) => declaration.keyword,
            Item::Import(import) => import.keyword,
            Item::Function(function) => function.keyword,
            Item::Task(task) => task.keyword,
            Item::Data(declaration) => declaration.first_token(),
            Item::Genvars(declaration) => declaration.keyword,
            Item::Assign(assign) => assign.keyword,
            Item::Always(always) => always.first_token(),
            Item::Generate { keyword, .. } => *keyword,
            Item::LoopGenerate { keyword, .. } => *keyword,
            Item::IfGenerate { keyword, .. } => *keyword,
            Item::CaseGenerate { keyword, .. } => *keyword,
            Item::Modports(declaration) => declaration.keyword,
            Item::Instances(instantiation) => instantiation.of,
            Item::Empty { semicolon } => *semicolon,
        }
    }

    /// The last token.
    #[cycle(last)]
    pub fn last_token(&self) -> u32
        ensures { result ≡ (means.extent_of_item self.now).last }
    {
        match self {
            Item::Parameters(declaration) => declaration.semicolon,
            Item::Typedef(declaration) => declaration.semicolon,
            Item::Import(import) => import.semicolon,
            Item::Function(function) => labelled(function.end, function.end_label),
            Item::Task(task) => labelled(task.end, task.end_label),
            Item::Data(declaration) => declaration.semicolon,
            Item::Genvars(declaration) => declaration.semicolon,
            Item::Assign(assign) => assign.semicolon,
            Item::Always(always) => always.last_token(),
            Item::Generate { end, .. } => *end,
            Item::LoopGenerate { body, .. } => body.get().last_token(),
            Item::IfGenerate { body, other, .. } => match other {
                None => body.get().last_token(),
                Some(other) => other.get().body.last_token(),
            },
            Item::CaseGenerate { end, .. } => *end,
            Item::Modports(declaration) => declaration.semicolon,
            Item::Instances(instantiation) => instantiation.semicolon,
            Item::Empty { semicolon } => *semicolon,
        }
    }
}
