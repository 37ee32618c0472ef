//! The names and literals that items of a module use, in the order of the text.

ghost use Rattle.std.specs.Prelude.{◌≡◌, ◌++◌, ◌∷◌, [], ◌≤◌, ◌<◌, ◌+◌, map, OnOk, IfOk, MatchOption, nat_le};
ghost use Rattle.sv2v_top.specs.source.Statements.{used, primary_uses, expr_uses, primary_literals, expr_literals, parts, sequence, assignment, item_parts};

use built_forms::{Assign, Expr, Item, Operand, Primary, Stmt};
use std::alloc::{AllocError, Global};
use sv_source::{Items, Spot};

/// What a name is used for.
#[derive(Clone, Copy)]
pub enum Role {
    /// It is assigned to.
    Target,
    /// It is read by an expression.
    Read,
    /// It is the clock of an edge process.
    Clock,
}

/// A use of a name.
#[derive(Drop)]
pub struct Use {
    /// What it is used for.
    pub role: Role,
    /// The name.
    pub name: Spot,
}

/// A literal, as it is written.
#[derive(Drop)]
pub struct Literal {
    /// Its size.
    pub size: Spot,
    /// Its base and its digits.
    pub digits: Spot,
}

/// Uses in the order of the text.
pub type Uses = Items<Use>;

/// Literals in the order of the text.
pub type Literals = Items<Literal>;

/// What stands in statements.
#[derive(Drop)]
pub struct Found {
    /// The names.
    pub names: Uses,
    /// The literals.
    pub literals: Literals,
}

/// A copy of a spot.
fn copied(alloc: Global, spot: &Spot) -> Result<Spot, AllocError>
    ensures { IfOk result (λ s. s ≡ spot.now) }
{
    Ok(Spot {
        at: spot.at,
        place: spot.place,
        word: spot.word.copy(alloc)?,
    })
}

impl Found {
    /// Nothing.
    fn new(alloc: Global) -> Found
        ensures names { result.names ≡ [] }
        ensures literals { result.literals ≡ [] }
    {
        Found {
            names: Items::new(alloc),
            literals: Items::new(alloc),
        }
    }

    /// Adds the use of a name.
    fn add_name(&mut self, alloc: Global, role: Role, name: &Spot) -> Result<(), AllocError>
        ensures names { OnOk result (self.new.names ≡ self.old.names ++ used role name.now ∷ []) }
        ensures literals { self.new.literals ≡ self.old.literals }
    {
        let name = copied(alloc, name)?;
        self.names.push(Use { role, name })
    }

    /// Adds what an operand has.
    fn add_operand(&mut self, alloc: Global, operand: &Operand) -> Result<(), AllocError>
        ensures names { OnOk result (self.new.names ≡ self.old.names ++ primary_uses operand.now.primary) }
        ensures literals { OnOk result (self.new.literals ≡ self.old.literals ++ primary_literals operand.now.primary) }
    {
        match &operand.primary {
            Primary::Name(name) => self.add_name(alloc, Role::Read, name),
            Primary::Literal { size, digits } => {
                let size = copied(alloc, size)?;
                let digits = copied(alloc, digits)?;
                self.literals.push(Literal { size, digits })
            }
        }
    }

    /// Adds what an expression has.
    fn add_expr(&mut self, alloc: Global, value: &Expr) -> Result<(), AllocError>
        ensures names { OnOk result (self.new.names ≡ self.old.names ++ expr_uses value.now) }
        ensures literals { OnOk result (self.new.literals ≡ self.old.literals ++ expr_literals value.now) }
    {
        match value {
            Expr::Single(operand) => self.add_operand(alloc, operand),
            Expr::Binary { left, right, .. } => {
                self.add_operand(alloc, left)?;
                self.add_operand(alloc, right)
            }
        }
    }

    /// Adds what an assignment has.
    fn add_assign(&mut self, alloc: Global, assign: &Assign) -> Result<(), AllocError>
        ensures names { OnOk result (self.new.names ≡ self.old.names ++ (assignment assign.now).names) }
        ensures literals { OnOk result (self.new.literals ≡ self.old.literals ++ (assignment assign.now).literals) }
    {
        self.add_name(alloc, Role::Target, &assign.target)?;
        self.add_expr(alloc, &assign.value)
    }

    /// Adds what a statement has.
    #[cycle(add)]
    #[tactic(auto, using(crate::proofs::Levels::levels))]
    fn add_stmt(&mut self, alloc: Global, stmt: &Stmt) -> Result<(), AllocError>
        ensures names { OnOk result (self.new.names ≡ self.old.names ++ (parts stmt.now).names) }
        ensures literals { OnOk result (self.new.literals ≡ self.old.literals ++ (parts stmt.now).literals) }
    {
        match stmt {
            Stmt::Block(statements) => self.add_stmts(alloc, statements.as_slice()),
            Stmt::If { on, body, other } => {
                self.add_expr(alloc, on)?;
                self.add_stmt(alloc, body.get())?;
                match other {
                    Some(other) => self.add_stmt(alloc, other.get()),
                    None => Ok(()),
                }
            }
            Stmt::Assign(assign) => self.add_assign(alloc, assign),
        }
    }

    /// Adds what statements have.
    #[cycle(add)]
    #[tactic(auto, using(crate::proofs::Levels::levels))]
    fn add_stmts(&mut self, alloc: Global, statements: &[Stmt]) -> Result<(), AllocError>
        ensures names { OnOk result (self.new.names ≡ self.old.names ++ (sequence (map parts statements.now)).names) }
        ensures literals { OnOk result (self.new.literals ≡ self.old.literals ++ (sequence (map parts statements.now)).literals) }
    {
        for stmt in statements {
            self.add_stmt(alloc, stmt)?;
        }
        Ok(())
    }
}

/// What an item has.
pub fn find_in(alloc: Global, item: &Item) -> Result<Found, AllocError>
    ensures names { IfOk result (λ f. f.names ≡ (item_parts item.now).names) }
    ensures literals { IfOk result (λ f. f.literals ≡ (item_parts item.now).literals) }
{
    let mut found = Found::new(alloc);
    match item {
        Item::Assign(assign) => found.add_assign(alloc, assign)?,
        Item::Logic(_) => {}
        Item::Comb(body) => found.add_stmt(alloc, body)?,
        Item::Edge { clock, body } => {
            found.add_name(alloc, Role::Clock, clock)?;
            found.add_stmt(alloc, body)?;
        }
    }
    Ok(found)
}

/// The statements that may still come where so many may, if this one has no more.
#[cycle(count)]
#[tactic(auto, using(crate::proofs::Levels::levels))]
fn left_behind(stmt: &Stmt, left: u32) -> Option<u32>
    ensures { MatchOption result (left < (parts stmt.now).count) (λ n. n + (parts stmt.now).count ≡ left) }
{
    match stmt {
        Stmt::Block(statements) => left_behind_all(statements.as_slice(), left.checked_sub(1)?),
        Stmt::If { body, other, .. } => {
            let left = left_behind(body.get(), left.checked_sub(1)?)?;
            match other {
                Some(other) => left_behind(other.get(), left),
                None => Some(left),
            }
        }
        Stmt::Assign(_) => left.checked_sub(1),
    }
}

/// The same for several statements.
#[cycle(count)]
#[tactic(auto, using(crate::proofs::Levels::levels))]
fn left_behind_all(statements: &[Stmt], left: u32) -> Option<u32>
    ensures { MatchOption result (left < (sequence (map parts statements.now)).count) (λ n. n + (sequence (map parts statements.now)).count ≡ left) }
{
    let mut remaining = left;
    for stmt in statements {
        remaining = left_behind(stmt, remaining)?;
    }
    Some(remaining)
}

/// Whether an item has at most so many statements.
pub fn has_at_most(item: &Item, limit: u32) -> bool
    requires { 1 ≤ limit }
    ensures { result ≡ nat_le (item_parts item.now).count limit }
{
    match item {
        Item::Assign(_) | Item::Logic(_) => true,
        Item::Comb(body) => left_behind(body, limit).is_some(),
        Item::Edge { body, .. } => left_behind(body, limit).is_some(),
    }
}
