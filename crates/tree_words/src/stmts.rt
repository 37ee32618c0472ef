//! The part of the stack machine that makes statements and functions.

use crate::exprs::{Stack, last, last_type, put, several, spot};
use crate::words::Word;
use b4_core::{BinOp, OrdOp};
use pairs::both;
use std::alloc::{AllocError, Global};
use sv_source::{Boxed, Text};
use sv_types::{
    CaseItem, CaseItems, CaseKind, Expr, Exprs, Formal, Formals, Function, FunctionKind, Functions,
    Local, Locals, Stmt, Stmts, Way,
};

// What was made: types and expressions, what waits for its block or function, statements and functions.
#[derive(Drop)]
struct Made {
    stack: Stack,
    locals: Vec<Local>,
    formals: Vec<Formal>,
    stmts: Vec<Stmt>,
    functions: Functions,
}

impl Made {
    fn new(alloc: Global) -> Made {
        Made {
            stack: Stack::new(alloc),
            locals: Vec::new(alloc),
            formals: Vec::new(alloc),
            stmts: Vec::new(alloc),
            functions: Functions::new(alloc),
        }
    }
}

// The last statement; an empty block where there is none.
fn last_stmt(alloc: Global, made: &mut Made) -> Stmt {
    match made.stmts.pop() {
        Some(s) => s,
        None => Stmt::Block {
            locals: Locals::new(alloc),
            body: Stmts::new(alloc),
        },
    }
}

fn boxed(alloc: Global, made: &mut Made) -> Result<Boxed<Stmt>, AllocError> {
    Boxed::new(alloc, last_stmt(alloc, made))
}

fn perhaps(alloc: Global, made: &mut Made, there: bool) -> Result<Option<Boxed<Stmt>>, AllocError> {
    if there {
        Ok(Some(boxed(alloc, made)?))
    } else {
        Ok(None)
    }
}

// The last `count` statements in the order in which they were made.
fn several_stmts(alloc: Global, made: &mut Made, count: u32) -> Result<Stmts, AllocError> {
    let mut taken = Vec::new(alloc);
    for _i in 0..count {
        taken.push(last_stmt(alloc, made))?;
    }
    taken.reverse();
    Ok(Stmts::from_vec(taken))
}

fn block(alloc: Global, made: &mut Made, count: u32) -> Result<Stmt, AllocError> {
    let body = several_stmts(alloc, made, count)?;
    let locals = std::mem::replace(&mut made.locals, Vec::new(alloc));
    Ok(Stmt::Block {
        locals: Locals::from_vec(locals),
        body,
    })
}

fn replaced(alloc: Global, made: &mut Made, count: u32, there: bool) -> Result<Stmt, AllocError> {
    let (body, before) = {
        let body = perhaps(alloc, made, there);
        let before = several_stmts(alloc, made, count);
        both(body, before)?
    };
    let locals = std::mem::replace(&mut made.locals, Vec::new(alloc));
    Ok(Stmt::Made {
        locals: Locals::from_vec(locals),
        before,
        body,
    })
}

fn conditional(alloc: Global, made: &mut Made, other: bool) -> Result<Stmt, AllocError> {
    let (other, body) = {
        let other = perhaps(alloc, made, other);
        let body = boxed(alloc, made);
        both(other, body)?
    };
    Ok(Stmt::If {
        on: last(alloc, &mut made.stack),
        body,
        other,
    })
}

fn item(body: Stmt, values: Result<Exprs, AllocError>) -> Result<CaseItem, AllocError> {
    let (values, body) = both(values, Ok(body))?;
    Ok(CaseItem { values, body })
}

// The items of a `case`: for each digit of `counts` so many values and a statement.
fn items(alloc: Global, made: &mut Made, counts: &str) -> Result<CaseItems, AllocError> {
    let mut taken = Vec::new(alloc);
    for count in counts.bytes().rev() {
        let body = last_stmt(alloc, made);
        let values = several(alloc, &mut made.stack, u32::from(count % 16));
        taken.push(item(body, values)?)?;
    }
    taken.reverse();
    Ok(CaseItems::from_vec(taken))
}

fn case(
    alloc: Global,
    made: &mut Made,
    kind: CaseKind,
    counts: &str,
    other: bool,
) -> Result<Stmt, AllocError> {
    let (other, items) = {
        let other = perhaps(alloc, made, other);
        let items = items(alloc, made, counts);
        both(other, items)?
    };
    Ok(Stmt::Case {
        kind,
        on: last(alloc, &mut made.stack),
        items,
        other,
    })
}

fn counted(alloc: Global, made: &mut Made, local: u32) -> Result<Stmt, AllocError> {
    let body = boxed(alloc, made)?;
    let step = last(alloc, &mut made.stack);
    let test = last(alloc, &mut made.stack);
    Ok(Stmt::Loop {
        local,
        first: last(alloc, &mut made.stack),
        test,
        step,
        body,
        spot: spot(alloc, 0),
    })
}

fn assignment(
    alloc: Global,
    to: Result<Exprs, AllocError>,
    value: Expr,
    later: bool,
) -> Result<Stmt, AllocError> {
    let (to, value) = both(to, Ok(value))?;
    Ok(Stmt::Assign {
        to,
        value,
        later,
        spot: spot(alloc, 0),
    })
}

fn assign(alloc: Global, made: &mut Made, count: u32, later: bool) -> Result<Stmt, AllocError> {
    let value = last(alloc, &mut made.stack);
    let to = several(alloc, &mut made.stack, count);
    assignment(alloc, to, value, later)
}

fn task(alloc: Global, made: &mut Made, function: u32, count: u32) -> Result<Stmt, AllocError> {
    let actuals = several(alloc, &mut made.stack, count)?;
    Ok(Stmt::Call {
        function,
        actuals,
        spot: spot(alloc, 0),
    })
}

fn local(made: &mut Made, number: u32, initial: Option<Expr>) -> Result<(), AllocError> {
    let of = last_type(&mut made.stack);
    made.locals.push(Local {
        number,
        of,
        initial,
    })?;
    Ok(())
}

fn start(alloc: Global, made: &mut Made, number: u32) -> Result<(), AllocError> {
    let initial = last(alloc, &mut made.stack);
    local(made, number, Some(initial))
}

fn formal(alloc: Global, made: &mut Made, number: u32, way: Way) -> Result<(), AllocError> {
    let of = last_type(&mut made.stack);
    made.formals.push(Formal {
        local: Local {
            number,
            of,
            initial: None,
        },
        way,
        spot: spot(alloc, 0),
    })?;
    Ok(())
}

fn function(alloc: Global, made: &mut Made) -> Result<(), AllocError> {
    let formals = std::mem::replace(&mut made.formals, Vec::new(alloc));
    let body = last_stmt(alloc, made);
    let of = last_type(&mut made.stack);
    made.functions.push(Function {
        instance: 1,
        path: Text::new(alloc),
        spot: spot(alloc, 77),
        kind: FunctionKind::Plain,
        of,
        formals: Formals::from_vec(formals),
        body,
    })
}

// Puts words of expressions.
fn put_each(alloc: Global, made: &mut Made, words: &[Word]) -> Result<(), AllocError> {
    for word in words {
        put(alloc, &mut made.stack, *word)?;
    }
    Ok(())
}

fn set(alloc: Global, made: &mut Made, n: u32, bits: &'static str) -> Result<Stmt, AllocError> {
    put_each(
        alloc,
        made,
        &[Word::Vector(7, 0), Word::Signal(n), Word::Bits(bits)],
    )?;
    assign(alloc, made, 1, false)
}

fn more(alloc: Global, made: &mut Made, n: u32) -> Result<Stmt, AllocError> {
    put_each(
        alloc,
        made,
        &[
            Word::Vector(7, 0),
            Word::Signal(n),
            Word::Vector(7, 0),
            Word::Signal(n),
            Word::Bits("00000001"),
            Word::Binary(BinOp::Add),
        ],
    )?;
    assign(alloc, made, 1, false)
}

fn upto(alloc: Global, made: &mut Made, n: u32, limit: &'static str) -> Result<(), AllocError> {
    put_each(
        alloc,
        made,
        &[
            Word::Int,
            Word::Constant("00000000000000000000000000000000"),
            Word::Int,
            Word::Local(n),
            Word::Signed(limit),
            Word::Order(OrdOp::Less),
            Word::Int,
            Word::Local(n),
            Word::Signed("00000000000000000000000000000001"),
            Word::Binary(BinOp::Add),
        ],
    )
}

fn push(made: &mut Made, s: Result<Stmt, AllocError>) -> Result<(), AllocError> {
    made.stmts.push(s?)?;
    Ok(())
}

fn put_stmt(alloc: Global, made: &mut Made, word: Word) -> Result<(), AllocError> {
    let s = match word {
        Word::Block(count) => block(alloc, made, count),
        Word::Made(count, there) => replaced(alloc, made, count, there),
        Word::If(other) => conditional(alloc, made, other),
        Word::Case(kind, counts, other) => case(alloc, made, kind, counts, other),
        Word::Loop(local) => counted(alloc, made, local),
        Word::Assign(count, later) => assign(alloc, made, count, later),
        Word::Task(f, count) => task(alloc, made, f, count),
        Word::Set(n, bits) => set(alloc, made, n, bits),
        Word::More(n) => more(alloc, made, n),
        Word::Break => Ok(Stmt::Break),
        Word::Continue => Ok(Stmt::Continue),
        Word::Return => Ok(Stmt::Return),
        _ => return put(alloc, &mut made.stack, word),
    };
    push(made, s)
}

fn put_part(alloc: Global, made: &mut Made, word: Word) -> Result<(), AllocError> {
    match word {
        Word::Declare(number) => local(made, number, None),
        Word::Start(number) => start(alloc, made, number),
        Word::Upto(n, limit) => upto(alloc, made, n, limit),
        Word::Formal(number, way) => formal(alloc, made, number, way),
        Word::Function => function(alloc, made),
        _ => put_stmt(alloc, made, word),
    }
}

fn made_of(alloc: Global, words: &[Word]) -> Result<Made, AllocError> {
    let mut made = Made::new(alloc);
    for word in words {
        put_part(alloc, &mut made, *word)?;
    }
    Ok(made)
}

/// The last statement that words make.
pub fn statement(alloc: Global, words: &[Word]) -> Result<Stmt, AllocError> {
    let mut made = made_of(alloc, words)?;
    Ok(last_stmt(alloc, &mut made))
}

/// The functions that words make.
pub fn functions(alloc: Global, words: &[Word]) -> Result<Functions, AllocError> {
    let made = made_of(alloc, words)?;
    Ok(made.functions)
}
