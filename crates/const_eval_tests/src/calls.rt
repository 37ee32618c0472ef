//! Results of functions, called alone and in expressions.

use crate::routines::functions_of;
use crate::runs::{environment, text_of, text_of_fail};
use b4_core::BinOp;
use const_eval::{Env, run_function, value};
use expr_fits::fits_alone;
use run_fits::{all_can_run, can_run};
use std::alloc::{AllocError, Global};
use std::process::Abort;
use std::test::Fail;
use sv_types::{Expr, Functions, Value, Values};
use tree_words::Word::{Binary, Bits, Call, Signal, Vector};
use tree_words::{Word, bits, expression};

// The arguments of a function of vectors, separated by spaces.
fn arguments(alloc: Global, text: &str) -> Result<Values, AllocError> {
    let mut values = Vec::new(alloc);
    for word in text.split(' ') {
        if !word.is_empty() {
            values.push(Value::Bits(bits(alloc, word)?))?;
        }
    }
    Ok(Values::from_vec(values))
}

fn text_of_result(
    alloc: Global,
    functions: &Functions,
    function: usize,
    args: &str,
    env: &Env,
) -> Result<String, AllocError> {
    let args = arguments(alloc, args)?;
    if !all_can_run(functions.as_slice()) || function >= functions.len() {
        return format!(in alloc; "functions");
    }
    let f = &functions.as_slice()[function];
    if !can_run(f, functions.as_slice()) || args.len() != f.formals.len() {
        return format!(in alloc; "arguments");
    }
    match run_function(alloc, f, &args, functions, env) {
        Ok(v) => text_of(alloc, &v),
        Err(fail) => text_of_fail(alloc, fail),
    }
}

fn text_of_value(
    alloc: Global,
    e: &Expr,
    functions: &Functions,
    env: &Env,
) -> Result<String, AllocError> {
    if !all_can_run(functions.as_slice()) {
        return format!(in alloc; "functions");
    }
    if !fits_alone(e, functions.as_slice()) {
        return format!(in alloc; "expression");
    }
    match value(alloc, e, functions, env) {
        Ok(v) => text_of(alloc, &v),
        Err(fail) => text_of_fail(alloc, fail),
    }
}

// A function, its arguments, how many statements may run, and its result.
const RESULTS: &[(usize, &str, Option<u64>, &str)] = &[
    (0, "0011 0110", None, "[1001]"),
    (0, "0011 01x0", None, "[xxxx]"),
    (1, "", None, "[00001001]"),
    (1, "", Some(30), "turns 77"),
    (2, "", None, "turns 77"),
    (4, "0101", None, "[1111]"),
    (5, "1010", None, "[xxxx1010]"),
    (6, "", None, "held 56"),
];

#[test]
fn results(rt: HostRuntime) -> Result<(), Fail> {
    let alloc = rt.alloc();
    let functions = functions_of(alloc)?;
    let mut env = environment(alloc, &["00000000"])?;
    for (function, args, budget, wanted) in RESULTS {
        env.budget = *budget;
        let text = text_of_result(alloc, &functions, *function, args, &env)?;
        assert_eq!(rt; text.as_bytes(), wanted.as_bytes());
    }
    Ok(())
}

// An expression with calls, and its value.
const VALUES: &[(&[Word], &str)] = &[
    // sum(3, 6)
    (
        &[Vector(3, 0), Bits("0011"), Bits("0110"), Call(0, 2)],
        "[1001]",
    ),
    // an argument is cut to its formal
    (
        &[Vector(3, 0), Bits("11110011"), Bits("0110"), Call(0, 2)],
        "[1001]",
    ),
    // a sum of five bits as argument, whose carry is lost
    (
        &[
            Vector(3, 0),
            Bits("1111"),
            Bits("0001"),
            Binary(BinOp::Add),
            Bits("0110"),
            Call(0, 2),
        ],
        "[0110]",
    ),
    // x and z are 0 in a two-state formal
    (&[Vector(7, 0), Bits("1x1z"), Call(5, 1)], "[xxxx1010]"),
    // a call as operand of eight bits
    (
        &[
            Vector(3, 0),
            Bits("0101"),
            Call(4, 1),
            Bits("00000001"),
            Binary(BinOp::Add),
        ],
        "[00010000]",
    ),
    // an argument that isn't held
    (
        &[
            Vector(3, 0),
            Vector(3, 0),
            Signal(3),
            Bits("0110"),
            Call(0, 2),
        ],
        "held 1",
    ),
    (&[Vector(7, 0), Call(6, 0)], "held 56"),
];

#[test]
fn values(rt: HostRuntime) -> Result<(), Fail> {
    let alloc = rt.alloc();
    let functions = functions_of(alloc)?;
    let env = environment(alloc, &["00000000"])?;
    for (words, wanted) in VALUES {
        let e = expression(alloc, words)?;
        let text = text_of_value(alloc, &e, &functions, &env)?;
        assert_eq!(rt; text.as_bytes(), wanted.as_bytes());
    }
    Ok(())
}
