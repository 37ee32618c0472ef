//! Runs of statements.

use crate::routines::functions_of;
use crate::runs::{environment, text_of_fail};
use crate::stmt_tables::{ASSIGNMENTS, BRANCHES, LOOPS, STOPS, TURNS};
use b4_core::Vec4;
use const_eval::{Env, Update, run_stmt};
use eval_parts::Root;
use run_fits::{all_can_run, stmt_fits};
use std::alloc::{AllocError, Global};
use std::process::Abort;
use std::test::Fail;
use sv_types::{Functions, Outcome, Stmt};
use tree_words::{Word, put_bits, statement};

// Signals by number, the most significant bit first.
const SIGNALS: &[&str] = &[
    "00000000",
    "00000000",
    "xxxxxxxx",
    "0000",
    "0001001000110100",
    "0000",
];

// Writes a bit of a signal, if both are there.
fn put_bit(signal: &mut Option<Vec4>, at: usize, from: &Vec4, k: i128) {
    if let Some(v) = signal {
        if at < v.len() && k >= 0 && k < from.len() as i128 {
            let b = from.at(k as usize);
            v.put(at, b);
        }
    }
}

// Writes an update.
fn write(update: &Update, signals: &mut Vec<Option<Vec4>>) {
    if let Root::Signal(n) = update.to.root {
        let window = update.to.window;
        for at in window.low..window.high {
            if (n as usize) < signals.len() && window.shift > -1000 && window.shift < 1000 {
                let k = i128::from(at) - window.shift;
                put_bit(&mut signals[n as usize], at as usize, &update.bits, k);
            }
        }
    }
}

fn text_of_signal(alloc: Global, signal: &Option<Vec4>) -> Result<String, AllocError> {
    let mut text = String::new(alloc);
    if let Some(v) = signal {
        put_bits(v, &mut text)?;
    }
    Ok(text)
}

// What each signal holds.
fn texts(alloc: Global, signals: &[Option<Vec4>]) -> Result<Vec<String>, AllocError> {
    let mut texts = Vec::new(alloc);
    for signal in signals {
        texts.push(text_of_signal(alloc, signal)?)?;
    }
    Ok(texts)
}

// Puts the signals that changed, each with its number.
fn put_changed(
    alloc: Global,
    old: &[String],
    new: &[String],
    to: &mut String,
) -> Result<(), AllocError> {
    for (n, (old, new)) in old.iter().zip(new.iter()).enumerate() {
        if old.as_bytes() != new.as_bytes() {
            let changed = format!(in alloc; " {n}:{new}")?;
            to.push_str(&changed)?;
        }
    }
    Ok(())
}

// How a run ended, the signals that it changed, and those that change as what is pending is written.
fn ended(
    alloc: Global,
    outcome: Outcome,
    before: &[String],
    env: &mut Env,
) -> Result<String, AllocError> {
    let mut text = format!(in alloc;
        "{}",
        match outcome {
            Outcome::Normal => "Normal",
            Outcome::Break => "Break",
            Outcome::Continue => "Continue",
            Outcome::Return => "Return",
        }
    )?;
    let run = texts(alloc, &env.signals)?;
    put_changed(alloc, before, &run, &mut text)?;
    text.push_str(" /")?;
    for update in &env.pending {
        write(update, &mut env.signals);
    }
    let written = texts(alloc, &env.signals)?;
    put_changed(alloc, &run, &written, &mut text)?;
    Ok(text)
}

fn run(
    alloc: Global,
    s: &Stmt,
    functions: &Functions,
    env: &mut Env,
) -> Result<String, AllocError> {
    if !all_can_run(functions.as_slice()) {
        return format!(in alloc; "functions");
    }
    if !stmt_fits(s, functions.as_slice(), &env.signals) {
        return format!(in alloc; "statement");
    }
    let before = texts(alloc, &env.signals)?;
    match run_stmt(alloc, s, functions, env) {
        Ok(outcome) => ended(alloc, outcome, &before, env),
        Err(fail) => text_of_fail(alloc, fail),
    }
}

fn text_of_run(
    alloc: Global,
    words: &[Word],
    functions: &Functions,
    budget: Option<u64>,
) -> Result<String, AllocError> {
    let s = statement(alloc, words)?;
    let mut env = environment(alloc, SIGNALS)?;
    env.budget = budget;
    run(alloc, &s, functions, &mut env)
}

// The place of the first statement that leaves something else.
fn first_wrong(alloc: Global, table: &[(&[Word], &str)]) -> Result<Option<usize>, AllocError> {
    let functions = functions_of(alloc)?;
    for (i, (words, wanted)) in table.iter().enumerate() {
        let text = text_of_run(alloc, words, &functions, None)?;
        if text.as_bytes() != wanted.as_bytes() {
            return Ok(Some(i));
        }
    }
    Ok(None)
}

#[test]
fn assignments(rt: HostRuntime) -> Result<(), Fail> {
    assert_eq!(rt; first_wrong(rt.alloc(), ASSIGNMENTS)?, None);
    Ok(())
}

#[test]
fn branches(rt: HostRuntime) -> Result<(), Fail> {
    assert_eq!(rt; first_wrong(rt.alloc(), BRANCHES)?, None);
    Ok(())
}

#[test]
fn loops(rt: HostRuntime) -> Result<(), Fail> {
    assert_eq!(rt; first_wrong(rt.alloc(), LOOPS)?, None);
    Ok(())
}

#[test]
fn turns(rt: HostRuntime) -> Result<(), Fail> {
    assert_eq!(rt; first_wrong(rt.alloc(), TURNS)?, None);
    Ok(())
}

#[test]
fn stops(rt: HostRuntime) -> Result<(), Fail> {
    let alloc = rt.alloc();
    let functions = functions_of(alloc)?;
    for (words, budget, wanted) in STOPS {
        let text = text_of_run(alloc, words, &functions, *budget)?;
        assert_eq!(rt; text.as_bytes(), wanted.as_bytes());
    }
    Ok(())
}
