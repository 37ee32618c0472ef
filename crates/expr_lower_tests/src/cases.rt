//! The texts that expressions are lowered to.

use crate::calls::{CALLS, FUNCTIONS};
use crate::designs::{ARITHMETIC, DESIGNS, SELECTS};
use crate::flattened::flattened_text;
use crate::forms::{CASTS, OPERATORS};
use crate::lowered::{names, text_of};
use crate::memories::WORDS;
use crate::paths::{BASES, INDICES, STEPS};
use crate::targets::{KNOWN, OTHERS};
use crate::written::targets_of;
use std::alloc::{AllocError, Global};
use std::test::Fail;
use sv_types::Function;
use tree_words::{Word, expression, functions};

/// Expressions in words, with the bits of an unsigned context and the text that is wanted.
type Rows = &'static [(&'static [Word], u32, &'static str)];

/// Tables of expressions that call nothing.
const TABLES: [Rows; 9] = [
    STEPS, INDICES, BASES, WORDS, OPERATORS, CASTS, DESIGNS, SELECTS, ARITHMETIC,
];

/// The place of the first expression that has another text.
fn first_wrong(
    alloc: Global,
    functions: &[Function],
    table: Rows,
) -> Result<Option<usize>, AllocError> {
    let names = names(alloc)?;
    for (i, (words, width, wanted)) in table.iter().enumerate() {
        let e = expression(alloc, words)?;
        let text = text_of(alloc, &names, functions, &e, *width)?;
        if text.as_bytes() != wanted.as_bytes() {
            return Ok(Some(i));
        }
    }
    Ok(None)
}

/// The place of the first path that has other targets.
fn first_wrong_target(
    alloc: Global,
    table: &[(&[Word], &str)],
) -> Result<Option<usize>, AllocError> {
    for (i, (words, wanted)) in table.iter().enumerate() {
        let e = expression(alloc, words)?;
        let text = targets_of(alloc, &e)?;
        if text.as_bytes() != wanted.as_bytes() {
            return Ok(Some(i));
        }
    }
    Ok(None)
}

/// The place of the first path that has another text where its indices are lowered before.
fn first_wrong_path(alloc: Global, table: Rows) -> Result<Option<usize>, AllocError> {
    for (i, (words, _, wanted)) in table.iter().enumerate() {
        let e = expression(alloc, words)?;
        let text = flattened_text(alloc, &e)?;
        if text.as_bytes() != wanted.as_bytes() {
            return Ok(Some(i));
        }
    }
    Ok(None)
}

#[test]
fn expressions(rt: HostRuntime) -> Result<(), Fail> {
    for (k, table) in TABLES.iter().enumerate() {
        let wrong = first_wrong(rt.alloc(), &[], *table)?;
        assert_eq!(rt; (k, wrong), (k, None));
    }
    Ok(())
}

#[test]
fn calls(rt: HostRuntime) -> Result<(), Fail> {
    let called = functions(rt.alloc(), FUNCTIONS)?;
    assert_eq!(rt; first_wrong(rt.alloc(), called.as_slice(), CALLS)?, None);
    Ok(())
}

#[test]
fn flattened_paths(rt: HostRuntime) -> Result<(), Fail> {
    for table in [STEPS, INDICES, BASES, WORDS, SELECTS] {
        assert_eq!(rt; first_wrong_path(rt.alloc(), table)?, None);
    }
    Ok(())
}

#[test]
fn targets(rt: HostRuntime) -> Result<(), Fail> {
    for table in [KNOWN, OTHERS] {
        assert_eq!(rt; first_wrong_target(rt.alloc(), table)?, None);
    }
    Ok(())
}
