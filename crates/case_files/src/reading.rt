// The cases of a case file.
use crate::Case;
use std::alloc::{AllocError, Global};
use std::{fs, io};

/// Why a case file isn't read.
#[derive(Debug, Drop)]
pub enum CaseFault {
    /// Want of memory.
    Memory,
    /// The line with this number, counted from 1, isn't of the form.
    Line(usize),
}

impl From<AllocError> for CaseFault {
    fn from(_: AllocError) -> CaseFault {
        CaseFault::Memory
    }
}

/// Takes one line, and answers whether it is of the form.
fn add_line(alloc: Global, cases: &mut Vec<Case>, line: &str) -> Result<bool, AllocError> {
    if let Some(name) = line.strip_prefix("case ") {
        cases.push(Case::named(alloc, name)?)?;
        return Ok(true);
    }
    match cases.last_mut() {
        Some(case) => case.add(alloc, line),
        None => Ok(line.is_empty() || line.starts_with('#')),
    }
}

/// The cases of a case file in their order, or the first line that isn't of the form.
pub fn read_cases(alloc: Global, text: &str) -> Result<Vec<Case>, CaseFault> {
    let mut cases = Vec::new(alloc);
    let mut number = 0usize;
    for line in text.lines() {
        number = number.saturating_add(1);
        if !add_line(alloc, &mut cases, line)? {
            return Err(CaseFault::Line(number));
        }
    }
    Ok(cases)
}

/// The cases of the case file at a path. Where a line isn't of the form, its number is printed, and there is no case.
pub fn load_cases(rt: &HostRuntime, path: &str) -> io::Result<Vec<Case>> {
    let text = fs::read_to_string(rt, path)?;
    match read_cases(rt.alloc(), text.as_str()) {
        Ok(cases) => return Ok(cases),
        Err(CaseFault::Memory) => println!(rt; "{path}: out of memory")?,
        Err(CaseFault::Line(number)) => println!(rt; "{path}: line {number} isn't of the form")?,
    }
    Ok(Vec::new(rt.alloc()))
}
