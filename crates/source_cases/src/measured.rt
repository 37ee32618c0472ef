//! What is measured: whole files that are expanded or read, and lists of symbols.

use crate::symbols::read_symbols;
use crate::texts::{Shown, show_text};
use std::{fs, io};
use sv_preproc::{Defines, ExpandFail, Settings, Texts, expand};
use sv_source::{RealFiles, Text};

/// The most files that are expanded.
const MOST: usize = 1000;

/// The settings of an expansion of files. Included files are looked for in the current folder.
fn settings(rt: &HostRuntime, paths: &[String]) -> io::Result<Settings> {
    let alloc = rt.alloc();
    let mut files = Texts::new(alloc);
    for path in paths {
        files.push(Text::from_bytes(alloc, path.as_bytes())?)?;
    }
    Ok(Settings {
        files,
        dirs: Texts::new(alloc),
        defines: Defines::new(alloc),
    })
}

/// Expands files, and prints how many tokens come.
pub fn expand_files(rt: &HostRuntime, paths: &[String]) -> io::Result<()> {
    let set = settings(rt, paths)?;
    let mut files = RealFiles::new(rt);
    if set.files.len() > MOST {
        return println!(rt; "too many files");
    }
    match expand(rt.alloc(), &set, &mut files) {
        Ok(expanded) => println!(rt; "{} tokens", expanded.tokens.len()),
        Err(ExpandFail::Memory) => println!(rt; "out of memory"),
        Err(ExpandFail::FileFault { .. }) => println!(rt; "read fault"),
        Err(ExpandFail::Refused { refusal, .. }) => println!(rt;
            "refused by rule {}",
            refusal.rule
        ),
    }
}

/// Reads files one by one.
pub fn read_files(rt: &HostRuntime, paths: &[String], shown: Shown) -> io::Result<()> {
    for path in paths {
        let text = fs::read_to_string(rt, path.as_str())?;
        show_text(rt, text.as_bytes(), shown)?;
    }
    Ok(())
}

/// Reads a list of symbols by the words `flat` or `deep` and a count.
pub fn read_list(rt: &HostRuntime, words: &[String]) -> io::Result<()> {
    let mut is_deep = false;
    let mut count = 1000;
    for word in words {
        if word.as_str() == "deep" {
            is_deep = true;
        }
        if let Ok(number) = word.as_str().parse::<u32>() {
            count = number;
        }
    }
    read_symbols(rt, is_deep, count)
}
