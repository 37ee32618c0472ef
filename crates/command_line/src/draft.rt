// A request that is read in part.
ghost use Rattle.std.specs.Prelude.{◌≡◌, ◌++◌, ◌+◌, ◌≤◌, ◌^◌, length, Some, None, if◌then◌else◌, IfOk};
ghost use Rattle.command_line.specs.Drafts as spec;

use crate::define::{define_of, is_simple_name};
use crate::part::{Part, part_of};
use crate::words::Asked;
use std::alloc::{AllocError, Global};
use sv_preproc::{Defines, Settings, Texts};
use sv_source::Text;

/// What the words ask for so far.
#[derive(Drop, Debug)]
pub struct Draft {
    /// The name of the top module, if it is known.
    top: Option<Text>,
    /// The files, the directories of included files and the macros.
    settings: Settings,
}

impl Draft {
    /// Nothing is asked for. It takes no memory.
    pub fn new(alloc: Global) -> Draft
        ensures { result ≡ spec.start }
    {
        Draft {
            top: None,
            settings: Settings {
                files: Texts::new(alloc),
                dirs: Texts::new(alloc),
                defines: Defines::new(alloc),
            },
        }
    }

    // The name of the top, which is a simple name and the only top. Whether it is.
    fn set_top(&mut self, alloc: Global, name: Text) -> Result<bool, AllocError>
        requires { length name ≤ 2 ^ 30 }
        ensures { IfOk result (λ b. spec.with_top self.old name ≡ (if b then Some self.new else None)) }
    {
        if self.top.is_some() || !is_simple_name(alloc, name.as_bytes())? {
            return Ok(false);
        }
        self.top = Some(name);
        Ok(true)
    }

    // A directory, which isn't empty. Whether it isn't.
    fn add_directory(&mut self, path: Text) -> Result<bool, AllocError>
        ensures { IfOk result (λ b. spec.with_directory self.old path ≡ (if b then Some self.new else None)) }
    {
        if path.is_empty() {
            return Ok(false);
        }
        self.settings.dirs.push(path)?;
        Ok(true)
    }

    // A macro, which is well formed. Whether it is.
    fn add_macro(&mut self, alloc: Global, text: &Text) -> Result<bool, AllocError>
        requires { length text.now ≤ 2 ^ 30 }
        ensures { IfOk result (λ b. spec.with_macro self.old text.now ≡ (if b then Some self.new else None)) }
    {
        match define_of(alloc, text.as_bytes())? {
            Some(define) => {
                self.settings.defines.push(define)?;
                Ok(true)
            }
            None => Ok(false),
        }
    }

    // One more part. Whether it is well formed.
    fn add_part(&mut self, alloc: Global, part: Part) -> Result<bool, AllocError>
        requires { length (spec.text_in part) ≤ 2 ^ 30 }
        ensures { IfOk result (λ b. spec.with_part self.old part ≡ (if b then Some self.new else None)) }
    {
        match part {
            Part::Top(name) => self.set_top(alloc, name),
            Part::Directory(path) => self.add_directory(path),
            Part::Macro(text) => self.add_macro(alloc, &text),
            Part::File(path) => {
                self.settings.files.push(path)?;
                Ok(true)
            }
        }
    }

    /// One more word. Whether it is well formed.
    pub fn add_word(&mut self, alloc: Global, word: &[u8]) -> Result<bool, AllocError>
        requires { length word.now ≤ 2 ^ 30 }
        ensures { IfOk result (λ b. spec.with_word self.old word.now ≡ (if b then Some self.new else None)) }
    {
        match part_of(alloc, word)? {
            Some(part) => self.add_part(alloc, part),
            None => Ok(false),
        }
    }

    /// One more option with its value, as if both were one word. Whether it is well formed.
    pub fn add_option(
        &mut self,
        alloc: Global,
        option: &[u8],
        value: &[u8],
    ) -> Result<bool, AllocError>
        requires { length option.now + length value.now ≤ 2 ^ 30 }
        ensures { IfOk result (λ b. spec.with_word self.old (option.now ++ value.now) ≡ (if b then Some self.new else None)) }
    {
        let mut word = Text::from_bytes(alloc, option)?;
        word.push_bytes(value)?;
        self.add_word(alloc, word.as_bytes())
    }

    /// What is asked for, if it has a top and a file.
    pub fn finished(self) -> Option<Asked>
        ensures { result ≡ spec.finished self }
    {
        let Draft { top, settings } = self;
        let top = top?;
        if settings.files.is_empty() {
            return None;
        }
        Some(Asked { top, settings })
    }
}
