//! What a tree is printed on.

use case_files::escaped;
use std::alloc::{AllocError, Global};
use sv_source::{Token, at};

/// The text of a tree, as far as it is printed. A node stands in parentheses: its name, and behind it the tokens and the nodes
/// that it keeps, in their order. So the text has the tokens of the source in their order. Of those that no node keeps
/// commas and `or` are left out, and each other one stands behind `?`. A token that is behind its place stands behind `!`.
#[derive(Drop)]
pub struct Printer<'t> {
    alloc: Global,
    tokens: &'t [Token],
    text: String,
    /// The number of the token behind the last one that is printed.
    next: u32,
    /// How many nodes are open.
    depth: usize,
    /// Whether memory was wanted.
    failed: bool,
}

/// Whether a token stands between the items of lists.
fn is_separator(token: &Token) -> bool {
    token.text.is(b",") || token.text.is(b"or")
}

impl<'t> Printer<'t> {
    /// A text without a node, for the tree of these tokens.
    pub fn new(alloc: Global, tokens: &'t [Token]) -> Printer<'t> {
        Printer {
            alloc,
            tokens,
            text: String::new(alloc),
            next: 0,
            depth: 0,
            failed: false,
        }
    }

    /// Adds a piece of text.
    fn push(&mut self, piece: &str) {
        if self.text.push_str(piece).is_err() {
            self.failed = true;
        }
    }

    /// Adds the text of a token.
    fn push_token(&mut self, index: u32) {
        let text = match at(self.tokens, index as usize) {
            Some(token) => escaped(self.alloc, token.text.as_bytes()),
            None => String::from_str(self.alloc, "(none)"),
        };
        match text {
            Ok(text) => self.push(text.as_str()),
            Err(_) => self.failed = true,
        }
    }

    /// Passes over a token that no node keeps.
    fn pass(&mut self, index: u32) {
        let keeps = match at(self.tokens, index as usize) {
            Some(token) => !is_separator(token),
            None => true,
        };
        if keeps {
            self.push(" ?");
            self.push_token(index);
        }
    }

    /// Passes over the tokens before this one.
    fn pass_to(&mut self, index: u32) {
        for passed in self.next..index {
            self.pass(passed);
        }
    }

    /// Prints a token.
    pub fn token(&mut self, index: u32) {
        self.pass_to(index);
        self.push(if index < self.next { " !" } else { " " });
        self.push_token(index);
        self.next = index.saturating_add(1);
    }

    /// Prints tokens.
    pub fn tokens(&mut self, indices: &[u32]) {
        for index in indices {
            self.token(*index);
        }
    }

    /// Prints a token, if there is one.
    pub fn maybe(&mut self, index: Option<u32>) {
        if let Some(index) = index {
            self.token(index);
        }
    }

    /// Prints a word that is no token.
    pub fn word(&mut self, word: &str) {
        self.push(" ");
        self.push(word);
    }

    /// Begins a node with this name.
    pub fn open(&mut self, name: &str) {
        self.push(" (");
        self.push(name);
        self.depth = self.depth.saturating_add(1);
    }

    /// Begins a node with this name on a line of its own.
    pub fn line(&mut self, name: &str) {
        self.push("\n");
        for _ in 0..self.depth {
            self.push(" ");
        }
        self.open(name);
    }

    /// Ends the last node that was begun.
    pub fn close(&mut self) {
        self.push(")");
        self.depth = self.depth.saturating_sub(1);
    }

    /// Prints a node of tokens alone.
    pub fn leaf(&mut self, name: &str, indices: &[u32]) {
        self.open(name);
        self.tokens(indices);
        self.close();
    }

    /// Prints a node of tokens alone on a line of its own.
    pub fn line_leaf(&mut self, name: &str, indices: &[u32]) {
        self.line(name);
        self.tokens(indices);
        self.close();
    }

    /// The whole text. Only the end token isn't printed.
    pub fn finish(self) -> Result<String, AllocError> {
        let mut printer = self;
        let end = printer.tokens.len().saturating_sub(1);
        if let Ok(end) = u32::try_from(end) {
            printer.pass_to(end);
        }
        if printer.failed {
            Err(AllocError)
        } else {
            Ok(printer.text)
        }
    }
}
