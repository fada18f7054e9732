//! Checks the tokens of each text in the tables, with each call. One assertion reports all failing test cases, because
//! many assertions would be slow to prove.
ghost use Rattle.rustc_lexer.specs.Classes.{Fits};

use crate::tables::all::all;
use crate::tables::row::{Entry, Way, Ways};
use rustc_lexer::{
    FrontmatterAllowed, Token, TokenKind, Tokens, fits, tokenize, tokenize_as, tokenize_in,
};
use std::alloc::{AllocError, Global};
use std::fmt::Write;
use std::test::Fail;

/// A text of a table and its tokens, built entry by entry.
#[derive(Drop)]
pub struct Made {
    pub text: String,
    pub tokens: Vec<Token>,
    /// The tokens of the next part.
    each: Vec<Token>,
    is_whole: bool,
}

impl Made {
    pub fn new(alloc: Global) -> Made {
        Made {
            text: String::new(alloc),
            tokens: Vec::new(alloc),
            each: Vec::new(alloc),
            is_whole: false,
        }
    }

    /// Adds an entry. Returns the purpose of the text if the entry ends it. The next part or token starts a new text.
    pub fn add<M: Copy>(&mut self, entry: &Entry<M>) -> Result<Option<M>, AllocError> {
        match *entry {
            Entry::Fragment(part, times) => {
                self.begin_if_whole();
                self.repeat(part, times)?;
            }
            Entry::Token((kind, len)) => {
                self.begin_if_whole();
                self.each.push(Token { kind, len })?;
            }
            Entry::End(purpose) => {
                self.repeat("", 1)?;
                self.is_whole = true;
                return Ok(Some(purpose));
            }
        }
        Ok(None)
    }

    fn begin_if_whole(&mut self) {
        if self.is_whole {
            self.text.clear();
            self.tokens.clear();
            self.is_whole = false;
        }
    }

    /// Adds a part with its tokens the given number of times.
    fn repeat(&mut self, part: &str, times: u32) -> Result<(), AllocError> {
        for _ in 0..times {
            self.text.push_str(part)?;
            for token in self.each.as_slice() {
                self.tokens.push(*token)?;
            }
        }
        self.each.clear();
        Ok(())
    }

    /// Returns the index of the first of these calls that returns other tokens.
    fn mismatch(&self, ways: Ways) -> Option<usize> {
        let text = self.text.as_str();
        let wanted = self.tokens.as_slice();
        for (number, way) in Way::ALL.into_iter().enumerate() {
            let holds = !ways.has(way)
                || fits(text)
                    && gives(lex(text, way), wanted)
                    && fills(lex(text, way), [BUFFER_LEN, BUFFER_LEN], wanted)
                    && fills(lex(text, way), [1, 3], wanted);
            if !holds {
                return Some(number);
            }
        }
        None
    }
}

/// Lexes the text with the call.
fn lex<'a>(text: &'a str, way: Way) -> Tokens<'a>
    requires { Fits text.now }
{
    match way {
        Way::Newest(allowed) => tokenize(text, allowed),
        Way::Fragment(edition) => tokenize_in(text, edition),
        Way::Document(edition) => tokenize_as(text, FrontmatterAllowed::Yes, edition),
    }
}

/// Appends the failing test cases of the table to `mismatches`.
fn write_mismatches(
    alloc: Global,
    mismatches: &mut String,
    table: (&str, &[Entry<Ways>]),
) -> Result<(), Fail> {
    let (name, entries) = table;
    let mut made = Made::new(alloc);
    for entry in entries {
        let Some(ways) = made.add(entry)? else {
            continue;
        };
        if let Some(number) = made.mismatch(ways) {
            writeln!(mismatches, "{name}, by call {number}: {:?}", made.text)?;
        }
    }
    Ok(())
}

#[test]
fn rows(rt: HostRuntime) -> Result<(), Fail> {
    let mut mismatches = String::new(rt.alloc());
    for table in all() {
        write_mismatches(rt.alloc(), &mut mismatches, table)?;
    }
    assert!(rt; mismatches.is_empty(), "{mismatches}");
    Ok(())
}

/// The size of the longest buffer.
const BUFFER_LEN: usize = 64;

/// Returns whether the iterator returns exactly these tokens, and then stays at its end.
fn gives(tokens: Tokens<'_>, wanted: &[Token]) -> bool {
    let mut tokens = tokens;
    for token in wanted {
        if tokens.next() != Some(*token) {
            return false;
        }
    }
    tokens.as_str().is_empty() && tokens.next().is_none() && tokens.next().is_none()
}

/// Returns whether `fill` returns exactly these tokens, with buffers of the two lengths in turns.
fn fills(tokens: Tokens<'_>, lengths: [usize; 2], wanted: &[Token]) -> bool {
    let mut tokens = tokens;
    let mut buffer = [Token {
        kind: TokenKind::Eof,
        len: 0,
    }; BUFFER_LEN];
    let mut left = wanted;
    for turn in 0..=wanted.len() {
        let length = lengths[turn % 2].min(BUFFER_LEN);
        let count = tokens.fill(&mut buffer[..length]);
        if count != length.min(left.len()) {
            return false;
        }
        let (now, later) = left.split_at(count);
        if &buffer[..count] != now {
            return false;
        }
        left = later;
    }
    left.is_empty()
}
