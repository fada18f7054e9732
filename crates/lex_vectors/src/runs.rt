//! Runs of 0 to 100 characters, and searches over as many. The offset of the stop is known for each text.
//!
//! A byte that starts no character in UTF-8, such as 0x80, cannot be the first byte of a text.
use crate::tables::kinds::{HEXADECIMAL, INT, LINE, OPEN_STR, STR};
use Reach::{PastStop, Suffix, ToEnd, ToStop};
use rustc_lexer::TokenKind::{Eof, Ident, Literal, Whitespace};
use rustc_lexer::{Base, FrontmatterAllowed, LiteralKind, Token, TokenKind, fits, tokenize};
use std::alloc::{AllocError, Global};

/// The maximum number of characters between the front of a text and its stop.
const MOST: usize = 100;

/// The end of the token that contains the run.
#[derive(Clone, Copy)]
enum Reach {
    /// The start of the stop.
    ToStop,
    /// The end of the stop, which terminates the token.
    PastStop,
    /// The end of the text; the suffix of the token starts at the stop.
    Suffix,
    /// The end of the text.
    ToEnd,
}

/// A token that contains a run.
struct Runs {
    /// The text before the run.
    front: &'static str,
    /// The characters of the run, repeated.
    members: &'static str,
    /// The kind if the run is empty, and if it is not, without the start of a suffix.
    kinds: [TokenKind; 2],
    /// Stops of the run, and the end of the token for them. An empty stop is the end of the text.
    stops: &'static [(&'static [&'static str], Reach)],
}

/// Test cases: `front, members, kinds: stops => reach, ..;`.
macro_rules! runs {
    ($($front:literal, $members:literal, [$empty:expr, $other:expr]: $($stops:tt => $reach:ident),*;)*) => {
        &[$(Runs {
            front: $front,
            members: $members,
            kinds: [$empty, $other],
            stops: &[$((&$stops, $reach)),*],
        }),*]
    };
}

/// The placeholder in `kinds` for the start of a suffix.
const ANYWHERE: u32 = 0;

/// A literal with a suffix anywhere.
macro_rules! run {
    ($kind:expr) => {
        Literal {
            kind: $kind,
            suffix_start: ANYWHERE,
        }
    };
}

const EMPTY_HEXADECIMAL: LiteralKind = LiteralKind::Int {
    base: Base::Hexadecimal,
    empty_int: true,
};

// The first byte of U+07F6, 0xDF, is `_` with one more bit, and the first byte of U+1000, 0xE1, is `a` with one more
// bit.
static ALL: &[Runs] = runs! {
    "x", "azAZ09_", [Ident, Ident]:
        ["/", ":", "@", "[", "`", "{", "\x7f", "\u{80}", "\u{7f6}", "\u{10ffff}"] => ToStop,
        ["", "é", "ß", "ÿ"] => ToEnd;
    " ", " \t\n\x0b\x0c\r", [Whitespace, Whitespace]:
        ["\x08", "\x0e", "\x1f", "!", "\u{a0}", "é"] => ToStop,
        ["", "\u{85}"] => ToEnd;
    "1", "0_9", [run!(INT), run!(INT)]:
        ["/", ":", "^", "`", "\u{b0}"] => ToStop,
        [""] => ToEnd,
        ["a", "é"] => Suffix;
    "0x", "0_9afAF", [run!(EMPTY_HEXADECIMAL), run!(HEXADECIMAL)]:
        ["/", ":", "@", "^", "`"] => ToStop,
        [""] => ToEnd,
        ["G", "g", "Á", "á", "\u{1000}", "é"] => Suffix;
    "//", "\x0baz'\r#!", [LINE, LINE]: ["\n"] => ToStop, ["", "é"] => ToEnd;
    "\"", "\x0baz'\r#!", [run!(STR), run!(STR)]: ["\""] => PastStop;
    "\"", "\x0baz'\r#!", [run!(OPEN_STR), run!(OPEN_STR)]: ["", "\\\"", "é"] => ToEnd;
};

impl Runs {
    /// Returns the first stop, with the length of a run before it, whose token differs from the table.
    fn mismatch(&self, alloc: Global) -> Result<Option<(&'static str, usize)>, AllocError> {
        let all = self.members.repeat(alloc, MOST)?;
        for (stops, reach) in self.stops {
            for stop in *stops {
                if let Some(end) = self.wrong_end(alloc, all.as_str(), stop, *reach)? {
                    return Ok(Some((*stop, end)));
                }
            }
        }
        Ok(None)
    }

    /// Returns the first length of a run before this stop whose token differs from the table, for any text after the
    /// stop.
    fn wrong_end(
        &self,
        alloc: Global,
        all: &str,
        stop: &str,
        reach: Reach,
    ) -> Result<Option<usize>, AllocError> {
        for end in 0..=MOST {
            let most = if stop.is_empty() { 0 } else { MOST - end };
            for past in 0..=most {
                let (Some(run), Some(tail)) = (all.get(..end), all.get(..past)) else {
                    return Ok(Some(end));
                };
                if !self.holds(alloc, [run, stop, tail], reach)? {
                    return Ok(Some(end));
                }
            }
        }
        Ok(None)
    }

    /// Returns whether the first token of the front, a run, its stop and more text agrees with the table.
    fn holds(&self, alloc: Global, parts: [&str; 3], reach: Reach) -> Result<bool, AllocError> {
        let [run, stop, tail] = parts;
        let mut text = String::from_str(alloc, self.front)?;
        text.push_str(run)?;
        let run_end = text.len();
        text.push_str(stop)?;
        let past_stop = text.len();
        text.push_str(tail)?;
        let (suffix_start, len) = match reach {
            ToStop => (run_end, run_end),
            PastStop => (past_stop, past_stop),
            Suffix => (run_end, text.len()),
            ToEnd => (text.len(), text.len()),
        };
        let kind = self.kinds[usize::from(!run.is_empty())];
        Ok(begins_with(text.as_str(), (kind, suffix_start, len)))
    }
}

/// Returns whether `next` and `fill` return this token first.
fn begins_with(text: &str, token: (TokenKind, usize, usize)) -> bool {
    if !fits(text) {
        return false;
    }
    let mut buffer = [Token { kind: Eof, len: 0 }; 2];
    let _ = tokenize(text, FrontmatterAllowed::No).fill(&mut buffer);
    match tokenize(text, FrontmatterAllowed::No).next() {
        Some(first) => split(first) == token && split(buffer[0]) == token,
        None => false,
    }
}

/// Returns the kind of a token without the start of its suffix, that start (the end of the token if it can have no
/// suffix), and its length.
fn split(token: Token) -> (TokenKind, usize, usize) {
    let len = token.len as usize;
    match token.kind {
        Literal { kind, suffix_start } => {
            let kind = Literal {
                kind,
                suffix_start: ANYWHERE,
            };
            (kind, suffix_start as usize, len)
        }
        kind => (kind, len, len),
    }
}

#[test]
fn tokens_of_runs(rt: HostRuntime) -> Result<(), AllocError> {
    for runs in ALL {
        let mismatch = runs.mismatch(rt.alloc())?;
        assert!(rt; mismatch.is_none(), "after {}", runs.front);
    }
    Ok(())
}
