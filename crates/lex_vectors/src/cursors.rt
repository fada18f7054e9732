//! Sequences of cursor calls, with their results.
use crate::cursors::Call::{Advance, First, Found, Missing, Rest, Third};
use crate::rows::Made;
use crate::tables::kinds::{CHAR, DASH, HASH, INT, LETTER, OPEN_STR, RAW_STR, SPACE, WORD};
use crate::tables::row::{Entry, literal};
use rustc_lexer::TokenKind::{Eof, Ident, InvalidIdent, Minus, UnknownPrefix, Whitespace};
use rustc_lexer::{Cursor, FrontmatterAllowed, GuardedStr, TokenKind, fits, tokenize};
use std::alloc::AllocError;

/// A call of a cursor, and its result.
#[derive(Clone, Copy)]
enum Call {
    Advance((TokenKind, u32)),
    /// A guarded string, with its hashes, whether it is terminated, and its length.
    Found(u32, bool, u32),
    /// No guarded string.
    Missing,
    Rest(&'static str),
    First(char),
    Third(char),
}

const END: Call = Advance((Eof, 0));

/// Texts, each with its calls. The end of a test case has no call.
macro_rules! calls {
    ($($([$($part:literal $(* $times:literal)?),+])? $($text:literal)? => $($call:expr),+;)*) => {
        &[$(
            $($(Entry::Fragment($part, 1 $(* $times)?),)+)?
            $(Entry::Fragment($text, 1),)?
            $(Entry::End(Some($call)),)+
            Entry::End(None),
        )*]
    };
}

static ROWS: &[Entry<Option<Call>>] = calls! {
    "é-" => First('é'), Third('\0'), Advance(WORD), Rest("-"), Advance(DASH), END, First('\0');
    // A guarded string at the start, the text after it, and the next token.
    "##\"a" => Found(2, false, 4), Rest(""), END;
    "\"a\"" => Found(0, true, 3), Rest(""), END;
    "##\"a\"###x" => Found(2, true, 7), Rest("#x"), Advance(HASH);
    "##\"a\"#x" => Found(2, true, 7), Rest(""), END;
    "##\"é\"##" => Found(2, true, 8), Rest(""), END;
    "\"a\"#" => Found(0, true, 3), Rest("#"), Advance(HASH);
    "#\"a\\\"b\"#" => Found(1, true, 8), Rest(""), END;
    // A suffix, and characters that start no suffix.
    "#\"a\"é" => Found(1, true, 6), Rest(""), END;
    "#\"a\"#_ u" => Found(1, true, 6), Rest(" u"), Advance(SPACE);
    "#\"a\"1" => Found(1, true, 4), Rest("1"), Advance(literal!(INT, 1));
    "#\"a\"😀" => Found(1, true, 4), Rest("😀"), Advance((InvalidIdent, 4));
    "#\"a\"\"b" => Found(1, true, 4), Rest("\"b"), Advance(literal!(OPEN_STR, 2));
    // Unterminated, or not a guarded string.
    "#\"" => Found(1, false, 2), Rest(""), END;
    "#\"a#u" => Found(1, false, 5), Rest(""), END;
    "#\"a\\\"" => Found(1, false, 5), Rest(""), END;
    "" => Missing, Rest(""), END;
    "##" => Missing, Rest(""), END;
    "##x" => Missing, Rest("x"), Advance((Ident, 3)), END;
    "# x" => Missing, Rest(" x"), Advance((Whitespace, 2));
    "x#\"a\"" => Missing, Rest("x#\"a\""), Advance((UnknownPrefix, 1));
    // The start of a suffix includes the pending bytes.
    "#1u" => Missing, Rest("1u"), Advance(literal!(INT, 2, 3));
    "##'a'x" => Missing, Rest("'a'x"), Advance(literal!(CHAR, 5, 6));
    "#r\"a\"" => Missing, Rest("r\"a\""), Advance(literal!(RAW_STR, 5));
    // Within a text.
    "a ##\"b\"##c d" => Advance(LETTER), Advance(SPACE), Found(2, true, 8), Rest(" d"), Missing, Advance(SPACE),
        Advance(LETTER), Missing, END;
    // Two bytes are pending, and remain pending after a second call. At the end, two more are pending, but no token
    // follows.
    "a##-##" => Advance((UnknownPrefix, 1)), Missing, Missing, Rest("-##"), Advance((Minus, 3)), Missing, Rest(""), Missing, END, END;
    ["#" * 301, "x"] => Missing, Advance((Ident, 302));
    ["#" * 300, "\"abc\"", "#" * 301, "x"] => Found(300, true, 605), Rest("#x");
};

/// Returns whether the calls have these results.
fn goes(text: &str, allowed: FrontmatterAllowed, calls: &[Call]) -> bool {
    if !fits(text) {
        return false;
    }
    let mut cursor = Cursor::new(text, allowed);
    for call in calls {
        let holds = match call {
            Advance((kind, len)) => {
                let token = cursor.advance_token();
                token.kind == *kind && token.len == *len
            }
            Found(n_hashes, terminated, token_len) => {
                let string = GuardedStr {
                    n_hashes: *n_hashes,
                    terminated: *terminated,
                    token_len: *token_len,
                };
                cursor.guarded_double_quoted_string() == Some(string)
            }
            Missing => cursor.guarded_double_quoted_string().is_none(),
            Rest(rest) => cursor.as_str() == *rest,
            First(c) => cursor.first() == *c,
            Third(c) => cursor.third() == *c,
        };
        if !holds {
            return false;
        }
    }
    true
}

#[test]
fn rows(rt: HostRuntime) -> Result<(), AllocError> {
    let mut made = Made::new(rt.alloc());
    let mut calls = Vec::new(rt.alloc());
    for entry in ROWS {
        match made.add(entry)? {
            Some(Some(call)) => calls.push(call)?,
            Some(None) => {
                let text = made.text.as_str();
                let holds = goes(text, FrontmatterAllowed::No, calls.as_slice())
                    && goes(text, FrontmatterAllowed::Yes, calls.as_slice());
                assert!(rt; holds, "in {text}");
                calls.clear();
            }
            None => {}
        }
    }
    Ok(())
}

#[test]
fn slices_outlive_what_gave_them(rt: HostRuntime) {
    let text = "a b";
    let past_token = {
        let mut tokens = tokenize(text, FrontmatterAllowed::No);
        assert!(rt; tokens.as_str() == "a b" && tokens.next().is_some());
        tokens.as_str()
    };
    let past_advance = {
        let mut cursor = Cursor::new(text, FrontmatterAllowed::No);
        assert!(rt; cursor.advance_token().len == 1);
        cursor.as_str()
    };
    assert!(rt; past_token == " b" && past_advance == " b");
}
