//! The final tokens of a text, which stay the same however the text continues.
ghost use Rattle.rustc_lexer.specs.Classes.{Fits};
ghost use Rattle.rustc_lexer.specs.Tokens.{tokens_by, tokens_of};
ghost use Rattle.rustc_lexer.specs.LanguageText.{part, newest};
ghost use Rattle.rustc_lexer.specs.Locality.{AreLocal, IsSettled, StaysUpTo};

use crate::edition::Edition;
use crate::entry::stepper::{Stepper, Steps};
use crate::relex::boundary::has_two_chars_between;

/// Returns the byte offset up to which tokens are final, whatever is appended to the text, or 0 if none are.
///
/// A token is final once at least two characters follow it. The text is lexed in the newest edition, with
/// `FrontmatterAllowed::No`.
pub fn settled(text: &str) -> usize
    requires fits { Fits text.now }
    ensures settled { IsSettled text.now (tokens_of (part newest) text.now) result }
    ensures stays { StaysUpTo result text.now (tokens_of (part newest)) }
    ensures local { AreLocal (tokens_of (part newest)) }
{
    settled_in(text, Edition::NEWEST)
}

/// Returns the byte offset up to which tokens are final, whatever is appended to the text, or 0 if none are.
///
/// A token is final once at least two characters follow it. The tokens are those of
/// [`tokenize_in`](crate::tokenize_in).
pub fn settled_in(text: &str, edition: Edition) -> usize
    requires fits { Fits text.now }
    ensures settled { IsSettled text.now (tokens_of (part edition) text.now) result }
    ensures stays { StaysUpTo result text.now (tokens_of (part edition)) }
{
    settled_by(&mut Steps::new_in(edition), text)
}

/// Returns the end of the last token that at least two characters follow, in bytes, or 0 if there is none.
fn settled_by<S: Stepper>(stepper: &mut S, text: &str) -> usize
    requires fits { Fits text.now }
    ensures { IsSettled text.now (tokens_by (S.grammar stepper.old).first text.now) result }
{
    let mut offset = 0;
    while offset < text.len() {
        let token = stepper.step(&text[offset..]);
        let next = offset + token.len as usize;
        if !has_two_chars_between(text, next, text.len()) {
            break;
        }
        offset = next;
    }
    offset
}
