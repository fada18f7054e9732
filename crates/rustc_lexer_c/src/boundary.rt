//! Tests whether two parts of a text can touch without changing their tokens.
ghost use Rattle.std.specs.Prelude.{◌≡◌, ◌≢◌, Some};
ghost use Rattle.rustc_lexer.specs.declared.edition.Edition.{Edition};
ghost use Rattle.rustc_lexer.specs.LanguageCalls.{edition_of_year};
ghost use Rattle.rustc_lexer_c.specs.Boundary.{IsBoundaryAt};
ghost use Rattle.rustc_lexer_c.specs.Status.{IsPlaceStatus, OK};

use crate::relex::edition_of;
use crate::status::{Refusal, done, refuse, text_of, validate};
use rustc_lexer::is_token_boundary;

/// Writes 1 if a text has the tokens of its part before `at`, followed by the tokens of its part after `at`, otherwise
/// 0. The edition is a year.
#[unsafe(no_mangle)]
pub extern "C" fn rustc_lexer_is_token_boundary(
    text: &[u8],
    at: usize,
    edition: u32,
    is: &mut u32,
) -> u32
    ensures status { IsPlaceStatus text.now at edition result }
    ensures boundary { result ≡ OK → (year : Edition) → edition_of_year edition ≡ Some year
        → IsBoundaryAt text.now at year is.new }
    ensures refused { result ≢ OK → is.new ≡ 0 }
{
    let text = validate!(text_of(text), 0, is);
    if !text.is_char_boundary(at) {
        return refuse(Refusal::InvalidPlace, 0, is);
    }
    match edition_of(edition) {
        Some(edition) => done(u32::from(is_token_boundary(text, at, edition)), is),
        None => refuse(Refusal::InvalidEdition, 0, is),
    }
}
