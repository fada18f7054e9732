//! The most common tokens, found by their bytes alone: identifiers, whitespace, hashes and symbols.
ghost use Rattle.std.specs.Prelude.{◌≡◌, IsUtf8, MatchOption};
ghost use Rattle.rustc_lexer.specs.Classes.{Fits};
ghost use Rattle.rustc_lexer.specs.model.Hash.{opens_guarded};
ghost use Rattle.rustc_lexer.specs.model.Quick.{BeginsWithNoHash, IsFirstBy};
ghost use Rattle.rustc_lexer.specs.model.Scan;

use crate::kernels::{Continue, Space, ends_space, ends_word, run_end, short_run_end};
use crate::lexemes::family::{Family, family_of_byte, symbol_kind};
use crate::token::{Token, TokenKind};

/// Returns the first token of the text if the bytes of one run and the byte after it determine its kind. For a hash
/// they always do. The edition matters only for a hash, since it may not reserve guarded strings. The text is passed as
/// bytes, so that slicing it does not check for character boundaries.
#[inline(always)]
pub(crate) fn quick_token(text: &[u8], reserves_guards: bool) -> Option<Token>
    requires utf8 { IsUtf8 text.now }
    requires fits { Fits text.now }
    ensures { MatchOption result (BeginsWithNoHash text.now)
        (λ token. IsFirstBy reserves_guards text.now token) }
{
    let (first, rest) = text.split_first()?;
    match family_of_byte(*first)? {
        Family::Word => {
            let end = run_end::<Continue>(rest);
            if ends_word(rest, end) {
                Some(Token {
                    kind: TokenKind::Ident,
                    len: (1 + end) as u32,
                })
            } else {
                None
            }
        }
        Family::Space => {
            let end = short_run_end::<Space>(rest);
            if ends_space(rest, end) {
                Some(Token {
                    kind: TokenKind::Whitespace,
                    len: (1 + end) as u32,
                })
            } else {
                None
            }
        }
        Family::Hash => {
            if reserves_guards && begins_guarded(rest) {
                Some(Token {
                    kind: TokenKind::GuardedStrPrefix,
                    len: 2,
                })
            } else {
                Some(Token {
                    kind: TokenKind::Pound,
                    len: 1,
                })
            }
        }
        Family::Symbol => Some(Token {
            kind: symbol_kind(*first as char),
            len: 1,
        }),
        _ => None,
    }
}

/// Returns whether the text starts with a quote or a hash.
#[inline(always)]
fn begins_guarded(bytes: &[u8]) -> bool
    ensures { result ≡ Scan.next_is opens_guarded bytes.now }
{
    !bytes.is_empty() && matches!(bytes[0], b'"' | b'#')
}
