//! The first token of a text. Its first character determines its family, and most families have a function of their
//! own.
ghost use Rattle.std.specs.Prelude.{◌≡◌, ◌≢◌, ◌+◌, ◌<◌, ◌^◌, length};
ghost use Rattle.rustc_lexer.specs.Classes.{Fits};
ghost use Rattle.rustc_lexer.specs.declared.lexemes.family.Family.TheVariants.{Hash};
ghost use Rattle.rustc_lexer.specs.model.Lexeme as spec;
ghost use Rattle.rustc_lexer.specs.model.Quick.{BeginsWithNoHash, IsFirstToken};
ghost use Rattle.rustc_lexer.specs.model.Scan.{scanned};

use crate::lexemes::comment::slash;
use crate::lexemes::family::{Family, family_of, symbol_kind};
use crate::lexemes::ident::invalid_ident;
use crate::lexemes::lifetime::lifetime_or_char;
use crate::lexemes::number::number;
use crate::lexemes::quoted::{QuotedPrefix, quoted_literal};
use crate::lexemes::word::word;
use crate::scan::{eat_whitespace, split_first};
use crate::token::{Token, TokenKind};

mod block_comment;
pub(crate) mod body;
pub(crate) mod classified;
mod comment;
pub(crate) mod family;
pub(crate) mod ident;
mod lifetime;
pub(crate) mod literal;
mod number;
pub(crate) mod quick;
pub(crate) mod quoted;
pub(crate) mod raw;
mod word;

/// Returns the first token of a text that does not start with a hash.
#[inline(never)]
pub(crate) fn choose_token(text: &str) -> Token
    requires fits { Fits text.now }
    requires no_hash { BeginsWithNoHash text.now }
    ensures { IsFirstToken text.now result }
{
    let Some((first, tail)) = split_first(text) else {
        return Token {
            kind: TokenKind::Eof,
            len: 0,
        };
    };
    let (kind, rest) = past_first(first, tail);
    Token {
        kind,
        len: (text.len() - rest.len()) as u32,
    }
}

/// Returns the kind of the token that starts with `first`, and the text after the token. `tail` is the text after
/// `first`.
#[inline(always)]
#[tactic(auto, using(crate::proofs::lemmas::tokens::Families::by_family, std::proofs::lemmas::Grind::common_steps))]
fn past_first(first: char, tail: &str) -> (TokenKind, &str)
    requires fits { length tail.now + 1 < 2 ^ 32 }
    requires no_hash { spec.family_of first ≢ Hash }
    ensures { (result.0, result.1.now) ≡ scanned (spec.past_first first) tail.now }
{
    match family_of(first) {
        Family::Slash => slash(tail),
        Family::Space => (TokenKind::Whitespace, eat_whitespace(tail)),
        Family::Word => word(first, tail),
        Family::Number => number(first, tail),
        Family::Quote => lifetime_or_char(tail),
        Family::Str => quoted_literal(QuotedPrefix::Double, tail),
        Family::Emoji => invalid_ident(tail),
        Family::Hash | Family::Symbol => (symbol_kind(first), tail),
    }
}
