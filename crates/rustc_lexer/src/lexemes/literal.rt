//! The suffix of a literal, and its offset.
ghost use Rattle.std.specs.Prelude.{◌≡◌, ◌+◌, ◌-◌, ◌≤◌, ◌<◌, ◌^◌, length};
ghost use Rattle.std.specs.Str.{chars};
ghost use Rattle.rustc_lexer.specs.{Literal};
ghost use Rattle.rustc_lexer.specs.model.Literal.{suffix_len};
ghost use Rattle.rustc_lexer.specs.model.Scan.{past};

use crate::classes::is_id_start;
use crate::scan::{eat_continue, split_first};
use crate::token::{LiteralKind, TokenKind};

/// Returns the text after the suffix at its start, or the whole text if there is none.
#[inline(always)]
#[tactic(auto, using(crate::specs::laws::Scan::scan_lemmas, std::proofs::lemmas::Grind::common_steps))]
pub(crate) fn eat_literal_suffix(rest: &str) -> &str
    ensures shorter { length result.now ≤ length rest.now }
    ensures past { result.now ≡ past (suffix_len (chars rest.now)) rest.now }
{
    let Some((first, tail)) = split_first(rest) else {
        return rest;
    };
    if !is_id_start(first) {
        return rest;
    }
    eat_continue(tail)
}

/// Returns the kind of a literal whose suffix starts at `rest`. `tail` is the text after the first character of the
/// literal, which is one byte long.
#[inline(always)]
pub(crate) fn literal(kind: LiteralKind, tail: &str, rest: &str) -> TokenKind
    requires inside { length rest.now ≤ length tail.now }
    requires fits { length tail.now + 1 < 2 ^ 32 }
    ensures { result ≡ Literal kind (1 + (length tail.now - length rest.now)) }
{
    TokenKind::Literal {
        kind,
        suffix_start: 1 + (tail.len() - rest.len()) as u32,
    }
}
