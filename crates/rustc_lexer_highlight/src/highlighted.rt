//! Writes a text with its shebang line and its tokens highlighted, for a terminal or for the inside of an HTML page.
ghost use Rattle.std.specs.Prelude.{◌≡◌, drop, IfOk, OnOk, take, true};
ghost use Rattle.std.specs.Fmt.{WritesInCalls};
ghost use Rattle.std.specs.Str.{IsCharBoundary};
ghost use Rattle.rustc_lexer.specs.Classes.{Fits};
ghost use Rattle.rustc_lexer.specs.LanguageText.{part};
ghost use Rattle.rustc_lexer.specs.Tokens.{tokens_of};
ghost use Rattle.rustc_lexer_errors.specs.Literal.{closed_mode};
ghost use Rattle.rustc_lexer_errors.specs.TokenError.{token_error};
ghost use Rattle.rustc_lexer_highlight.specs.Escape.{unescaped, untagged};
ghost use Rattle.rustc_lexer_highlight.specs.Highlighted.{document_parts, highlighted, marked_tokens};
ghost use Rattle.rustc_lexer_highlight.specs.Highlighted.{parts_by, start_parts, token_parts};
ghost use Rattle.rustc_lexer_highlight.specs.Class.{class_of};
ghost use Rattle.rustc_lexer_highlight.specs.LiteralStretches.{AreStringsHighlighted};
ghost use Rattle.rustc_lexer_highlight.specs.Part.{before_return, displayed, with_markup, without_markup};
ghost use Rattle.rustc_lexer_highlight.specs.Screen.{is_quiet};

use crate::class::{Class, class_of};
use crate::format::Format;
use crate::literal::write_literal;
use crate::part::{TokenInText, before_return, write_in_class, write_return, write_with_error};
use rustc_lexer::{Edition, Token, byte_order_mark_len, tokenize_document, tokenize_in};
use rustc_lexer_errors::{mode_of, token_error};
use std::fmt;

/// Writes a document with its tokens highlighted, and with a message at each token that has an error.
///
/// A byte order mark at the start is written as it is, and a shebang line as a comment. Without its markup, the output
/// is the text; except in the format `Raw`, symbols such as `␛` replace control characters other than tabs and line
/// endings. In HTML, the text is everything outside of tags, with its entities decoded.
#[tactic(auto, using(crate::proofs::HighlightedLemmas::document_is, crate::proofs::HighlightedLemmas::page_is, crate::proofs::QuietLemmas::document_quiet))]
pub fn write_highlighted<W: fmt::Write>(
    format: Format,
    edition: Edition,
    text: &str,
    output: &mut W,
) -> fmt::Result
    requires fits { Fits text.now }
    ensures written { OnOk result (WritesInCalls W.write_str_gives output.old
        (highlighted format edition text.now) output.new) }
    ensures text { without_markup (document_parts edition text.now) ≡ text.now }
    ensures page { unescaped (untagged (highlighted Format.Html edition text.now)) ≡ text.now }
    ensures quiet { is_quiet (displayed (document_parts edition text.now)) ≡ true }
    ensures strings { AreStringsHighlighted }
{
    let tokens = tokenize_document(text, edition);
    let mut rest = tokens.as_str();
    let start = text.len() - rest.len();
    write_start(format, &text[..start], output)?;
    for token in tokens {
        rest = write_token(format, edition, token, rest, output)?;
    }
    Ok(())
}

/// Writes the text before the first token: a byte order mark, and a shebang line as a comment.
#[tactic(auto, using(crate::proofs::HighlightedLemmas::writes_start))]
fn write_start<W: fmt::Write>(format: Format, start: &str, output: &mut W) -> fmt::Result
    ensures { OnOk result (WritesInCalls W.write_str_gives output.old
        (with_markup format (start_parts start.now)) output.new) }
{
    let mark = byte_order_mark_len(start);
    write_in_class(format, Class::Plain, &start[..mark], output)?;
    write_in_class(format, Class::Comment, &start[mark..], output)
}

/// Writes the first `count` tokens of a fragment with highlighting, or all tokens if it has fewer.
///
/// Use this to write the visible part of a long text without the rest. A shebang line or a frontmatter is lexed as
/// other tokens.
pub fn write_first_tokens<W: fmt::Write>(
    format: Format,
    edition: Edition,
    count: usize,
    text: &str,
    output: &mut W,
) -> fmt::Result
    requires fits { Fits text.now }
    ensures { OnOk result (WritesInCalls W.write_str_gives output.old
        (marked_tokens format edition text.now
        (take count (tokens_of (part edition) text.now))) output.new) }
{
    let mut tokens = tokenize_in(text, edition);
    let mut rest = text;
    let mut left = count;
    while left > 0 {
        let Some(token) = tokens.next() else {
            break;
        };
        rest = write_token(format, edition, token, rest, output)?;
        left -= 1;
    }
    Ok(())
}

/// Writes the first token of a text with markup, and then the carriage return of a CRLF whose newline is in the next
/// token. Returns the text after the token.
#[tactic(auto, using(crate::proofs::PartLemmas::writes_parts, std::proofs::lemmas::Grind::common_steps))]
fn write_token<'a, W: fmt::Write>(
    format: Format,
    edition: Edition,
    token: Token,
    rest: &'a str,
    output: &mut W,
) -> Result<&'a str, fmt::Error>
    requires { IsCharBoundary rest.now token.len }
    ensures next { IfOk result (λ next. next.now ≡ drop token.len rest.now) }
    ensures written { OnOk result (WritesInCalls W.write_str_gives output.old
        (with_markup format (token_parts edition token.kind (take token.len rest.now)
        (drop token.len rest.now))) output.new) }
{
    let (text, next) = rest.split_at(token.len as usize);
    let found = TokenInText {
        kind: token.kind,
        text,
        next,
    };
    write_with_class(format, edition, found, output)?;
    write_return(format, found, output)?;
    Ok(next)
}

/// Writes a token without such a carriage return, with the markup of its class. If the token has an error, the markup
/// of the error is around its first line. In a literal that has no error of its kind, each escape and each error in its
/// contents has its own markup.
fn write_with_class<W: fmt::Write>(
    format: Format,
    edition: Edition,
    token: TokenInText<'_>,
    output: &mut W,
) -> fmt::Result
    requires fits { Fits token.text.now }
    ensures { OnOk result (WritesInCalls W.write_str_gives output.old
        (with_markup format (parts_by (token_error token.entry.kind token.entry.text.now edition)
        (closed_mode token.entry.kind) (class_of token.entry.kind token.entry.text.now edition)
        (before_return token.entry.text.now token.entry.next.now))) output.new) }
{
    let TokenInText { kind, text, .. } = token;
    let shown = before_return(token);
    let class = class_of(kind, text, edition);
    if let Some(error) = token_error(kind, text, edition) {
        return write_with_error(format, error, class, shown, output);
    }
    match mode_of(kind) {
        None => write_in_class(format, class, shown, output),
        Some(mode) => write_literal(format, mode, shown, output),
    }
}
