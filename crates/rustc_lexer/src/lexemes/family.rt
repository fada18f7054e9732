//! Families of tokens, which are determined by the first character of a token, and the kinds that one byte can
//! determine.
#![tactic(auto, using(crate::proofs::lemmas::tokens::Families::table, std::proofs::lemmas::Grind::common_steps))]

ghost use Rattle.std.specs.Prelude.{◌≡◌, ◌<◌, ◌≤◌, MatchOption};
ghost use Rattle.rustc_lexer.specs.declared.lexemes.family.Family.TheVariants.{Symbol};
ghost use Rattle.rustc_lexer.specs.model.Ends as spec;
ghost use Rattle.rustc_lexer.specs.model.Lexeme;

use crate::classes::emoji::is_emoji;
use crate::classes::is_whitespace;
use crate::lexemes::family::Family::{Hash, Number, Quote, Slash, Space, Str, Symbol, Word};
use crate::token::TokenKind;
use crate::token::TokenKind::{
    And, At, Bang, Caret, CloseBrace, CloseBracket, CloseParen, Colon, Comma, Dollar, Dot, Eq, Gt,
    Ident, Lt, Minus, OpenBrace, OpenBracket, OpenParen, Or, Percent, Plus, Question, Semi, Star,
    Tilde, Unknown, Whitespace,
};

/// A family of tokens, which is determined by the first character of a token.
#[derive(Clone, Copy)]
pub(crate) enum Family {
    /// A comment or a slash.
    Slash,
    /// Whitespace.
    Space,
    /// An identifier, or a literal with a letter in front.
    Word,
    /// A number.
    Number,
    /// A character literal or a lifetime.
    Quote,
    /// A string.
    Str,
    /// A word that starts with an emoji, so it is not an identifier.
    Emoji,
    /// A hash, or the prefix of a guarded string.
    Hash,
    /// A token of one character.
    Symbol,
}

/// The entry of the table of families or of kinds for a cell of the picture.
macro_rules! cell {
    (family '"') => { Str };
    (family '#') => { Hash };
    (family '\'') => { Quote };
    (family '/') => { Slash };
    (family 0) => { Number };
    (family s) => { Space };
    (family w) => { Word };
    (family $symbol:tt) => { Symbol };
    (kind w) => { Some(Ident) };
    (kind s) => { Some(Whitespace) };
    (kind u) => { Some(Unknown) };
    (kind '!') => { Some(Bang) };
    (kind '$') => { Some(Dollar) };
    (kind '%') => { Some(Percent) };
    (kind '&') => { Some(And) };
    (kind '(') => { Some(OpenParen) };
    (kind ')') => { Some(CloseParen) };
    (kind '*') => { Some(Star) };
    (kind '+') => { Some(Plus) };
    (kind ',') => { Some(Comma) };
    (kind '-') => { Some(Minus) };
    (kind '.') => { Some(Dot) };
    (kind ':') => { Some(Colon) };
    (kind ';') => { Some(Semi) };
    (kind '<') => { Some(Lt) };
    (kind '=') => { Some(Eq) };
    (kind '>') => { Some(Gt) };
    (kind '?') => { Some(Question) };
    (kind '@') => { Some(At) };
    (kind '[') => { Some(OpenBracket) };
    (kind ']') => { Some(CloseBracket) };
    (kind '^') => { Some(Caret) };
    (kind '{') => { Some(OpenBrace) };
    (kind '|') => { Some(Or) };
    (kind '}') => { Some(CloseBrace) };
    (kind '~') => { Some(Tilde) };
    (kind $other:tt) => { None };
}

macro_rules! cells {
    ($of:ident $($char:tt)*) => { &[$(cell!($of $char)),*] };
}

/// A table with the entry of `cell` for each ASCII character, 16 in a row, and for the cells after them. A cell is the
/// character itself, or `w` for a character of words, `s` for whitespace, `0` for a digit, and `u` for a character that
/// starts no token.
macro_rules! picture {
    ($of:ident $($past:tt)*) => {
        cells!($of
             u    u    u    u    u    u    u    u    u    s    s    s    s    s    u    u
             u    u    u    u    u    u    u    u    u    u    u    u    u    u    u    u
             s   '!'  '"'  '#'  '$'  '%'  '&'  '\'' '('  ')'  '*'  '+'  ','  '-'  '.'  '/'
             0    0    0    0    0    0    0    0    0    0   ':'  ';'  '<'  '='  '>'  '?'
            '@'   w    w    w    w    w    w    w    w    w    w    w    w    w    w    w
             w    w    w    w    w    w    w    w    w    w    w   '['   u   ']'  '^'   w
             u    w    w    w    w    w    w    w    w    w    w    w    w    w    w    w
             w    w    w    w    w    w    w    w    w    w    w   '{'  '|'  '}'  '~'   u
            $($past)*)
    };
}

/// The families of the ASCII characters.
const FAMILIES: &[Family; 128] = picture!(family);

/// The kind of the token that starts with a byte, if the token's run and the byte after the run determine the whole
/// token. A lookup in a table is faster than a branch, since the next byte is hard to predict.
const CLASSIFIED: &[Option<TokenKind>; 256] = picture!(kind
    n n n n n n n n n n n n n n n n n n n n n n n n n n n n n n n n
    n n n n n n n n n n n n n n n n n n n n n n n n n n n n n n n n
    n n n n n n n n n n n n n n n n n n n n n n n n n n n n n n n n
    n n n n n n n n n n n n n n n n n n n n n n n n n n n n n n n n);

/// Returns the family of tokens that start with the character.
#[inline(always)]
pub(crate) fn family_of(first: char) -> Family
    ensures { result ≡ spec.family_of first }
{
    let code = first as usize;
    if code < 128 {
        FAMILIES[code]
    } else {
        family_past_ascii(first)
    }
}

/// Returns the family of tokens that start with an ASCII byte, or `None` for a byte outside ASCII.
#[inline(always)]
pub(crate) fn family_of_byte(first: u8) -> Option<Family>
    ensures { MatchOption result (128 ≤ first)
        (λ family. (first < 128) × (family ≡ spec.family_of first)) }
{
    if first < 128 {
        Some(FAMILIES[first as usize])
    } else {
        None
    }
}

/// Returns the family of tokens that start with a character outside ASCII.
#[tactic(auto, using(crate::proofs::lemmas::tokens::Families::wide_word, std::proofs::lemmas::Grind::common_steps))]
fn family_past_ascii(first: char) -> Family
    requires { 128 ≤ first }
    ensures { result ≡ spec.family_of first }
{
    if unicode_ident::is_xid_start(first) {
        Word
    } else if is_whitespace(first) {
        Space
    } else if is_emoji(first) {
        Family::Emoji
    } else {
        Symbol
    }
}

/// Returns the kind of the token that starts with the byte, if its run and the byte after the run determine the whole
/// token.
#[inline(always)]
pub(crate) fn classified_by(first: u8) -> Option<TokenKind>
    ensures { result ≡ spec.classified first }
{
    CLASSIFIED[first as usize]
}

/// Returns the kind of a token of one character, which is `Unknown` unless it is a symbol.
#[inline(always)]
pub(crate) fn symbol_kind(c: char) -> TokenKind
    requires { Lexeme.family_of c ≡ Symbol }
    ensures { result ≡ Lexeme.symbol_kind c }
{
    let code = c as usize;
    if code < 128 {
        CLASSIFIED[code].unwrap_or(Unknown)
    } else {
        Unknown
    }
}
