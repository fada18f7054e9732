//! The head of a document, and the change of its body by an edit of the document.
ghost use Rattle.std.specs.Prelude.{◌≡◌, ◌<◌, ◌^◌};
ghost use Rattle.std.specs.Str.{IsUtf8};
ghost use Rattle.rustc_lexer_c.specs.Head as spec;

use crate::batch::NO_TOKEN;
use crate::relex::{CEdit, change_of};
use crate::status::{OK, Refusal, text_of, utf8_text_of, validate};
use crate::token::{CToken, token_numbers};
use rustc_lexer::{Change, Head, Token, TokenKind};

/// The head of a document: everything before its body, such as a shebang line and a frontmatter.
#[repr(C)]
#[derive(Clone, Copy, Debug, PartialEq, Eq)]
pub struct CHead {
    /// The offset of the first token, in bytes: only a byte order mark and a shebang line come before it.
    pub tokens_start: u32,
    /// The offset at which the body starts, in bytes.
    pub body: u32,
    /// The number of tokens before the body: 0, 1 or 2.
    pub count: u32,
    /// These tokens, followed by zeros.
    pub tokens: [CToken; 2],
}

/// Finds the head of the current text, and the change of the body by an edit of the document.
///
/// Before the call, `head` is the head of the text before the edit, as the call for the previous edit left it. Zeros
/// are the head of an empty text. Overwrites it with the current head. Writes the change of the body into `body_edit`,
/// as offsets from the start of the body, and 1 into `head_kept` if all tokens of the head are kept, otherwise 0. If
/// the call fails, it writes nothing.
#[unsafe(no_mangle)]
pub extern "C" fn rustc_lexer_body_edit(
    text: &[u8],
    edit: &CEdit,
    head: &mut CHead,
    body_edit: &mut CEdit,
    head_kept: &mut u32,
) -> u32
    ensures { spec.FindsHead text.now edit.now head.old head.new body_edit.old body_edit.new
        head_kept.old head_kept.new result }
{
    validate!(text_of(text));
    rustc_lexer_body_edit_unchecked(text, edit, head, body_edit, head_kept)
}

/// Like `rustc_lexer_body_edit`, but does not check that the text is UTF-8. `rustc_lexer_check` must have accepted it.
#[unsafe(no_mangle)]
pub extern "C" fn rustc_lexer_body_edit_unchecked(
    text: &[u8],
    edit: &CEdit,
    head: &mut CHead,
    body_edit: &mut CEdit,
    head_kept: &mut u32,
) -> u32
    requires utf8 { IsUtf8 text.now }
    ensures { spec.FindsHead text.now edit.now head.old head.new body_edit.old body_edit.new
        head_kept.old head_kept.new result }
{
    let text = validate!(utf8_text_of(text));
    let change = change_of(edit);
    if !change.is_valid_for(text) {
        return Refusal::InvalidEdit.number();
    }
    let now = Head::find(text);
    let body = head_of(head).body_change(now, change);
    if !body.change.is_valid_for(&text[now.body..]) {
        return Refusal::InvalidEdit.number();
    }
    *head = numbers_of_head(now);
    *body_edit = edit_of(body.change);
    *head_kept = u32::from(body.keeps_head);
    OK
}

/// Returns the head with these numbers.
fn head_of(numbers: &CHead) -> Head
    ensures head { result ≡ spec.head_of numbers.now }
    ensures end { result.body < 2 ^ 32 }
{
    let [first, second] = numbers.tokens;
    let (space, front) = match numbers.count {
        0 => (0, None),
        1 => (0, Some(frontmatter_of(first))),
        _ => (first.len, Some(frontmatter_of(second))),
    };
    Head {
        tokens_start: numbers.tokens_start as usize,
        space_len: space,
        frontmatter: front,
        body: numbers.body as usize,
    }
}

/// Returns the frontmatter with these numbers.
fn frontmatter_of(numbers: CToken) -> Token
    ensures { result ≡ spec.frontmatter_of numbers }
{
    Token {
        kind: TokenKind::Frontmatter {
            has_invalid_preceding_whitespace: numbers.first != 0,
            invalid_infostring: numbers.second != 0,
        },
        len: numbers.len,
    }
}

/// Returns a head as numbers.
fn numbers_of_head(head: Head) -> CHead
    requires shebang { head.tokens_start < 2 ^ 32 }
    requires end { head.body < 2 ^ 32 }
    ensures { result ≡ spec.numbers_of_head head }
{
    let (count, tokens) = match head.frontmatter {
        None => (0, [NO_TOKEN, NO_TOKEN]),
        Some(front) if head.space_len == 0 => (1, [token_numbers(front), NO_TOKEN]),
        Some(front) => {
            let space = Token {
                kind: TokenKind::Whitespace,
                len: head.space_len,
            };
            (2, [token_numbers(space), token_numbers(front)])
        }
    };
    CHead {
        tokens_start: head.tokens_start as u32,
        body: head.body as u32,
        count,
        tokens,
    }
}

/// Returns a change as an edit.
fn edit_of(change: Change) -> CEdit
    requires start { change.start < 2 ^ 32 }
    requires old_end { change.old_end < 2 ^ 32 }
    requires new_end { change.new_end < 2 ^ 32 }
    ensures { result ≡ record {
      start = change.start;
      old_end = change.old_end;
      new_end = change.new_end;
    } }
{
    CEdit {
        start: change.start as u32,
        old_end: change.old_end as u32,
        new_end: change.new_end as u32,
    }
}
