//! The head of a document, which is the text before its body.
ghost use Rattle.std.specs.Prelude.{◌≡◌, ◌++◌, Bool, OnOk, false, length, true};
ghost use Rattle.std.specs.Str.{IsCharBoundary};
ghost use Rattle.rustc_lexer.specs.Classes.{Fits};
ghost use Rattle.rustc_lexer.specs.LexedText.{layout_in};
ghost use Rattle.rustc_lexer.specs.Relexer as spec;
ghost use Rattle.rustc_lexer.specs.model.Document as model;

use crate::frontmatter::frontmatter;
use crate::scan::eat_whitespace;
use crate::shebang::tokens_start;
use crate::token::{Token, TokenKind};
use std::alloc::AllocError;

/// The head of a document, which is the text before its body: a byte order mark, a shebang line and a frontmatter.
///
/// It is for programs that store the tokens of a whole file in lists of their own. [`Head::body_change`] returns the
/// change of the body by an edit of the document, and [`Relexer`](crate::Relexer) re-lexes the part that changed.
///
/// ```
/// use rustc_lexer::incremental::{Change, Head};
///
/// let (old, new) = ("#!/bin/sh\nlet a;", "#!/bin/sh\nlet ab;");
/// // A `b` was inserted at 15.
/// let change = Change { start: 15, old_end: 15, new_end: 16 };
/// let (head, now) = (Head::find(old), Head::find(new));
/// let body = head.body_change(now, change);
/// assert!(body.keeps_head);
/// assert_eq!(&new[now.body..], "\nlet ab;");
/// assert_eq!(body.change, Change { start: 6, old_end: 6, new_end: 7 });
/// ```
#[derive(Clone, Copy, Debug, PartialEq, Eq)]
pub struct Head {
    /// The offset of the first token in bytes, which is the length of the byte order mark and the shebang line.
    pub tokens_start: usize,
    /// The length in bytes of the whitespace before the frontmatter if it is a token of its own, and otherwise 0.
    pub space_len: u32,
    /// The frontmatter, or `None` if there is none.
    pub frontmatter: Option<Token>,
    /// The offset of the body, in bytes from the start of the text.
    pub body: usize,
}

/// How much of a file a text contains: a whole document, which can have a head, or a fragment, which has none.
pub trait Extent: Copy {
    /// Whether the text is a whole document.
    ghost whole: { Bool };

    /// Finds the head of a text.
    fn find_head(text: &str) -> Head
        requires fits { Fits text.now }
        ensures head { model.IsHeadIn (layout_in whole) text.now result }
        ensures boundary { IsCharBoundary text.now result.body };
}

/// A whole file, which can have a head.
#[derive(Clone, Copy)]
pub struct Document;

impl Extent for Document {
    ghost whole = { true };

    fn find_head(text: &str) -> Head {
        let start = tokens_start(text);
        let rest = &text[start..];
        if let Some(front) = frontmatter(rest) {
            return Head {
                tokens_start: start,
                space_len: 0,
                frontmatter: Some(front),
                body: start + front.len as usize,
            };
        }
        let past = eat_whitespace(rest);
        match frontmatter(past) {
            Some(front) => {
                let space = rest.len() - past.len();
                Head {
                    tokens_start: start,
                    space_len: space as u32,
                    frontmatter: Some(front),
                    body: start + space + front.len as usize,
                }
            }
            None => Head {
                tokens_start: start,
                space_len: 0,
                frontmatter: None,
                body: start,
            },
        }
    }
}

/// A fragment of a file, which has no head.
#[derive(Clone, Copy)]
pub struct Fragment;

impl Extent for Fragment {
    ghost whole = { false };

    fn find_head(_text: &str) -> Head {
        Head {
            tokens_start: 0,
            space_len: 0,
            frontmatter: None,
            body: 0,
        }
    }
}

impl Head {
    /// Returns the head of a document. The text must have at most `u32::MAX` bytes, which is not checked.
    #[tactic(auto, using(crate::proofs::lemmas::edits::Heads::is_page, std::proofs::lemmas::Grind::common_steps))]
    pub fn find(text: &str) -> Head
        requires fits { Fits text.now }
        ensures head { spec.IsHeadOf text.now result }
        ensures boundary { IsCharBoundary text.now result.body }
    {
        Document::find_head(text)
    }

    /// Returns the number of tokens in the head.
    pub fn count(self) -> usize
        ensures { result ≡ length (spec.tokens_of_head self) }
    {
        match self.frontmatter {
            None => 0,
            Some(_) => { if self.space_len == 0 { 1 } else { 2 } }
        }
    }

    /// Appends the tokens of the head to the list.
    pub(crate) fn push_to(self, list: &mut Vec<Token>) -> Result<(), AllocError>
        ensures { OnOk result (list.new.items ≡ list.old.items ++ spec.tokens_of_head self) }
    {
        if let Some(front) = self.frontmatter {
            if self.space_len > 0 {
                list.push(Token {
                    kind: TokenKind::Whitespace,
                    len: self.space_len,
                })?;
            }
            list.push(front)?;
        }
        Ok(())
    }
}
