//! The head of a lexed document.
ghost use Rattle.std.specs.Prelude.{◌≡◌, ◌≤◌, drop, length};
ghost use Rattle.rustc_lexer.specs.Document as spec;
ghost use Rattle.rustc_lexer.specs.Tokens.{tokens_by};

use crate::entry::stepper::Stepper;
use crate::head::Document;
use crate::relex::boundary::TokenStart;
use crate::relex::lexed::Lexed;

impl<S: Stepper> Lexed<S, Document> {
    /// Returns the offset of the first token, in bytes: only a byte order mark and a shebang line come before it.
    pub fn tokens_start(&self) -> usize
        ensures start { result ≡ spec.tokens_start self.now.text }
        ensures inside { result ≤ length self.now.text }
    {
        self.parts.head.tokens_start
    }

    /// Returns the start of the body: its offset in bytes, and the number of tokens before it. These are the tokens up
    /// to and including the frontmatter, or none if there is no frontmatter.
    pub fn body_start(&self) -> TokenStart
        ensures number { result.index ≡ length (spec.head_tokens self.now.text) }
        ensures offset { result.offset ≡ spec.body_start self.now.text }
        ensures tokens { drop result.index self.now.tokens
            ≡ tokens_by (S.grammar self.now.stepper).first (drop result.offset self.now.text) }
    {
        TokenStart {
            index: self.parts.head.count(),
            offset: self.parts.head.body,
        }
    }
}
