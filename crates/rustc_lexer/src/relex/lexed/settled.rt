//! The final tokens of a text that grows at its end, such as a stream.
ghost use Rattle.rustc_lexer.specs.Locality.{IsSettled, StaysUpTo};
ghost use Rattle.rustc_lexer.specs.Tokens.{tokens_by};

use crate::entry::stepper::Stepper;
use crate::head::Fragment;
use crate::relex::boundary::{TokenStart, kept_front};
use crate::relex::lexed::Lexed;

impl<S: Stepper> Lexed<S, Fragment> {
    /// Returns the byte offset up to which tokens are final, whatever is appended to the text, or 0 if none are.
    ///
    /// A token is final once at least two characters follow it. This call lexes nothing and reads only the last tokens.
    pub fn settled(&self) -> usize
        ensures settled { IsSettled self.now.text self.now.tokens result }
        ensures stays { StaysUpTo result self.now.text (tokens_by (S.grammar self.now.stepper).first) }
    {
        let text = self.text();
        let tokens = self.tokens();
        let end = TokenStart {
            index: tokens.len(),
            offset: text.len(),
        };
        kept_front(text, tokens, text.len(), end).offset
    }
}
