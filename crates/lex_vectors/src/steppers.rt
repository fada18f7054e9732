//! Steppers for tests: one counts its calls, and one has a grammar of its own.
ghost use Rattle.std.specs.Prelude.{◌≡◌, ◌<◌, length};
ghost use Rattle.lex_vectors.specs.Characters.{character};

use rustc_lexer::{Edition, Stepper, Steps, Token, TokenKind};

/// A `Steps` that counts its calls, up to `u64::MAX`.
#[derive(Drop)]
pub struct Counting {
    steps: Steps,
    pub calls: u64,
}

impl Counting {
    /// Returns a stepper for an edition, with a count of 0.
    pub fn new_in(edition: Edition) -> Counting
        ensures { result.calls ≡ 0 }
    {
        Counting {
            steps: Steps::new_in(edition),
            calls: 0,
        }
    }
}

impl Stepper for Counting {
    ghost grammar = { λ c. ⟦<Steps as Stepper>⟧.grammar c.steps };

    ghost count = { λ c. ⟦<Steps as Stepper>⟧.count c.steps };

    ghost law = { λ c. ⟦<Steps as Stepper>⟧.law c.steps };

    fn step(&mut self, rest: &str) -> Token {
        let token = self.steps.step(rest);
        self.calls = self.calls.saturating_add(1);
        token
    }
}

/// A stepper whose tokens are single characters.
#[derive(Drop)]
pub struct Characters {
    steps: Steps,
}

impl Characters {
    pub fn new() -> Characters {
        Characters {
            steps: Steps::new(),
        }
    }
}

impl Stepper for Characters {
    ghost use Rattle.lex_vectors.specs.Characters.{character, character_grammar};

    ghost grammar = { λ _. record { first = character; id = 0 } };

    ghost count = { λ c. ⟦<Steps as Stepper>⟧.count c.steps };

    ghost law = { λ _. character_grammar };

    fn step(&mut self, rest: &str) -> Token {
        let _ = self.steps.step(rest);
        first_character(rest)
    }
}

fn first_character(rest: &str) -> Token
    requires not_empty { 0 < length rest.now }
    ensures { result ≡ character rest.now }
{
    let len = match rest.chars().next() {
        Some(c) => c.len_utf8() as u32,
        None => 0,
    };
    Token {
        kind: TokenKind::Unknown,
        len,
    }
}
