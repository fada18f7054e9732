//! Guarded strings.
ghost use Rattle.std.specs.Prelude.{◌≡◌, ◌≤◌, IfSome, min, length};
ghost use Rattle.std.specs.Str.{chars, IsCharBoundary};
ghost use Rattle.rustc_lexer.specs.Answers.{guarded};
ghost use Rattle.rustc_lexer.specs.model.Guarded as spec;
ghost use Rattle.rustc_lexer.specs.model.Raw.{hash_run};
ghost use Rattle.rustc_lexer.specs.model.Scan.{past, scanned};

use crate::cursor::Cursor;
use crate::lexemes::body::BodyEnd;
use crate::lexemes::literal::eat_literal_suffix;
use crate::lexemes::quoted::double_quoted_string;
use crate::scan::{self, strip};
use crate::token::GuardedStr;

impl<'a> Cursor<'a> {
    /// Consumes and returns a guarded string: hashes, a string, at most as many hashes again, and a suffix. Its length
    /// includes the pending bytes, and afterwards no bytes are pending. An unterminated string extends to the end of
    /// the text.
    ///
    /// If no quote follows the hashes, consumes only the hashes and returns `None`. They are then pending, and so part
    /// of the next token.
    ///
    /// Rust Reference: [reserved guards](https://doc.rust-lang.org/reference/tokens.html#reserved-guards).
    ///
    /// ```ignore
    /// let mut cursor = Cursor::new("##\"a\"#", FrontmatterAllowed::No);
    /// let string = cursor.guarded_double_quoted_string(); // 2 hashes, terminated, of length 6
    /// ```
    #[inline]
    pub fn guarded_double_quoted_string(&mut self) -> Option<GuardedStr>
        ensures answer { result ≡ (guarded self.old).0 }
        ensures state { self.new ≡ (guarded self.old).1 }
    {
        let rest = self.as_str();
        let n_hashes = count_hashes(rest);
        let Some((terminated, len)) = string_past(rest, n_hashes) else {
            self.tokens.skip_bytes(n_hashes);
            self.pending += n_hashes as u32;
            return None;
        };
        let token_len = self.pending + len as u32;
        self.tokens.skip_bytes(len);
        self.pending = 0;
        Some(GuardedStr {
            n_hashes: n_hashes as u32,
            terminated,
            token_len,
        })
    }
}

/// Returns the number of leading hashes.
#[inline]
#[tactic(auto, using(crate::proofs::lemmas::tokens::Raw::hash_boundary, crate::proofs::lemmas::tokens::Raw::hash_len, std::proofs::lemmas::Grind::common_steps))]
fn count_hashes(rest: &str) -> usize
    ensures count { result ≡ hash_run (chars rest.now) }
    ensures boundary { IsCharBoundary rest.now result }
{
    rest.len() - scan::eat_hashes(rest).len()
}

/// Lexes a guarded string that starts with `n_hashes` hashes. Returns whether it is terminated, and its length in
/// bytes, or `None` if no string follows the hashes.
#[inline]
#[tactic(auto, using(crate::proofs::lemmas::tokens::Guarded::no_string, std::proofs::lemmas::Grind::common_steps))]
fn string_past(rest: &str, n_hashes: usize) -> Option<(bool, usize)>
    requires { n_hashes ≡ hash_run (chars rest.now) }
    ensures read { result ≡ spec.string_past n_hashes (chars rest.now) }
    ensures boundary { IfSome result (λ string. IsCharBoundary rest.now string.1) }
{
    let body = strip(&rest[n_hashes..], b'"')?;
    let end = guarded_body(body, n_hashes);
    Some((end.terminated, rest.len() - end.rest.len()))
}

/// Returns whether the string is terminated, and the text after its closing hashes and its suffix. `body` is the text
/// after the opening quote.
#[tactic(auto, using(crate::specs::laws::Scan::scan_lemmas, std::proofs::lemmas::Grind::common_steps))]
fn guarded_body(body: &str, n_hashes: usize) -> BodyEnd<'_>
    ensures shorter { length result.rest.now ≤ length body.now }
    ensures read { (result.terminated, result.rest.now)
        ≡ scanned (spec.guarded_body n_hashes) body.now }
{
    let end = double_quoted_string(body);
    if end.terminated {
        BodyEnd {
            terminated: true,
            rest: eat_literal_suffix(eat_hashes_up_to(end.rest, n_hashes)),
        }
    } else {
        end
    }
}

/// Skips at most `most` leading hashes, and returns the text after them.
#[tactic(auto, using(crate::proofs::lemmas::tokens::Raw::hash_boundary, crate::proofs::lemmas::tokens::Raw::hash_cut, std::proofs::lemmas::Grind::common_steps))]
fn eat_hashes_up_to(rest: &str, most: usize) -> &str
    ensures shorter { length result.now ≤ length rest.now }
    ensures past { result.now ≡ past (min most (hash_run (chars rest.now))) rest.now }
{
    &rest[count_hashes(rest).min(most)..]
}
