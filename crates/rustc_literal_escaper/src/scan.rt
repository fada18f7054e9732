//! Splits a text after its first character.
ghost use Rattle.std.specs.Prelude.{◌≡◌, ◌<◌, ◌∷◌, [], length, MatchOption};
ghost use Rattle.std.specs.Str.{chars, IsUtf8};

/// Returns the first character and the text after it, or `None` if the text is empty.
#[inline(always)]
pub fn split_first(rest: &str) -> Option<(char, &str)>
    ensures { MatchOption result (chars rest.now ≡ [])
        (λ r. (chars rest.now ≡ r.0 ∷ chars r.1.now) × (length r.1.now < length rest.now)
        × IsUtf8 r.1.now) }
{
    let mut chars = rest.chars();
    let first = chars.next()?;
    Some((first, chars.as_str()))
}
