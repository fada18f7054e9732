//! The common prefix and the common suffix of two texts.
//!
//! Both functions halve the range of possible lengths in each step, so they compare long slices, and in total no more
//! bytes than a text has.
ghost use Rattle.std.specs.Prelude.{◌-◌, ◌≤◌, ℕ, length, IsCharBoundary};
ghost use Rattle.rustc_lexer.specs.model.Relexer.{IsCommonSuffix, IsCommonPrefix};

/// Returns the length in bytes of the longest common prefix that ends on a character boundary.
#[tactic(auto, using(crate::proofs::lemmas::edits::InCommon::front_lemmas, std::proofs::lemmas::Grind::common_steps))]
pub(crate) fn common_prefix(old: &str, new: &str) -> usize
    ensures front { IsCommonPrefix old.now new.now result }
    ensures old_boundary { IsCharBoundary old.now result }
    ensures new_boundary { IsCharBoundary new.now result }
    ensures longest { (n : ℕ) → IsCommonPrefix old.now new.now n → IsCharBoundary old.now n
        → n ≤ result }
{
    let (old_bytes, new_bytes) = (old.as_bytes(), new.as_bytes());
    let mut front = 0;
    let mut end = old_bytes.len().min(new_bytes.len());
    'halves: while front < end {
        let middle = end - (end - front) / 2;
        if old_bytes[front..middle] == new_bytes[front..middle] {
            front = middle;
        } else {
            end = middle - 1;
        }
    }
    'chars: while !old.is_char_boundary(front) {
        front -= 1;
    }
    front
}

/// Returns the length in bytes of the longest common suffix after `start` that starts on a character boundary.
pub(crate) fn common_suffix(old: &str, new: &str, start: usize) -> usize
    requires in_old { start ≤ length old.now }
    requires in_new { start ≤ length new.now }
    ensures back { IsCommonSuffix old.now new.now start result }
    ensures old_boundary { IsCharBoundary old.now (length old.now - result) }
    ensures new_boundary { IsCharBoundary new.now (length new.now - result) }
    ensures longest { (n : ℕ) → IsCommonSuffix old.now new.now start n
        → IsCharBoundary old.now (length old.now - n) → n ≤ result }
{
    let (old_bytes, new_bytes) = (old.as_bytes(), new.as_bytes());
    let (old_len, new_len) = (old.len(), new.len());
    let mut back = 0;
    let mut most = old_len.min(new_len) - start;
    'halves: while back < most {
        let middle = most - (most - back) / 2;
        if old_bytes[old_len - middle..old_len - back]
            == new_bytes[new_len - middle..new_len - back]
        {
            back = middle;
        } else {
            most = middle - 1;
        }
    }
    'chars: while !old.is_char_boundary(old_len - back) {
        back -= 1;
    }
    back
}
