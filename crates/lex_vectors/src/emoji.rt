//! The ends of each range of emoji are emoji, and their neighbours are not.
//!
//! A lifetime has a field that is true if it starts with an emoji, whatever else that character is. The field is also
//! true for a digit, and a digit starts a number. So no token shows that a digit is not an emoji.
use crate::tables::kinds::BAD_LIFETIME;
use rustc_lexer::{FrontmatterAllowed, TokenKind, fits, is_id_start, tokenize};
use std::alloc::{AllocError, Global};

/// The ends of each range. A range of one character is written as that character.
macro_rules! ranges {
    (@last $low:literal) => { $low };
    (@last $low:literal $high:literal) => { $high };
    ($($low:literal $(..=$high:literal)?),* $(,)?) => {
        &[$(($low, ranges!(@last $low $($high)?))),*]
    };
}

/// The ranges below U+10000.
static NEAR: &[(u32, u32)] = ranges! {
    0xA9, 0xAE, 0x203C, 0x2049, 0x2122, 0x2139, 0x2194..=0x2199, 0x21A9..=0x21AA, 0x231A..=0x231B, 0x2328, 0x23CF,
    0x23E9..=0x23F3, 0x23F8..=0x23FA, 0x24C2, 0x25AA..=0x25AB, 0x25B6, 0x25C0, 0x25FB..=0x25FE, 0x2600..=0x2604,
    0x260E, 0x2611, 0x2614..=0x2615, 0x2618, 0x261D, 0x2620, 0x2622..=0x2623, 0x2626, 0x262A, 0x262E..=0x262F,
    0x2638..=0x263A, 0x2640, 0x2642, 0x2648..=0x2653, 0x265F..=0x2660, 0x2663, 0x2665..=0x2666, 0x2668, 0x267B,
    0x267E..=0x267F, 0x2692..=0x2697, 0x2699, 0x269B..=0x269C, 0x26A0..=0x26A1, 0x26A7, 0x26AA..=0x26AB,
    0x26B0..=0x26B1, 0x26BD..=0x26BE, 0x26C4..=0x26C5, 0x26C8, 0x26CE..=0x26CF, 0x26D1, 0x26D3..=0x26D4,
    0x26E9..=0x26EA, 0x26F0..=0x26F5, 0x26F7..=0x26FA, 0x26FD, 0x2702, 0x2705, 0x2708..=0x270D, 0x270F, 0x2712,
    0x2714, 0x2716, 0x271D, 0x2721, 0x2728, 0x2733..=0x2734, 0x2744, 0x2747, 0x274C, 0x274E, 0x2753..=0x2755, 0x2757,
    0x2763..=0x2764, 0x2795..=0x2797, 0x27A1, 0x27B0, 0x27BF, 0x2934..=0x2935, 0x2B05..=0x2B07, 0x2B1B..=0x2B1C,
    0x2B50, 0x2B55, 0x3030, 0x303D, 0x3297, 0x3299,
};

/// The ranges from U+10000 on. Two tables are proved faster than one.
static FAR: &[(u32, u32)] = ranges! {
    0x1F004, 0x1F0CF, 0x1F170..=0x1F171, 0x1F17E..=0x1F17F, 0x1F18E, 0x1F191..=0x1F19A, 0x1F1E6..=0x1F1FF,
    0x1F201..=0x1F202, 0x1F21A, 0x1F22F, 0x1F232..=0x1F23A, 0x1F250..=0x1F251, 0x1F300..=0x1F321, 0x1F324..=0x1F393,
    0x1F396..=0x1F397, 0x1F399..=0x1F39B, 0x1F39E..=0x1F3F0, 0x1F3F3..=0x1F3F5, 0x1F3F7..=0x1F4FD, 0x1F4FF..=0x1F53D,
    0x1F549..=0x1F54E, 0x1F550..=0x1F567, 0x1F56F..=0x1F570, 0x1F573..=0x1F57A, 0x1F587, 0x1F58A..=0x1F58D, 0x1F590,
    0x1F595..=0x1F596, 0x1F5A4..=0x1F5A5, 0x1F5A8, 0x1F5B1..=0x1F5B2, 0x1F5BC, 0x1F5C2..=0x1F5C4, 0x1F5D1..=0x1F5D3,
    0x1F5DC..=0x1F5DE, 0x1F5E1, 0x1F5E3, 0x1F5E8, 0x1F5EF, 0x1F5F3, 0x1F5FA..=0x1F64F, 0x1F680..=0x1F6C5,
    0x1F6CB..=0x1F6D2, 0x1F6D5..=0x1F6D7, 0x1F6DC..=0x1F6E5, 0x1F6E9, 0x1F6EB..=0x1F6EC, 0x1F6F0, 0x1F6F3..=0x1F6FC,
    0x1F7E0..=0x1F7EB, 0x1F7F0, 0x1F90C..=0x1F93A, 0x1F93C..=0x1F945, 0x1F947..=0x1F9FF, 0x1FA70..=0x1FA7C,
    0x1FA80..=0x1FA88, 0x1FA90..=0x1FABD, 0x1FABF..=0x1FAC5, 0x1FACE..=0x1FADB, 0x1FAE0..=0x1FAE8, 0x1FAF0..=0x1FAF8,
};

/// Returns the kind of the first token of `front` followed by this character.
fn kind_of(alloc: Global, front: &str, c: char) -> Result<Option<TokenKind>, AllocError> {
    let mut text = String::from_str(alloc, front)?;
    text.push(c)?;
    if !fits(text.as_str()) {
        return Ok(None);
    }
    match tokenize(text.as_str(), FrontmatterAllowed::No).next() {
        Some(token) => Ok(Some(token.kind)),
        None => Ok(None),
    }
}

/// Returns whether the tokens of the character show that it is an emoji, or that it is not, as `emoji` expects.
fn is_shown(alloc: Global, code: u32, emoji: bool) -> Result<bool, AllocError> {
    let Some(c) = char::from_u32(code) else {
        return Ok(false);
    };
    let begins_lifetime = kind_of(alloc, "'", c)? == Some(BAD_LIFETIME);
    let begins_word = kind_of(alloc, "", c)? == Some(TokenKind::InvalidIdent);
    Ok(begins_lifetime == emoji && begins_word == (emoji && !is_id_start(c)))
}

/// Returns whether the ends of the range are emoji, and its neighbours are not.
fn is_range(alloc: Global, low: u32, high: u32) -> Result<bool, AllocError> {
    Ok(
        is_shown(alloc, low, true)?
            && is_shown(alloc, high, true)?
            && is_shown(alloc, low.wrapping_sub(1), false)?
            && is_shown(alloc, high.wrapping_add(1), false)?,
    )
}

#[test]
fn ends_of_ranges(rt: HostRuntime) -> Result<(), AllocError> {
    for ranges in [NEAR, FAR] {
        for (low, high) in ranges {
            assert!(rt;
                is_range(rt.alloc(), *low, *high)?,
                "at {low:#x}..={high:#x}"
            );
        }
    }
    Ok(())
}

#[test]
fn ascii(rt: HostRuntime) -> Result<(), AllocError> {
    for c in ['\0', '#', '*', 'a', '\u{7f}'] {
        assert!(rt; is_shown(rt.alloc(), u32::from(c), false)?, "at {c:?}");
    }
    for digit in ['0', '9'] {
        assert!(rt; kind_of(rt.alloc(), "", digit)? != Some(TokenKind::InvalidIdent));
    }
    Ok(())
}
