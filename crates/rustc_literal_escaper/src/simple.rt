//! Skips simple characters at the start of a text, 32 bytes at a time. They are valid in every kind of string.
ghost use Rattle.std.specs.Prelude.{◌≡◌, ◌≤◌, ◌+◌, ◌++◌, [], true, false, length, map};
ghost use Rattle.std.specs.List.{list_all, prefix_len};
ghost use Rattle.std.specs.Simd.Lanes.{mask_l};
ghost use Rattle.std.specs.Str.{chars, IsUtf8};
ghost use Rattle.rustc_literal_escaper.specs.model.Plain as spec;

use std::simd::prelude::*;

/// Splits a text after the simple characters at its start. A short text is not searched.
#[inline(always)]
#[tactic(auto, using(crate::proofs::LaneLemmas::run_front))]
pub(crate) fn split_simple(text: &str, raw: bool) -> (&[u8], &str)
    ensures simple { list_all (spec.is_simple raw) result.0.now ≡ true }
    ensures whole { text.now ≡ result.0.now ++ result.1.now }
    ensures text { IsUtf8 result.1.now }
    ensures sizes { length text.now ≡ length result.0.now + length result.1.now }
{
    let least = if raw { 16 } else { 4 };
    if text.len() < least {
        return (&[], text);
    }
    let end = simple_end(text.as_bytes(), raw);
    (&text.as_bytes()[..end], &text[end..])
}

/// Returns the text after the simple characters at its start. A text of fewer than 32 bytes is not searched.
#[inline(always)]
#[tactic(auto, using(crate::proofs::RunLemmas::simple_lemmas))]
pub(crate) fn past_simple(rest: &str, raw: bool) -> &str
    ensures passes { spec.Passes (spec.is_simple raw) (chars rest.now) (chars result.now) }
    ensures text { IsUtf8 result.now }
    ensures shorter { length result.now ≤ length rest.now }
{
    if rest.len() < 32 {
        return rest;
    }
    let bytes = rest.as_bytes();
    if bytes[0] == b'\\' || bytes[0] >= 128 {
        return rest;
    }
    let end = simple_end(bytes, raw);
    &rest[end..]
}

/// Returns whether the text is the contents of a raw string of fewer than 32 bytes, all of them simple. It also returns
/// `false` for some control characters that are simple, since one comparison less per byte matters more.
pub(crate) fn is_short_and_simple(text: &str) -> bool
    ensures { result ≡ true → spec.Passes (spec.is_simple true) (chars text.now) [] }
{
    let bytes = text.as_bytes();
    if bytes.len() >= 32 {
        return false;
    }
    for byte in bytes {
        if *byte <= b'\r' || *byte >= 128 {
            return false;
        }
    }
    true
}

/// Returns the number of simple bytes at the start.
#[inline(never)]
#[tactic(auto, using(crate::proofs::LaneLemmas::run_through, crate::proofs::RunLemmas::level_lemmas))]
fn simple_end(bytes: &[u8], raw: bool) -> usize
    ensures simple { result ≤ prefix_len (spec.is_simple raw) bytes.now }
    ensures inside { result ≤ length bytes.now }
{
    let mut end = 0;
    'lanes: while bytes.len() - end >= 32 {
        let found = stops(u8x32::from_slice(&bytes[end..]), raw);
        if found != 0 {
            return end + found.trailing_zeros() as usize;
        }
        end += 32;
    }
    let least = if raw { 1 } else { 2 };
    'bytes: while end < bytes.len() && simple_level(bytes[end]) >= least {
        end += 1;
    }
    end
}

/// Returns 2 if a byte is simple, 1 if it is simple only in raw strings, and 0 otherwise.
#[inline(always)]
fn simple_level(byte: u8) -> u8
    ensures { result ≡ spec.simple_level byte }
{
    let code = byte as usize;
    SIMPLE[code]
}

/// The levels of all bytes. A lookup in a table costs less than four comparisons.
static SIMPLE: [u8; 256] = [
    0, 2, 2, 2, 2, 2, 2, 2, 2, 2, 2, 2, 2, 0, 2, 2, 2, 2, 2, 2, 2, 2, 2, 2, 2, 2, 2, 2, 2, 2, 2, 2,
    2, 2, 1, 2, 2, 2, 2, 2, 2, 2, 2, 2, 2, 2, 2, 2, 2, 2, 2, 2, 2, 2, 2, 2, 2, 2, 2, 2, 2, 2, 2, 2,
    2, 2, 2, 2, 2, 2, 2, 2, 2, 2, 2, 2, 2, 2, 2, 2, 2, 2, 2, 2, 2, 2, 2, 2, 2, 2, 2, 2, 1, 2, 2, 2,
    2, 2, 2, 2, 2, 2, 2, 2, 2, 2, 2, 2, 2, 2, 2, 2, 2, 2, 2, 2, 2, 2, 2, 2, 2, 2, 2, 2, 2, 2, 2, 2,
    0, 0, 0, 0, 0, 0, 0, 0, 0, 0, 0, 0, 0, 0, 0, 0, 0, 0, 0, 0, 0, 0, 0, 0, 0, 0, 0, 0, 0, 0, 0, 0,
    0, 0, 0, 0, 0, 0, 0, 0, 0, 0, 0, 0, 0, 0, 0, 0, 0, 0, 0, 0, 0, 0, 0, 0, 0, 0, 0, 0, 0, 0, 0, 0,
    0, 0, 0, 0, 0, 0, 0, 0, 0, 0, 0, 0, 0, 0, 0, 0, 0, 0, 0, 0, 0, 0, 0, 0, 0, 0, 0, 0, 0, 0, 0, 0,
    0, 0, 0, 0, 0, 0, 0, 0, 0, 0, 0, 0, 0, 0, 0, 0, 0, 0, 0, 0, 0, 0, 0, 0, 0, 0, 0, 0, 0, 0, 0, 0,
];

/// Returns a mask: bit k is set if lane k is not simple.
#[inline(always)]
fn stops(v: u8x32, raw: bool) -> u64
    ensures { result ≡ mask_l (map (spec.is_stop raw) v) }
{
    if raw { raw_stops(v) } else { escaped_stops(v) }
}

/// Returns the mask for a raw string: bit k is set if lane k is 0, a carriage return or not ASCII.
#[inline(always)]
fn raw_stops(v: u8x32) -> u64
    ensures { result ≡ mask_l (map (spec.is_stop true) v) }
{
    let from_1 = v - u8x32::splat(1);
    (from_1.simd_ge(u8x32::splat(127)) | v.simd_eq(u8x32::splat(b'\r'))).to_bitmask()
}

/// Returns the mask for a string that is not raw: bit k is set also if lane k is a backslash or a double quote.
#[inline(always)]
fn escaped_stops(v: u8x32) -> u64
    ensures { result ≡ mask_l (map (spec.is_stop false) v) }
{
    let from_1 = v - u8x32::splat(1);
    (from_1.simd_ge(u8x32::splat(127))
        | v.simd_eq(u8x32::splat(b'\r'))
        | v.simd_eq(u8x32::splat(b'\\'))
        | v.simd_eq(u8x32::splat(b'"'))).to_bitmask()
}
