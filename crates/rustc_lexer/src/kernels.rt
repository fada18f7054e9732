//! Searches that read 16 or 64 bytes at a time: for the end of a run, and for a byte.
ghost use Rattle.memchr.specs.Find.{IsFirstByte, is_byte, is_byte2};
ghost use Rattle.std.specs.Prelude.{◌≡◌, ◌+◌, ◌-◌, ◌^◌, ◌≤◌, ◌<◌, ◌∷◌, ◌&&◌, ◌||◌, ◌==◌, ℕ, suc, Bool, true, false};
ghost use Rattle.std.specs.Prelude.{drop, length, map, not, slice_index, take};
ghost use Rattle.std.specs.List.{prefix_len};
ghost use Rattle.std.specs.Simd.Lanes.{mask_l};
ghost use Rattle.std.proofs.Common.{arith};
ghost use Rattle.rustc_lexer.specs.model.ByteRuns.{is_continue_byte, is_space_byte, outside};
ghost use Rattle.rustc_lexer.specs.model.Ends.{bit, IsEnds};
ghost use Rattle.rustc_lexer.specs.model.Quick;
ghost use Rattle.rustc_lexer.specs.model.Scan;
ghost use Rattle.rustc_lexer.specs.model.Scan.{begins};

use crate::classes::ends_prefix;
use memchr::{memchr, memchr2};
use std::simd::prelude::*;

/// A class of ASCII bytes.
pub(crate) trait ByteClass {
    /// The number of bytes that [`stops`](ByteClass::stops) reads.
    const WIDTH: usize;

    ghost WIDTH: { ℕ };

    ghost width_fits: { (0 < WIDTH) × (WIDTH ≤ 64) };

    ghost passes: { ℕ → Bool };

    /// Returns whether the byte is in the class.
    fn has(byte: u8) -> bool
        ensures { result ≡ passes byte };

    /// Returns a mask of the first `WIDTH` bytes. Bit k is set if byte k is outside the class.
    fn stops(bytes: &[u8]) -> u64
        requires { WIDTH ≤ length bytes.now }
        ensures { result ≡ mask_l (map (outside passes) (take WIDTH bytes.now)) };
}

/// Each byte that can continue an identifier is at its own index, and a dot at every other index. A lookup is faster
/// than comparisons.
static CONTINUES: [u8; 256] = *b"\
    ................................\
    ................0123456789......\
    .ABCDEFGHIJKLMNOPQRSTUVWXYZ...._\
    .abcdefghijklmnopqrstuvwxyz.....\
    ................................\
    ................................\
    ................................\
    ................................";

/// The bytes that can continue an identifier.
#[derive(Clone, Copy)]
pub(crate) struct Continue;

impl ByteClass for Continue {
    const WIDTH: usize = 16;

    ghost WIDTH = { 16 };

    ghost width_fits = { (omega arith, omega arith) };

    ghost passes = { is_continue_byte };

    #[inline(always)]
    fn has(byte: u8) -> bool {
        CONTINUES[byte as usize] != b'.'
    }

    #[inline(always)]
    fn stops(bytes: &[u8]) -> u64 {
        let v = u8x16::from_slice(bytes);
        let from_a = (v | u8x16::splat(0x20)) - u8x16::splat(b'a');
        let from_0 = v - u8x16::splat(b'0');
        (from_a.simd_ge(u8x16::splat(26))
            & from_0.simd_ge(u8x16::splat(10))
            & v.simd_ne(u8x16::splat(b'_'))).to_bitmask()
    }
}

/// Whitespace.
#[derive(Clone, Copy)]
pub(crate) struct Space;

impl ByteClass for Space {
    const WIDTH: usize = 16;

    ghost WIDTH = { 16 };

    ghost width_fits = { (omega arith, omega arith) };

    ghost passes = { is_space_byte };

    #[inline(always)]
    fn has(byte: u8) -> bool {
        matches!(byte, b' ' | b'\t'..=b'\r')
    }

    #[inline(always)]
    fn stops(bytes: &[u8]) -> u64 {
        let v = u8x16::from_slice(bytes);
        let from_tab = v - u8x16::splat(b'\t');
        (v.simd_ne(u8x16::splat(b' ')) & from_tab.simd_ge(u8x16::splat(5))).to_bitmask()
    }
}

/// Returns a mask of the first `len` bytes, at most 64. Bit k is set if byte k is outside the class. The last read ends
/// at `len`, so it can overlap the one before it.
#[inline(always)]
fn stops_within<C: ByteClass>(bytes: &[u8], len: usize) -> u64
    requires wide { C.WIDTH ≤ len }
    requires few { len ≤ 64 }
    requires inside { len ≤ length bytes.now }
    ensures { (k : ℕ) → k < len → bit result k ≡ outside C.passes (slice_index bytes.now k) }
{
    let last = len - C::WIDTH;
    let mut stops = C::stops(&bytes[last..]) << last;
    let mut at = 0;
    'looks: while at < last {
        stops |= C::stops(&bytes[at..]) << at;
        at += C::WIDTH;
    }
    stops
}

/// Returns a mask of the offsets between runs. Bit k is set unless k is 0, or bytes k - 1 and k both belong to a word
/// or are both whitespace.
#[inline(always)]
#[tactic(auto, using(crate::proofs::lemmas::tokens::Bits::bit_lemmas, std::proofs::lemmas::Grind::common_steps))]
fn run_edges(words: u64, spaces: u64) -> u64
    ensures first { bit result 0 ≡ false }
    ensures later { (k : ℕ) → suc k < 64 → bit result (suc k)
        ≡ not ((bit words k && bit words (suc k)) || (bit spaces k && bit spaces (suc k))) }
{
    !(((words << 1) & words) | ((spaces << 1) & spaces)) & !1
}

/// Returns a mask of the ends of words and of runs of whitespace in the first `len` bytes, at least 16 and at most 64.
#[inline(always)]
fn ends_within(bytes: &[u8], len: usize) -> u64
    requires wide { 16 ≤ len }
    requires few { len ≤ 64 }
    requires inside { len ≤ length bytes.now }
    ensures { IsEnds bytes.now result }
{
    let words = !stops_within::<Continue>(bytes, len);
    let spaces = !stops_within::<Space>(bytes, len);
    run_edges(words, spaces) & (u64::MAX >> (64 - len))
}

/// Returns a mask of the ends of words and of runs of whitespace in the next 64 bytes, or in the remaining bytes if
/// these are fewer. If fewer than 16 remain, the mask is 0.
#[inline(never)]
#[tactic(auto, using(crate::proofs::lemmas::tokens::RunEnds::no_ends, std::proofs::lemmas::Grind::common_steps))]
pub(crate) fn ends_of_runs(bytes: &[u8]) -> u64
    ensures { IsEnds bytes.now result }
{
    if bytes.len() >= 64 {
        ends_within(bytes, 64)
    } else if bytes.len() >= 16 {
        ends_within(bytes, bytes.len())
    } else {
        0
    }
}

/// Returns how many leading bytes are in the class. The run usually ends within `WIDTH` bytes.
#[inline(always)]
pub(crate) fn run_end<C: ByteClass>(bytes: &[u8]) -> usize
    ensures value { result ≡ prefix_len C.passes bytes.now }
    ensures inside { result ≤ length bytes.now }
{
    if bytes.len() < C::WIDTH {
        return run_end_by_bytes::<C>(bytes);
    }
    let stops = C::stops(bytes);
    if stops == 0 {
        return run_end_by_lanes::<C>(bytes);
    }
    stops.trailing_zeros() as usize
}

/// Returns how many leading bytes are in the class. Usually the first byte is not.
#[inline(always)]
pub(crate) fn short_run_end<C: ByteClass>(bytes: &[u8]) -> usize
    ensures value { result ≡ prefix_len C.passes bytes.now }
    ensures inside { result ≤ length bytes.now }
{
    if !bytes.is_empty() && C::has(bytes[0]) {
        return run_end::<C>(bytes);
    }
    0
}

/// Returns how many leading bytes are in the class, reading `WIDTH` bytes at a time.
#[inline(never)]
#[tactic(auto, using(crate::proofs::lemmas::tokens::Kernels::run_lemmas, std::proofs::lemmas::Grind::common_steps))]
fn run_end_by_lanes<C: ByteClass>(bytes: &[u8]) -> usize
    ensures value { result ≡ prefix_len C.passes bytes.now }
    ensures inside { result ≤ length bytes.now }
{
    let mut end = 0;
    'lanes: while bytes.len() - end >= C::WIDTH {
        let stops = C::stops(&bytes[end..]);
        if stops != 0 {
            return end + stops.trailing_zeros() as usize;
        }
        end += C::WIDTH;
    }
    end + run_end_by_bytes::<C>(&bytes[end..])
}

/// Returns how many leading bytes are in the class, reading one byte at a time.
#[inline(never)]
fn run_end_by_bytes<C: ByteClass>(bytes: &[u8]) -> usize
    ensures value { result ≡ prefix_len C.passes bytes.now }
    ensures inside { result ≤ length bytes.now }
{
    let mut end = 0;
    'bytes: while end < bytes.len() && C::has(bytes[end]) {
        end += 1;
    }
    end
}

/// Returns the offset of the first byte `stop`. It is usually within 64 bytes, so these are searched before `memchr` is
/// called.
#[inline(always)]
pub(crate) fn find_byte(stop: u8, bytes: &[u8]) -> Option<usize>
    ensures { IsFirstByte (is_byte stop) bytes.now result }
{
    if bytes.len() >= 64 {
        let found = u8x64::from_slice(bytes)
            .simd_eq(u8x64::splat(stop))
            .to_bitmask();
        if found != 0 {
            return Some(found.trailing_zeros() as usize);
        }
    }
    memchr(stop, bytes)
}

/// Returns the offset of the first byte that is either of the two. In a run of them it is 0, and otherwise it is
/// usually within 16 bytes. Both cases are checked before `memchr2` is called.
#[inline(always)]
pub(crate) fn find_either(one: u8, two: u8, bytes: &[u8]) -> Option<usize>
    ensures { IsFirstByte (is_byte2 one two) bytes.now result }
{
    if !bytes.is_empty() && (bytes[0] == one || bytes[0] == two) {
        return Some(0);
    }
    if bytes.len() >= 16 {
        let v = u8x16::from_slice(bytes);
        let found = (v.simd_eq(u8x16::splat(one)) | v.simd_eq(u8x16::splat(two))).to_bitmask();
        if found != 0 {
            return Some(found.trailing_zeros() as usize);
        }
    }
    memchr2(one, two, bytes)
}

/// Returns a mask of the first 16 bytes. Bit k is set if byte k equals `byte`.
#[inline(always)]
fn places(byte: u8, bytes: &[u8]) -> u64
    requires { 16 ≤ length bytes.now }
    ensures few { result < 2 ^ 16 }
    ensures at { (k : ℕ) → k < 16 → bit result k ≡ is_byte byte (slice_index bytes.now k) }
{
    u8x16::from_slice(bytes)
        .simd_eq(u8x16::splat(byte))
        .to_bitmask()
}

/// The bytes of a pattern that are searched for together: its first three and its last.
#[derive(Clone, Copy)]
struct Probe {
    first: u8,
    second: u8,
    third: u8,
    last: u8,
    /// The distance from the first byte to the last.
    span: usize,
}

/// Returns the probe for the pattern, which is `first` followed by `more`.
#[inline(always)]
fn probe_of(first: u8, more: &[u8]) -> Probe
    requires { 2 ≤ length more.now }
    ensures first { result.first ≡ first }
    ensures second { result.second ≡ slice_index more.now 0 }
    ensures third { result.third ≡ slice_index more.now 1 }
    ensures last { result.last ≡ slice_index more.now (length more.now - 1) }
    ensures span { result.span ≡ length more.now }
{
    Probe {
        first,
        second: more[0],
        third: more[1],
        last: more[more.len() - 1],
        span: more.len(),
    }
}

/// Returns a mask of the first 16 offsets. Bit k is set if all bytes of the probe match at offset k. Usually the first
/// byte or the last matches nowhere, and then the second and the third are not compared.
#[inline(always)]
fn candidates(probe: Probe, bytes: &[u8]) -> u64
    requires wide { 2 ≤ probe.span }
    requires inside { 16 + probe.span ≤ length bytes.now }
    ensures few { result < 2 ^ 16 }
    ensures at { (k : ℕ) → k < 16 → bit result k
        ≡ (((is_byte probe.first (slice_index bytes.now k)
        && is_byte probe.last (slice_index bytes.now (probe.span + k)))
        && is_byte probe.second (slice_index bytes.now (1 + k)))
        && is_byte probe.third (slice_index bytes.now (2 + k))) }
{
    let firsts = places(probe.first, bytes);
    if firsts == 0 {
        return 0;
    }
    let lasts = places(probe.last, &bytes[probe.span..]);
    let both = firsts & lasts;
    if both == 0 {
        return 0;
    }
    let seconds = places(probe.second, &bytes[1..]);
    let thirds = places(probe.third, &bytes[2..]);
    both & seconds & thirds
}

/// Returns a number of bytes at the start at which the pattern does not start. It checks 16 offsets at a time, and
/// stops at an offset at which the pattern may start, or when too few bytes are left.
pub(crate) fn skip_apart(first: u8, more: &[u8], bytes: &[u8]) -> usize
    requires { 2 ≤ length more.now }
    ensures apart { (k : ℕ) → k < result
        → begins (first ∷ more.now) (drop k bytes.now) ≡ false }
    ensures inside { result ≤ length bytes.now }
{
    let probe = probe_of(first, more);
    let mut left = bytes;
    'looks: while left.len() >= 16 + more.len() {
        let found = candidates(probe, left);
        if found != 0 {
            return bytes.len() - left.len() + found.trailing_zeros() as usize;
        }
        left = &left[16..];
    }
    bytes.len() - left.len()
}

/// Returns whether the byte at `end`, or the end of the text, makes a word that ends there an identifier.
#[inline(always)]
pub(crate) fn ends_word(bytes: &[u8], end: usize) -> bool
    ensures { result ≡ not (Scan.next_is Quick.turns_word (drop end bytes.now)) }
{
    if end < bytes.len() {
        !turns_word(bytes[end])
    } else {
        true
    }
}

/// Returns whether a word directly before the byte can be something other than an identifier.
#[inline(always)]
pub(crate) fn turns_word(byte: u8) -> bool
    ensures { result ≡ Quick.turns_word byte }
{
    byte >= 128 || ends_prefix(byte as char)
}

/// Returns whether the byte at `end`, or the end of the text, rules out whitespace outside ASCII there.
#[inline(always)]
pub(crate) fn ends_space(bytes: &[u8], end: usize) -> bool
    ensures { result ≡ not (Scan.next_is Quick.is_space_lead (drop end bytes.now)) }
{
    if end < bytes.len() {
        bytes[end] != 0xC2 && bytes[end] != 0xE2
    } else {
        true
    }
}
