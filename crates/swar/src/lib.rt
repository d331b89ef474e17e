//! SWAR: eight bytes of a slice as one little-endian `u64`, for speed alone. Each public function
//! promises what a plain loop over bytes gives, so that the plain loop could take its place and no
//! caller would change.
//!
//! `byte_from` searches for a byte, as memchr does: its answer is that of a scan by `scan_each` of
//! texts. `text_from` passes places where a short text does not stand, as a caller's own loop may
//! do one by one.
//! `lacks` and `both_lack` test a few bytes without a branch for each, and `copy_few` copies a few.
//! `stands_short` and `stands_long` are `texts::starts_with` for a literal that is given as numbers,
//! and `same_name` is `texts::equal`. `word_at` and `half_at` give the number of eight bytes and of
//! four: a word and a half.
//!
//! Functions take a slice and an offset, not a sub-slice, since what they find is an offset into
//! the whole slice. Those that load a word require its bytes to be there: a caller tests that once
//! for its loop, where a sub-slice would be tested again.
#![tactic(auto, using(crate::proofs::Laws::laws))]

ghost use Rattle.std.specs.Prelude.{◌≡◌, ◌+◌, ◌≤◌, ◌<◌, length};
ghost use Rattle.std.proofs.lemmas.List.Edits.{sets};
ghost use Rattle.texts.specs.Text.{piece, same};
ghost use Rattle.texts.specs.Scan.{scan, until, is};
ghost use Rattle.swar.specs.Word.{IsWord, IsHalf};
ghost use Rattle.swar.specs.internal.Marks.{Marked, Flagged};
ghost use Rattle.swar.specs.internal.Standing.{StandsShort, StandsLong, LacksByte, Lacks};

/// 1 in each of the eight bytes.
const ONES: u64 = 0x0101_0101_0101_0101;

/// The low seven bits of each byte.
const LOW: u64 = 0x7f7f_7f7f_7f7f_7f7f;

/// The high bit of each byte.
const HIGH: u64 = 0x8080_8080_8080_8080;

/// The eight bytes from `i` on, little-endian. The sum compiles to one load.
pub fn word_at(s: &[u8], i: usize) -> u64
    requires { i + 8 ≤ length s.now }
    ensures { IsWord (piece s.now i 8) result }
{
    u64::from(s[i])
        + u64::from(s[i + 1]) * 256
        + u64::from(s[i + 2]) * 65536
        + u64::from(s[i + 3]) * 16777216
        + u64::from(s[i + 4]) * 4294967296
        + u64::from(s[i + 5]) * 1099511627776
        + u64::from(s[i + 6]) * 281474976710656
        + u64::from(s[i + 7]) * 72057594037927936
}

/// The four bytes from `i` on, little-endian. Spelled out as `word_at` is: a loop over a const
/// length would need a proof that each partial sum fits.
pub fn half_at(s: &[u8], i: usize) -> u64
    requires { i + 4 ≤ length s.now }
    ensures { IsHalf (piece s.now i 4) result }
{
    u64::from(s[i])
        + u64::from(s[i + 1]) * 256
        + u64::from(s[i + 2]) * 65536
        + u64::from(s[i + 3]) * 16777216
}

/// A word with the high bit of each of the eight bytes from `i` on that is `x`, and no other bit.
///
/// A byte of `differs` is 0 where `x` stands. A byte that is not 0 has its high bit set in `full`:
/// adding `LOW` to the low seven bits carries into it, never into the next byte, or it was set.
fn marks(s: &[u8], i: usize, x: u8) -> u64
    requires { i + 8 ≤ length s.now }
    ensures { Marked x s.now i result }
{
    let differs = word_at(s, i) ^ (u64::from(x) * ONES);
    let full = ((differs & LOW) + LOW) | differs;
    HIGH - (full & HIGH)
}

/// As `marks`, in fewer dependent steps where `x` and all eight bytes are ASCII: for hot loops.
///
/// Each byte of `differs` is below 128 then, so taking it from 128 never borrows, and leaves the
/// high bit only where it is 0.
fn quick_marks(s: &[u8], i: usize, x: u8) -> u64
    requires { i + 8 ≤ length s.now }
    ensures { Marked x s.now i result }
{
    if x < 128 {
        let w = word_at(s, i);
        if w & HIGH == 0 {
            let differs = w ^ (u64::from(x) * ONES);
            return (HIGH - differs) & HIGH;
        }
    }
    marks(s, i, x)
}

/// Whether none of the `N` bytes from `i` on is `x`. Branch-free, and compiles to vector code.
pub fn lacks<const N: usize>(s: &[u8], i: usize, x: u8) -> bool
    requires { i + N ≤ length s.now }
    ensures { LacksByte x s.now i N result }
{
    let mut lacks = true;
    for k in 0..N {
        lacks &= s[i + k] != x;
    }
    lacks
}

/// Whether `x` is neither among the `N` bytes from `i` on nor among those from `j` on, with one
/// branch for both.
pub fn both_lack<const N: usize>(s: &[u8], i: usize, j: usize, x: u8) -> bool
    requires first { i + N ≤ length s.now }
    requires second { j + N ≤ length s.now }
    ensures first { LacksByte x s.now i N result }
    ensures second { LacksByte x s.now j N result }
{
    lacks::<N>(s, i, x) & lacks::<N>(s, j, x)
}

/// Copies `N` bytes, from `i` on in `s` to `at` on in `dst`. All are read before the first is
/// written, so that it is one load and one store.
pub fn copy_few<const N: usize>(s: &[u8], i: usize, dst: &mut [u8], at: usize)
    requires from { i + N ≤ length s.now }
    requires to { at + N ≤ length dst.old }
    ensures { dst.new ≡ sets dst.old at (piece s.now i N) }
{
    let mut few = [0u8; N];
    for k in 0..N {
        few[k] = s[i + k];
    }
    for j in 0..N {
        dst[at + j] = few[j];
    }
}

/// As `byte_from`, byte by byte.
fn byte_each(s: &[u8], at: usize, x: u8) -> usize
    ensures { result ≡ scan (until (is x)) s.now at }
{
    for i in at..s.len() {
        if s[i] == x {
            return i;
        }
    }
    at.max(s.len())
}

/// The offset of the first `x` from `at` on, or `s.len()`; `at` itself where it is past the end.
pub fn byte_from(s: &[u8], at: usize, x: u8) -> usize
    ensures { result ≡ scan (until (is x)) s.now at }
{
    if s.len() < 8 {
        return byte_each(s, at, x);
    }
    let last = s.len() - 8;
    let mut i = at;
    // `while`: each turn passes a word, so the step is not 1.
    while i <= last {
        let m = quick_marks(s, i, x);
        if m != 0 {
            // The lowest mark is the first match, with eight bits for each byte before it.
            return i + (u64::trailing_zeros(m) / 8) as usize;
        }
        i += 8;
    }
    byte_each(s, i, x)
}

/// As `marks`, for a text: the high bit of byte j where `text` stands at `i + j`. That is where all
/// its bytes are marked, byte k at `i + j + k`.
fn marks_of<const N: usize>(s: &[u8], i: usize, text: &[u8; N]) -> u64
    requires { i + 7 + N ≤ length s.now }
    ensures { Flagged text.now s.now i result }
{
    let mut m = HIGH;
    for k in 0..N {
        m &= marks(s, i + k, text[k]);
    }
    m
}

/// The first place from `at` on where `text` stands, or one near the end of `s`, from which the
/// caller searches on. Promised is only that `text` stands nowhere before it.
pub fn text_from<const N: usize>(s: &[u8], at: usize, text: &[u8; N]) -> usize
    ensures { Lacks text.now s.now at result }
{
    if s.len() < N {
        return at;
    }
    let room = s.len() - N;
    let mut i = at;
    // `while`: each turn passes a word, so the step is not 1.
    while i < room && 7 <= room - i {
        let m = marks_of(s, i, text);
        if m != 0 {
            return i + (u64::trailing_zeros(m) / 8) as usize;
        }
        i += 8;
    }
    i
}

/// Whether a literal of up to seven bytes stands at `i`: `modulus` is 256 to the power of its
/// length, `front` its bytes as a little-endian number. Two parameters, not a struct: both are
/// constants at each call.
pub fn stands_short(s: &[u8], i: usize, modulus: u64, front: u64) -> bool
    requires { (i + 8 ≤ length s.now) × (0 < modulus) }
    ensures { StandsShort s.now i modulus front result }
{
    word_at(s, i) % modulus == front
}

/// The same of a literal of 8 to 15 bytes: `front` is its first eight bytes, and `modulus` and
/// `back` are of the others, as in `stands_short`.
pub fn stands_long(s: &[u8], i: usize, front: u64, modulus: u64, back: u64) -> bool
    requires { (i + 16 ≤ length s.now) × (0 < modulus) }
    ensures { StandsLong s.now i front modulus back result }
{
    if word_at(s, i) == front {
        return stands_short(s, i + 8, modulus, back);
    }
    false
}

/// `same_name` for two names of one length below 8: byte by byte below 4, else by the first four
/// bytes and the last four, which may overlap.
fn same_short(a: &[u8], b: &[u8]) -> bool
    requires { (length a.now < 8) × (length a.now ≡ length b.now) }
    ensures { result ≡ same a.now b.now }
{
    if a.len() < 4 {
        return texts::equal(a, b);
    }
    if half_at(a, 0) != half_at(b, 0) {
        return false;
    }
    let last = a.len() - 4;
    half_at(a, last) == half_at(b, last)
}

/// `same_name` for two names of one length from 8 on: by words from the front, then by the last
/// eight bytes, which may overlap the word before them.
fn same_long(a: &[u8], b: &[u8]) -> bool
    requires { (8 ≤ length a.now) × (length a.now ≡ length b.now) }
    ensures { result ≡ same a.now b.now }
{
    let mut k = 0;
    // `while`: each turn compares a word, so the step is not 1.
    while k + 8 < a.len() {
        if word_at(a, k) != word_at(b, k) {
            return false;
        }
        k += 8;
    }
    let last = a.len() - 8;
    word_at(a, last) == word_at(b, last)
}

/// Whether two names have the same bytes.
pub fn same_name(a: &[u8], b: &[u8]) -> bool
    ensures { result ≡ same a.now b.now }
{
    if a.len() != b.len() {
        return false;
    }
    if a.len() < 8 {
        return same_short(a, b);
    }
    same_long(a, b)
}
