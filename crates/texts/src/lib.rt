//! Texts: slices of bytes, which contracts see as lists of bytes.
//!
//! Clamped sub-slices, equality, membership in a few constants, a prefix test at an offset, the
//! first byte beyond ASCII, and trimming; `scan` finds where a run of bytes ends. No public
//! function has a `requires`: a text has nothing past its end, and any offset may be asked for.
#![tactic(auto)]

pub mod scan;

ghost use Rattle.std.specs.Prelude.{◌≡◌, true, ◌+◌, ◌≤◌, ◌<◌, length, drop, get_or, map};
ghost use Rattle.texts.specs.Text.{piece, same, starts_with};
ghost use Rattle.texts.specs.Lists.{among};
ghost use Rattle.texts.specs.Scan.{scan, is_ascii};
ghost use Rattle.texts.specs.Trim.{is_blank, trimmed, TrimmedTo, KeptTo};

use crate::scan::{ByteTest, scan_each};

/// The `len` bytes from `from` on, in some text.
#[derive(Clone, Copy)]
pub struct Range {
    pub from: usize,
    pub len: usize,
}

/// Up to `n` bytes of `s` from `a` on: fewer near its end, none past it.
pub fn part(s: &[u8], a: usize, n: usize) -> &[u8]
    ensures { result.now ≡ piece s.now a n }
{
    if s.len() <= a {
        return &s[..0];
    }
    if n < s.len() - a {
        let e = a + n;
        &s[a..e]
    } else {
        &s[a..]
    }
}

/// The byte at `i`, or 0 past the end.
pub fn byte_at(s: &[u8], i: usize) -> u8
    ensures { result ≡ get_or s.now i 0 }
{
    if i < s.len() { s[i] } else { 0 }
}

/// Whether two texts have the same bytes.
#[tactic(auto, unfolding(crate::specs::Text::same))]
pub fn equal(a: &[u8], b: &[u8]) -> bool
    ensures { result ≡ same a.now b.now }
{
    a == b
}

/// Whether `s` is one of `texts`. Inlined, so that literals become comparisons with constants.
#[inline(always)]
pub fn is_among(s: &[u8], texts: &[&[u8]]) -> bool
    ensures { result ≡ among s.now (map (λ t. t.now) texts.now) }
{
    for text in texts {
        if equal(s, text) {
            return true;
        }
    }
    false
}

/// Whether `needle` stands in `s` at `at`. Past the end only an empty one does.
#[tactic(auto, unfolding(crate::specs::Text::starts_with))]
pub fn starts_with(s: &[u8], at: usize, needle: &[u8]) -> bool
    ensures { result ≡ starts_with needle.now (drop at s.now) }
{
    if s.len() <= at {
        return needle.is_empty();
    }
    s[at..].starts_with(needle)
}

// ---- ASCII

/// The test for a byte below 128.
struct Ascii;

#[tactic(auto, unfolding(crate::specs::Scan::is_ascii))]
impl ByteTest for Ascii {
    ghost test = { is_ascii };

    fn passes(&self, b: u8) -> bool {
        b < 128
    }
}

/// The bitwise OR of the `N` bytes from `i` on: below 128 only if all of them are, so that one
/// branch tests them all. Compiles to vector code.
fn bits<const N: usize>(s: &[u8], i: usize) -> u8
    requires { i + N ≤ length s.now }
    ensures { result < 128 → scan is_ascii s.now (i + N) ≡ scan is_ascii s.now i }
{
    let mut all = 0;
    for k in 0..N {
        all |= s[i + k];
    }
    all
}

/// Skips blocks of `N` ASCII bytes from `from` on. Answers where the next block is not all ASCII,
/// or fewer than `N` bytes are left: an offset into `s`, from which the next scan goes on.
fn past_blocks<const N: usize>(s: &[u8], from: usize) -> usize
    requires some { 0 < N }
    requires within { from ≤ length s.now }
    ensures within { result ≤ length s.now }
    ensures same { scan is_ascii s.now result ≡ scan is_ascii s.now from }
{
    let mut i = from;
    // `while`: each turn passes a block, so the step is not 1.
    while N <= s.len() - i {
        if 128 <= bits::<N>(s, i) {
            return i;
        }
        i += N;
    }
    i
}

/// The offset of the first byte of 128 or more, or `s.len()`.
pub fn ascii_end(s: &[u8]) -> usize
    ensures { result ≡ scan is_ascii s.now 0 }
{
    // Wide blocks for long documents, narrower ones for what is left.
    let far = past_blocks::<512>(s, 0);
    let wide = past_blocks::<128>(s, far);
    let near = past_blocks::<8>(s, wide);
    scan_each(s, near, &Ascii)
}

// ---- trimming

/// Whether trimming drops `b`: bytes 9 to 13 and 32.
#[tactic(auto, unfolding(crate::specs::Trim::is_blank))]
fn is_blank(b: u8) -> bool
    ensures { result ≡ is_blank b }
{
    if b < 9 {
        return false;
    }
    if b <= 13 {
        return true;
    }
    b == 32
}

/// The test for a byte that trimming drops.
struct Blank;

impl ByteTest for Blank {
    ghost test = { is_blank };

    fn passes(&self, b: u8) -> bool {
        is_blank(b)
    }
}

/// The length of `s` without the blanks at its end.
#[tactic(auto, using(crate::proofs::Laws::laws))]
fn kept(s: &[u8]) -> usize
    ensures { KeptTo s.now result }
{
    for i in (0..s.len()).rev() {
        if !is_blank(s[i]) {
            return i + 1;
        }
    }
    0
}

/// `s` without the blanks (bytes 9 to 13 and 32) at both ends.
pub fn trim(s: &[u8]) -> &[u8]
    ensures { result.now ≡ trimmed s.now }
{
    let a = scan_each(s, 0, &Blank);
    let rest = part(s, a, s.len());
    part(rest, 0, kept(rest))
}

/// As `trim`, of the `len` bytes of `s` from `from` on. The answer is a range of `s`, which is why
/// this takes an offset and no sub-slice.
pub fn trim_range(s: &[u8], from: usize, len: usize) -> Range
    ensures { TrimmedTo s.now from len result }
{
    let whole = part(s, from, len);
    let a = scan_each(whole, 0, &Blank);
    let rest = part(whole, a, whole.len());
    let start = from + a;
    Range {
        from: start,
        len: kept(rest),
    }
}
