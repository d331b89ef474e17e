//! Which character encodings are UTF-8 compatible.
//!
//! An encoding's name is trimmed and cleaned: punctuation is dropped, letters are lowered. It is
//! compatible if nothing is left, or one of 13 names (`compatible`, specs/Charset.antt). The
//! cleaned name goes to an array on the stack that holds the longest of the 13; a longer one is
//! none of them.
#![tactic(auto, using(crate::proofs::Laws::laws))]

ghost use Rattle.std.specs.Prelude.{◌≡◌, true, ◌+◌, ◌≤◌, length, drop};
ghost use Rattle.charsets.specs.Charset.{is_punctuation, cleaned, charsets, compatible};
ghost use Rattle.charsets.specs.internal.Names.{is_name};
ghost use Rattle.charsets.specs.internal.Letters.{Passed, Letters};

use classes::lower;
use texts::{is_among, part, trim};

/// The length of the longest known name, cleaned.
const LONGEST: usize = 13;

// ---- punctuation: `-`, `_`, `.`, `:` and the space

/// Whether a byte is punctuation. Branch-free, so that the compiler tests eight at once.
#[tactic(auto, unfolding(crate::specs::Charset::is_punctuation))]
fn is_punctuation(b: u8) -> bool
    ensures { result ≡ is_punctuation b }
{
    (b == b'-') | (b == b'_') | (b == b'.') | (b == b':') | (b == b' ')
}

/// Whether the eight bytes from `i` on are all punctuation.
fn is_punctuation_eight(s: &[u8], i: usize) -> bool
    requires { i + 8 ≤ length s.now }
    ensures { result ≡ true → cleaned (drop (i + 8) s.now) ≡ cleaned (drop i s.now) }
{
    let mut all = true;
    for k in 0..8 {
        all &= is_punctuation(s[i + k]);
    }
    all
}

/// Goes from `from` on past punctuation, eight bytes at a time, and returns where the first eight
/// stand that are not all punctuation, or where fewer than eight are left.
fn past_eights(s: &[u8], from: usize) -> usize
    requires { from ≤ length s.now }
    ensures { Passed s.now from result }
{
    let mut i = from;
    // `while`: each turn consumes eight bytes.
    while i + 8 <= s.len() {
        if !is_punctuation_eight(s, i) {
            return i;
        }
        i += 8;
    }
    i
}

// ---- cleaning

/// Writes the cleaned name to the front of `out`, and returns its length; `None` above 13 bytes.
fn clean(out: &mut [u8], s: &[u8]) -> Option<usize>
    requires { 13 ≤ length out.old }
    ensures { Letters s.now out.new result }
{
    let mut i = 0;
    let mut n = 0;
    // `while`: a turn consumes one byte, or a run of punctuation.
    while i < s.len() {
        if is_punctuation(s[i]) {
            i = past_eights(s, i + 1);
        } else {
            if LONGEST <= n {
                return None;
            }
            out[n] = lower(s[i]);
            i += 1;
            n += 1;
        }
    }
    Some(n)
}

// ---- the names

/// The known names, cleaned.
const CHARSETS: [&[u8]; 13] = [
    b"usascii",
    b"ascii",
    b"ansix341968",
    b"ansix341986",
    b"iso646us",
    b"isoir6",
    b"iso646irv1991",
    b"us",
    b"ibm367",
    b"cp367",
    b"csascii",
    b"utf8",
    b"csutf8",
];

/// Whether a cleaned name is empty or a known one.
#[tactic(auto, using(crate::proofs::Cleaning::names))]
fn is_name(w: &[u8]) -> bool
    ensures { result ≡ is_name w.now }
{
    w.len() == 0 || is_among(w, &CHARSETS)
}

/// `is_compatible` of a name that is not empty. Out of line: most types name no encoding, and need
/// no array.
#[inline(never)]
fn is_listed(encoding: &[u8]) -> bool
    ensures { result ≡ compatible encoding.now }
{
    let mut letters = [0u8; 16];
    let Some(n) = clean(&mut letters, trim(encoding)) else {
        return false;
    };
    is_name(part(&letters, 0, n))
}

/// Whether an encoding is UTF-8 compatible; an empty name is.
pub fn is_compatible(encoding: &[u8]) -> bool
    ensures { result ≡ compatible encoding.now }
{
    if encoding.len() == 0 {
        return true;
    }
    is_listed(encoding)
}
