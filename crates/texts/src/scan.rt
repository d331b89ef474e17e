//! Scans: where a run of bytes that pass a test ends.
//!
//! `scan_each`, `scan_fours` and `scan_eights` answer the same and suit different lengths of runs.
//! They take and answer offsets into the whole text, so that one scan goes on from another's end.
ghost use Rattle.std.specs.Prelude.{◌≡◌, true, Bool, ℕ, ◌+◌, ◌≤◌, length};
ghost use Rattle.texts.specs.Scan.{scan};

/// A test of bytes; each scan is compiled for the test that it is given.
pub trait ByteTest {
    /// What the test says of each byte.
    ghost test: { ℕ → Bool };

    /// Whether `b` passes.
    fn passes(&self, b: u8) -> bool
        ensures { result ≡ test b };
}

/// The offset of the first byte from `from` on that fails the test, or `s.len()`; `from` itself
/// where it is past the end. Byte by byte.
pub fn scan_each<T: ByteTest>(s: &[u8], from: usize, by: &T) -> usize
    ensures { result ≡ scan T.test s.now from }
{
    for i in from..s.len() {
        if !by.passes(s[i]) {
            return i;
        }
    }
    from.max(s.len())
}

/// Whether the `N` bytes from `i` on all pass, with one branch for all of them.
fn all_pass<T: ByteTest, const N: usize>(s: &[u8], i: usize, by: &T) -> bool
    requires { i + N ≤ length s.now }
    ensures { result ≡ true → scan T.test s.now (i + N) ≡ scan T.test s.now i }
{
    // A byte, not a bool: for a bool the compiler extracts one bit for each test.
    let mut failed: u8 = 0;
    for k in 0..N {
        failed |= u8::from(!by.passes(s[i + k]));
    }
    failed == 0
}

/// Skips blocks of eight bytes that pass, from `from` on. Answers where the next block has a byte
/// that fails, or where fewer than eight bytes are left.
fn past_eights<T: ByteTest>(s: &[u8], from: usize, by: &T) -> usize
    ensures { scan T.test s.now result ≡ scan T.test s.now from }
{
    if s.len() < 8 {
        return from;
    }
    let last = s.len() - 8;
    let mut i = from;
    // `while`: each turn passes a block, so the step is not 1.
    while i <= last {
        if !all_pass::<T, 8>(s, i, by) {
            return i;
        }
        i += 8;
    }
    i
}

/// As `scan_each`, with one test of the end for four bytes: for runs that are likely short.
pub fn scan_fours<T: ByteTest>(s: &[u8], from: usize, by: &T) -> usize
    ensures { result ≡ scan T.test s.now from }
{
    if s.len() < 4 {
        return scan_each(s, from, by);
    }
    let last = s.len() - 4;
    let mut i = from;
    // `while`: each turn passes four bytes, so the step is not 1. Each byte has its own return, a
    // branch that the processor predicts; one offset chosen among four would be waited for.
    while i <= last {
        if !by.passes(s[i]) {
            return i;
        }
        if !by.passes(s[i + 1]) {
            return i + 1;
        }
        if !by.passes(s[i + 2]) {
            return i + 2;
        }
        if !by.passes(s[i + 3]) {
            return i + 3;
        }
        i += 4;
    }
    scan_each(s, i, by)
}

/// As `scan_each`, with one branch for eight bytes that pass: for runs that may be long.
pub fn scan_eights<T: ByteTest>(s: &[u8], from: usize, by: &T) -> usize
    ensures { result ≡ scan T.test s.now from }
{
    scan_fours(s, past_eights(s, from, by), by)
}
