//! Printing into a slice: the same code measures and writes.
//!
//! An `Output` is a slice and the position that printing has come to. A method prints at the
//! position and moves it on; what falls past the slice's end is counted and not written, so that
//! printing into an empty slice measures. `finish` measures a text, and writes it if there is room.
//! The contract `Wrote` gives every byte of the slice and the next position, and one write after
//! another composes (proofs/Writing.antt). Only `again` has a `requires`.
//!
//! The methods call functions that take slice and position as parameters, so that a hot loop keeps
//! both in registers: with methods alone printing took a tenth longer.
#![tactic(auto)]

ghost use Rattle.std.specs.Prelude.{List, ℕ, ◌≡◌, [], ◌∷◌, ◌++◌, ◌+◌, ◌≤◌, length};
ghost use Rattle.texts.specs.Choice.{pick};
ghost use Rattle.texts.specs.Text.{piece};
ghost use Rattle.printing.specs.Printed.{Printed, next, skipped};
ghost use Rattle.printing.specs.Decimal.{decimal};
ghost use Rattle.printing.specs.Output.{Finishes};
ghost use Rattle.printing.specs.Written.{Wrote, opened, moved};

use refusals::Refusal;
use swar::copy_few;

/// Where positions saturate: 2^63, longer than any slice.
const LAST: usize = 0x8000_0000_0000_0000;

/// The position after one more byte.
fn step(at: usize) -> usize
    ensures { result ≡ next at }
{
    if at < LAST { at + 1 } else { LAST }
}

// ---- the output

/// A slice that is printed into, and the position that printing has come to.
#[derive(Drop)]
pub struct Output<'a> {
    /// Where text goes.
    pub bytes: &'a mut [u8],
    /// Where the next byte goes; past the end of `bytes`, printing only counts.
    pub at: usize,
}

#[tactic(auto, unfolding(crate::specs::Written::written), using(crate::proofs::Writing::writing))]
impl<'a> Output<'a> {
    /// Starts at the first byte of `bytes`.
    pub fn new(bytes: &'a mut [u8]) -> Output<'a>
        ensures { result ≡ opened bytes.entry }
    {
        Output { bytes, at: 0 }
    }

    /// Prints one byte.
    pub fn byte(&mut self, b: u8)
        ensures { Wrote self.old self.new (b ∷ []) }
    {
        self.at = put_byte(self.bytes, self.at, b);
    }

    /// Prints `b` if `on`.
    pub fn byte_if(&mut self, on: bool, b: u8)
        ensures { Wrote self.old self.new (pick on (b ∷ []) []) }
    {
        if on {
            self.byte(b);
        }
    }

    /// Prints `s`.
    pub fn text(&mut self, s: &[u8])
        ensures { Wrote self.old self.new s.now }
    {
        self.at = put_bytes(self.bytes, self.at, s);
    }

    /// Prints `s`, then `b`, with one test for room.
    pub fn text_then(&mut self, s: &[u8], b: u8)
        ensures { Wrote self.old self.new (s.now ++ b ∷ []) }
    {
        self.at = put_then(self.bytes, self.at, s, b);
    }

    /// Prints `n` in decimal.
    pub fn decimal(&mut self, n: u32)
        ensures { Wrote self.old self.new (decimal n) }
    {
        self.at = put_decimal(self.bytes, self.at, n);
    }

    /// Prints once more the `n` bytes at `from`, which lie before the position. All have to fit.
    pub fn again(&mut self, from: usize, n: usize)
        requires { (from + n ≤ self.old.at) × (self.old.at + n ≤ length self.old.bytes.now) }
        ensures { Wrote self.old self.new (piece self.old.bytes.now from n) }
    {
        self.at = put_again(self.bytes, self.at, from, n);
    }

    /// The position `n` bytes on.
    pub fn after(&self, n: usize) -> usize
        ensures { result ≡ skipped self.now.at n }
    {
        skip(self.at, n)
    }

    /// Moves `n` bytes on, and writes none: for a text that was measured.
    pub fn skip(&mut self, n: usize)
        ensures { self.new ≡ moved self.old n }
    {
        self.at = skip(self.at, n);
    }
}

// ---- measure, then write

/// What can be printed.
pub trait Print {
    /// The text that is printed.
    ghost text: { Self → List ℕ };

    /// Prints the text.
    fn print(&self, out: &mut Output<'_>)
        ensures { Wrote out.old out.new (text self.now) };
}

/// Prints `p` at the start of `out`, and answers the position after it.
#[tactic(auto, unfolding(crate::specs::Written::written))]
fn print_whole<P: Print>(p: &P, out: &mut [u8]) -> usize
    ensures { Printed out.old 0 out.new result (P.text p.now) }
{
    let mut o = Output::new(out);
    p.print(&mut o);
    o.at
}

/// Prints `p` at the start of `out` and answers its length; where `out` is shorter, answers
/// `NoRoom` and leaves it as it was.
pub fn finish<P: Print>(p: &P, out: &mut [u8]) -> Result<usize, Refusal>
    ensures { Finishes (P.text p.now) out.old out.new result }
{
    let mut none = [0u8; 0];
    let n = print_whole(p, &mut none);
    if out.len() < n {
        return Err(Refusal::NoRoom);
    }
    Ok(print_whole(p, out))
}

// ---- by a slice and a position
//
// Each prints at `at`, counts on past the end of `out`, and answers the next position.

/// Prints one byte.
#[tactic(auto, unfolding(crate::specs::Printed::laid, crate::specs::Printed::past))]
fn put_byte(out: &mut [u8], at: usize, b: u8) -> usize
    ensures { Printed out.old at out.new result (b ∷ []) }
{
    if at < out.len() {
        out[at] = b;
        step(at)
    } else {
        step(at)
    }
}

/// The position `n` bytes on, with no walk over them.
#[tactic(auto, unfolding(crate::specs::Printed::skipped))]
fn skip(at: usize, n: usize) -> usize
    ensures { result ≡ skipped at n }
{
    if n == 0 {
        return at;
    }
    at.saturating_add(n).min(LAST)
}

/// Prints `s`, all of which fits.
#[tactic(auto, using(crate::proofs::Passing::copying))]
fn copy_each(out: &mut [u8], at: usize, s: &[u8]) -> usize
    requires { at + length s.now ≤ length out.old }
    ensures { Printed out.old at out.new result s.now }
{
    for i in 0..s.len() {
        out[at + i] = s[i];
    }
    at + s.len()
}

/// As `copy_each`, for `N` to `2 * N` bytes and without a loop: copies the first `N` and the last
/// `N`, which may overlap.
fn copy_two<const N: usize>(out: &mut [u8], at: usize, s: &[u8]) -> usize
    requires { (at + length s.now ≤ length out.old) × (N ≤ length s.now) × (length s.now ≤ N + N) }
    ensures { Printed out.old at out.new result s.now }
{
    let n = s.len();
    let last = n - N;
    copy_few::<N>(s, 0, out, at);
    copy_few::<N>(s, last, out, at + last);
    at + n
}

/// As `copy_each`, faster for the 4 to 16 bytes that most texts have.
fn copy(out: &mut [u8], at: usize, s: &[u8]) -> usize
    requires { at + length s.now ≤ length out.old }
    ensures { Printed out.old at out.new result s.now }
{
    let n = s.len();
    if n < 4 {
        return copy_each(out, at, s);
    }
    if n <= 8 {
        return copy_two::<4>(out, at, s);
    }
    if n <= 16 {
        return copy_two::<8>(out, at, s);
    }
    copy_each(out, at, s)
}

/// Prints `s` where not all of it fits: a part of it byte by byte, or nothing, as when measuring.
/// Rare, and so kept out of line.
#[cold]
#[inline(never)]
fn put_cut(out: &mut [u8], at: usize, s: &[u8]) -> usize
    ensures { Printed out.old at out.new result s.now }
{
    if out.len() <= at {
        return skip(at, s.len());
    }
    let mut p = at;
    for b in s {
        p = put_byte(out, p, *b);
    }
    p
}

/// Prints `s`.
fn put_bytes(out: &mut [u8], at: usize, s: &[u8]) -> usize
    ensures { Printed out.old at out.new result s.now }
{
    if at < out.len() && s.len() <= out.len() - at {
        return copy(out, at, s);
    }
    put_cut(out, at, s)
}

/// Prints `s`, then `b`.
fn put_then(out: &mut [u8], at: usize, s: &[u8], b: u8) -> usize
    ensures { Printed out.old at out.new result (s.now ++ b ∷ []) }
{
    if at < out.len() && s.len() < out.len() - at {
        let p = copy(out, at, s);
        out[p] = b;
        return p + 1;
    }
    let p = put_cut(out, at, s);
    put_byte(out, p, b)
}

/// Prints once more the `n` bytes at `from`, which lie before `at`. All have to fit.
#[tactic(auto, using(crate::proofs::Again::copied))]
fn put_again(out: &mut [u8], at: usize, from: usize, n: usize) -> usize
    requires { (from + n ≤ at) × (at + n ≤ length out.old) }
    ensures { Printed out.old at out.new result (piece out.old from n) }
{
    for i in 0..n {
        out[at + i] = out[from + i];
    }
    at + n
}

/// Prints `n` in decimal.
fn put_decimal(out: &mut [u8], at: usize, n: u32) -> usize
    ensures { Printed out.old at out.new result (decimal n) }
{
    if n < 10 {
        put_byte(out, at, 48 + n as u8)
    } else {
        let p = put_decimal(out, at, n / 10);
        put_byte(out, p, 48 + (n % 10) as u8)
    }
}
