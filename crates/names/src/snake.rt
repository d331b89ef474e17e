//! Snake case and screaming snake case: the two cases with `_` between words.
//!
//! A `Case` says where a `_` goes and how a byte is shown. A name that would fit even with a `_`
//! before every byte, as nearly all do, is stored by a loop that does not test for room.
ghost use Rattle.std.specs.Prelude.{◌≡◌, Bool, List, [], ℕ, ◌+◌, ◌*◌, ◌<◌, ◌≤◌, length, get_or};
ghost use Rattle.texts.specs.Choice.{pick};
ghost use Rattle.texts.specs.Text.{ascii};
ghost use Rattle.printing.specs.Printed.{Printed};
ghost use Rattle.printing.specs.Written.{Wrote};
ghost use Rattle.classes.specs.Class.{is_lower};
ghost use Rattle.classes.specs.Letters.{lowered, raised};
ghost use Rattle.names.specs.internal.Room.{Ample, Roomy};
ghost use Rattle.names.specs.Conversions.{cased, breaks_snake, camel_to_snake};
ghost use Rattle.names.specs.Conversions.{breaks_screaming, camel_to_screaming_snake};

use classes::{is_lower, is_upper};
use printing::Output;
use texts::byte_at;

/// A case with `_` between words: where a `_` goes (`breaks`), and how a byte is shown (`shown`).
pub(crate) trait Case {
    ghost breaks: { List ℕ → ℕ → Bool };

    ghost shown: { ℕ → ℕ };

    /// Whether a `_` goes before position `i`, and the byte there as it is shown. One call for
    /// both, as the class of the byte decides both.
    fn at(&self, name: &[u8], i: usize) -> (bool, u8)
        requires { i < length name.now }
        ensures { (result.0 ≡ breaks name.now i) × (result.1 ≡ shown (get_or name.now i 0)) };
}

/// Whether a lower-case letter stands right after position `i`.
fn precedes_lower(name: &[u8], i: usize) -> bool
    requires { i < length name.now }
    ensures { result ≡ is_lower (get_or name.now (i + 1) 0) }
{
    // `i` against the last position, not `i + 1` against the length: the loop that inlines this
    // then counts with one variable.
    if name.len() - 1 <= i {
        return false;
    }
    is_lower(name[i + 1])
}

#[derive(Clone, Copy)]
struct Snake;

#[tactic(auto, unfolding(crate::specs::Conversions::breaks_snake))]
impl Snake {
    /// Whether a `_` goes before position `i`.
    fn breaks(&self, name: &[u8], i: usize) -> bool
        requires { i < length name.now }
        ensures { result ≡ breaks_snake name.now i }
    {
        if i == 0 {
            return false;
        }
        if is_upper(byte_at(name, i)) {
            if is_lower(byte_at(name, i - 1)) {
                return true;
            }
            return precedes_lower(name, i);
        }
        false
    }
}

#[tactic(auto, unfolding(classes::specs::Class::is_upper, classes::specs::Letters::lowered, crate::specs::Conversions::breaks_snake))]
impl Case for Snake {
    ghost breaks = { breaks_snake };

    ghost shown = { lowered };

    fn at(&self, name: &[u8], i: usize) -> (bool, u8) {
        let b = name[i];
        if is_upper(b) {
            (self.breaks(name, i), b + 32)
        } else {
            (false, b)
        }
    }
}

/// Whether a `_` goes before position `i` in screaming snake case: before an upper-case letter that
/// stands right after a lower-case one. Nowhere beyond the name's end.
#[tactic(auto, unfolding(crate::specs::Conversions::breaks_screaming))]
#[inline(always)]
pub fn breaks_screaming(name: &[u8], i: usize) -> bool
    ensures { result ≡ breaks_screaming name.now i }
{
    if i == 0 {
        return false;
    }
    if is_upper(byte_at(name, i)) {
        return is_lower(byte_at(name, i - 1));
    }
    false
}

#[derive(Clone, Copy)]
pub(crate) struct Screaming;

#[tactic(auto, unfolding(classes::specs::Class::is_lower, classes::specs::Class::is_upper, classes::specs::Letters::raised, crate::specs::Conversions::breaks_screaming))]
impl Case for Screaming {
    ghost breaks = { breaks_screaming };

    ghost shown = { raised };

    fn at(&self, name: &[u8], i: usize) -> (bool, u8) {
        let b = name[i];
        if is_lower(b) {
            (false, b - 32)
        } else {
            (breaks_screaming(name, i), b)
        }
    }
}

/// Whether `n` bytes, each with a `_` before it, fit from `at` on in a slice of `room` bytes.
fn surely_fits(room: usize, at: usize, n: usize) -> bool
    ensures { Roomy result room at n }
{
    at < room && n <= (room - at) / 2
}

/// Stores a `_` at `at` where `on` is set, and returns the next position.
///
/// A slice and a position, not an `Output`: so the loop below has both in registers.
fn store_break(out: &mut [u8], at: usize, on: bool) -> usize
    requires { Ample out.old at }
    ensures { Printed out.old at out.new result (pick on (ascii "_") []) }
{
    if on {
        out[at] = b'_';
        return at + 1;
    }
    at
}

/// Stores a name that surely fits, and returns the next position.
fn store<C: Case>(out: &mut [u8], at: usize, case: &C, name: &[u8]) -> usize
    requires { at + 2 * length name.now ≤ length out.old }
    ensures { Printed out.old at out.new result (cased C.breaks C.shown name.now) }
{
    let mut p = at;
    for i in 0..name.len() {
        let (breaks, shown) = case.at(name, i);
        p = store_break(out, p, breaks);
        out[p] = shown;
        p += 1;
    }
    p
}

/// As `store`, of a name that may not fit: what does not is counted. Cold and out of line, since
/// such names are rare; a slice and a position, so that the caller keeps both in registers.
#[cold]
#[inline(never)]
#[tactic(auto, unfolding(crate::specs::Conversions::cased_at), using(printing::proofs::Writing::writing))]
fn store_cut<C: Case>(out: &mut [u8], at: usize, case: &C, name: &[u8]) -> usize
    ensures { Printed out.old at out.new result (cased C.breaks C.shown name.now) }
{
    let mut o = Output { bytes: out, at };
    for i in 0..name.len() {
        let (breaks, shown) = case.at(name, i);
        o.byte_if(breaks, b'_');
        o.byte(shown);
    }
    o.at
}

/// Prints a name in a case.
#[inline(always)]
#[tactic(auto, unfolding(printing::specs::Written::written))]
fn write<C: Case>(out: &mut Output<'_>, case: &C, name: &[u8])
    ensures { Wrote out.old out.new (cased C.breaks C.shown name.now) }
{
    if surely_fits(out.bytes.len(), out.at, name.len()) {
        out.at = store(out.bytes, out.at, case, name);
    } else {
        out.at = store_cut(out.bytes, out.at, case, name);
    }
}

/// Prints a name in snake case.
#[tactic(auto, unfolding(crate::specs::Conversions::camel_to_snake))]
#[inline(always)]
pub fn write_snake(out: &mut Output<'_>, name: &[u8])
    ensures { Wrote out.old out.new (camel_to_snake name.now) }
{
    write(out, &Snake, name);
}

/// Prints a name in screaming snake case.
#[tactic(auto, unfolding(crate::specs::Conversions::camel_to_screaming_snake))]
pub fn write_screaming(out: &mut Output<'_>, name: &[u8])
    ensures { Wrote out.old out.new (camel_to_screaming_snake name.now) }
{
    write(out, &Screaming, name);
}
