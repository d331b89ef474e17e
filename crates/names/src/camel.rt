//! Camel case and Pascal case: the two cases without `_` between words.
//!
//! A `Join` says how a byte that is no `_` is shown; a `_` is left out.
ghost use Rattle.std.specs.Prelude.{◌≡◌, List, ℕ, ◌<◌, length};
ghost use Rattle.printing.specs.Written.{Wrote};
ghost use Rattle.names.specs.Conversions.{follows, joined_at, joined, camel_shown, snake_to_camel};
ghost use Rattle.names.specs.Conversions.{pascal_shown, screaming_snake_to_pascal};

use classes::{lower, raise};
use printing::Output;
use texts::byte_at;

/// A case without `_` between words.
trait Join {
    ghost shown: { List ℕ → ℕ → ℕ };

    /// The byte at position `i` as it is shown.
    fn at(&self, name: &[u8], i: usize) -> u8
        requires { i < length name.now }
        ensures { result ≡ shown name.now i };
}

/// Whether position `i` stands right after a `_`.
#[tactic(auto, unfolding(crate::specs::Conversions::follows))]
fn follows_underscore(name: &[u8], i: usize) -> bool
    ensures { result ≡ follows name.now i }
{
    if i == 0 {
        return false;
    }
    byte_at(name, i - 1) == b'_'
}

/// Camel case: a letter is raised after `_`.
#[derive(Clone, Copy)]
struct Camel;

#[tactic(auto, unfolding(crate::specs::Conversions::camel_shown))]
impl Join for Camel {
    ghost shown = { camel_shown };

    fn at(&self, name: &[u8], i: usize) -> u8 {
        let b = name[i];
        if follows_underscore(name, i) {
            return raise(b);
        }
        b
    }
}

/// Pascal case: a letter is raised at the front and after `_`, and lowered elsewhere.
#[derive(Clone, Copy)]
struct Pascal;

#[tactic(auto, unfolding(crate::specs::Conversions::pascal_shown))]
impl Join for Pascal {
    ghost shown = { pascal_shown };

    fn at(&self, name: &[u8], i: usize) -> u8 {
        let b = name[i];
        if i == 0 {
            return raise(b);
        }
        if follows_underscore(name, i) {
            return raise(b);
        }
        lower(b)
    }
}

/// Prints what position `i` gives: nothing for `_`.
#[tactic(auto, unfolding(crate::specs::Conversions::joined_at), using(printing::proofs::Writing::writing))]
fn write_joined_at<J: Join>(out: &mut Output<'_>, join: &J, name: &[u8], i: usize)
    requires { i < length name.now }
    ensures { Wrote out.old out.new (joined_at J.shown name.now i) }
{
    if name[i] != b'_' {
        out.byte(join.at(name, i));
    }
}

/// How many bytes a name has without its `_`, in either case.
fn joined_len(name: &[u8]) -> usize
    ensures { (shown : List ℕ → ℕ → ℕ) → result ≡ length (joined shown name.now) }
{
    let mut n = 0;
    for i in 0..name.len() {
        if name[i] != b'_' {
            n += 1;
        }
    }
    n
}

/// Prints a name without its `_`. Where the output is full, as when measuring, it is counted.
#[tactic(auto, unfolding(crate::specs::Conversions::joined), using(printing::proofs::Writing::writing))]
fn write_joined<J: Join>(out: &mut Output<'_>, join: &J, name: &[u8])
    ensures { Wrote out.old out.new (joined J.shown name.now) }
{
    if out.bytes.len() <= out.at {
        out.skip(joined_len(name));
        return;
    }
    for i in 0..name.len() {
        write_joined_at(out, join, name, i);
    }
}

/// Prints a name in camel case.
#[tactic(auto, unfolding(crate::specs::Conversions::snake_to_camel))]
pub fn write_camel(out: &mut Output<'_>, name: &[u8])
    ensures { Wrote out.old out.new (snake_to_camel name.now) }
{
    write_joined(out, &Camel, name);
}

/// Prints a name in Pascal case.
#[tactic(auto, unfolding(crate::specs::Conversions::screaming_snake_to_pascal))]
pub fn write_pascal(out: &mut Output<'_>, name: &[u8])
    ensures { Wrote out.old out.new (screaming_snake_to_pascal name.now) }
{
    write_joined(out, &Pascal, name);
}
