//! Prints the texts of items, one after another.
#![tactic(auto, using(printing::proofs::Writing::writing))]

ghost use Rattle.std.specs.Prelude.{List, ℕ};
ghost use Rattle.texts.specs.Lists.{each};
ghost use Rattle.printing.specs.Written.{Wrote};
ghost use Rattle.model.specs.Schema.{Schema, under, all_of};

use index::seen::Index;
use printing::Output;

/// What is printed of an item.
///
/// Output and index are two parameters: a struct that lends the output would have to say after each
/// call what the lent bytes hold, as `Wrote` says of the output itself.
pub trait ItemText {
    ghost text: { Self → Schema → ℕ → List ℕ };

    /// Writes the text of item `i`.
    fn write(&self, out: &mut Output<'_>, s: &Index<'_>, i: u32)
        ensures { Wrote out.old out.new (text self.now s.now i) };
}

/// Writes the text of each item of a kind under an owner.
#[tactic(auto, using(crate::proofs::Looping::walking))]
pub fn write_under<T: ItemText>(out: &mut Output<'_>, s: &Index<'_>, kind: u32, owner: u32, by: &T)
    ensures { Wrote out.old out.new (each (T.text by.now s.now) (under kind owner s.now)) }
{
    for i in s.children(kind, owner) {
        by.write(out, s, i);
    }
}

/// Writes the text of each item of a kind.
#[tactic(auto, using(crate::proofs::Looping::walking))]
pub fn write_all<T: ItemText>(out: &mut Output<'_>, s: &Index<'_>, kind: u32, by: &T)
    ensures { Wrote out.old out.new (each (T.text by.now s.now) (all_of kind s.now)) }
{
    for i in s.all_of(kind) {
        by.write(out, s, i);
    }
}
