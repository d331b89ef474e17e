//! Refusals 40 and 41: arrays that no proto field represents, found before anything is written.
#![tactic(auto, unfolding(crate::proofs::Opened::on_arrays))]

ghost use Rattle.std.specs.Prelude.{◌≡◌, Bool, false, ℕ};
ghost use Rattle.texts.specs.Lists.{any};
ghost use Rattle.model.specs.Schema.{Schema, item_at, under, all_of};
ghost use Rattle.xmltoproto.specs.Types.{form_of, is_array, meaning};
ghost use Rattle.xmltoproto.specs.Arrays.{first_from, refused_composite, is_array_type};
ghost use Rattle.xmltoproto.specs.Arrays.{holds_array, refused_message, array_refusal};
ghost use Rattle.xmltoproto.specs.internal.Refusing.{refusing, Arrayless};

use crate::composites::is_printed;
use crate::types::is_char_or_byte;
use index::declaration::Declaration;
use index::seen::Index;
use model::{COMPOSITE, FIELD, GROUP, MEMBER, MESSAGE};
use refusals::Refusal;

/// A test of an item, which may look at the whole schema.
trait ArrayTest {
    ghost test: { Schema → ℕ → Bool };

    /// Whether item `i` passes.
    fn passes(&self, s: &Index<'_>, i: u32) -> bool
        ensures { result ≡ test s.now i };
}

/// Whether some item of a kind under an owner passes.
#[tactic(auto, using(crate::proofs::Looping::asking))]
fn any_child<T: ArrayTest>(s: &Index<'_>, kind: u32, owner: u32, by: &T) -> bool
    ensures { result ≡ any (T.test s.now) (under kind owner s.now) }
{
    for i in s.children(kind, owner) {
        if by.passes(s, i) {
            return true;
        }
    }
    false
}

/// The first item of a kind that passes, as its place among the items of that kind, from 0.
#[tactic(auto, using(crate::proofs::Looping::seeking))]
fn first_place<T: ArrayTest>(s: &Index<'_>, kind: u32, by: &T) -> Option<u32>
    ensures { result ≡ first_from 0 (T.test s.now) (all_of kind s.now) }
{
    let mut k = 0;
    for i in s.all_of(kind) {
        if by.passes(s, i) {
            return Some(k);
        }
        k += 1;
    }
    None
}

/// Whether the type or member at `i` is such an array. Only where it has a length above 1 its
/// primitive is looked at.
fn is_array(s: &Index<'_>, i: u32) -> bool
    ensures { result ≡ is_array (form_of (item_at s.now i)) }
{
    if 1 < s.size(i) {
        return !is_char_or_byte(s.second(i));
    }
    false
}

/// Passes a member that is such an array.
struct ArrayMember;

impl ArrayTest for ArrayMember {
    ghost test = { λ s i. is_array (form_of (item_at s i)) };

    fn passes(&self, s: &Index<'_>, i: u32) -> bool {
        is_array(s, i)
    }
}

/// Passes a printed composite that holds such a member.
struct RefusedComposite;

impl ArrayTest for RefusedComposite {
    ghost test = { refused_composite };

    fn passes(&self, s: &Index<'_>, i: u32) -> bool {
        if is_printed(s.view(), i) {
            return any_child(s, MEMBER, i, &ArrayMember);
        }
        false
    }
}

/// Passes a field whose type is such an array.
struct ArrayField;

#[tactic(auto, unfolding(crate::proofs::Opened::on_arrays), using(crate::proofs::Typing::meanings))]
impl ArrayTest for ArrayField {
    ghost test = { λ s i. is_array_type (meaning s (item_at s i).second) };

    fn passes(&self, s: &Index<'_>, i: u32) -> bool {
        match s.declared(i) {
            Some(Declaration::Typed(t)) => is_array(s, t),
            Some(Declaration::Named) => false,
            // A built-in has no length.
            None => false,
        }
    }
}

/// Passes a message or group that holds such a field.
struct ArrayHolder;

impl ArrayTest for ArrayHolder {
    ghost test = { holds_array };

    fn passes(&self, s: &Index<'_>, i: u32) -> bool {
        any_child(s, FIELD, i, &ArrayField)
    }
}

/// Passes a message that holds such a field, itself or in one of its groups.
struct RefusedMessage;

impl ArrayTest for RefusedMessage {
    ghost test = { refused_message };

    fn passes(&self, s: &Index<'_>, i: u32) -> bool {
        if ArrayHolder.passes(s, i) {
            return true;
        }
        any_child(s, GROUP, i, &ArrayHolder)
    }
}

/// Whether any item has the form of such an array. Without one, as in most schemas, nothing is
/// refused, and most items give no length, so this is one load an item.
fn has_arrays(s: &Index<'_>) -> bool
    ensures { result ≡ false → Arrayless s.now }
{
    for i in 0..s.count() {
        if s.given(i) {
            if is_array(s, i) {
                return true;
            }
        }
    }
    false
}

/// Refuses by 40 for the first such composite, or else by 41 for the first such message.
fn first_refusal(s: &Index<'_>) -> Result<(), Refusal>
    ensures { result ≡ refusing (array_refusal s.now) }
{
    match first_place(s, COMPOSITE, &RefusedComposite) {
        Some(c) => Err(Refusal::ArrayInComposite { place: c as usize }),
        None => match first_place(s, MESSAGE, &RefusedMessage) {
            Some(i) => Err(Refusal::ArrayInMessage { place: i as usize }),
            None => Ok(()),
        },
    }
}

/// Refuses a schema with an array that would have to be printed.
pub fn array_refusal(s: &Index<'_>) -> Result<(), Refusal>
    ensures { result ≡ refusing (array_refusal s.now) }
{
    if has_arrays(s) {
        return first_refusal(s);
    }
    Ok(())
}
