//! Takes attribute values into the text buffer, from its top downwards, and reads numbers.
#![tactic(auto, using(crate::proofs::Laws::taking))]

ghost use Rattle.std.specs.Prelude.{◌≡◌, List, ℕ, ◌+◌, ◌≤◌, eqb, length, Some};
ghost use Rattle.tags.specs.Attributes.{raw_length};
ghost use Rattle.saxlite.specs.Event.{value_in};
ghost use Rattle.builder.specs.Limits.{min_text};
ghost use Rattle.builder.specs.Builder.{is_given};
ghost use Rattle.builder.specs.internal.Taking.{TakenAt, ReadAt, drafted, draft_length, MadeOf};

use entities::decode_room;
use model::Entry;
use numbers::{digit_at, number_of};
use texts::{Range, part};

/// Decodes a value that was found into the text buffer, where it gets as many bytes below `high` as
/// it takes raw. An absent value is an empty text.
pub fn take_value(doc: &[u8], found: Option<Range>, text: &mut [u8], high: usize) -> Range
    requires { (raw_length found ≤ high) × (high ≤ length text.old) }
    ensures { TakenAt found doc.now text.old high result text.new }
{
    match found {
        None => Range { from: high, len: 0 },
        Some(value) => {
            let at = high - value.len;
            Range {
                from: at,
                len: decode_room(doc, value.from, value.len, text, at),
            }
        }
    }
}

/// A value as a number, decoded into the free text from `low` on; `None` if it is invalid.
fn decoded_number(doc: &[u8], value: Range, text: &mut [u8], low: usize) -> Option<u32>
    requires { low + value.len ≤ length text.old }
    ensures { ReadAt (Some value) doc.now low text.old result text.new }
{
    let n = decode_room(doc, value.from, value.len, text, low);
    number_of(part(text, low, n))
}

/// A value as a number; `None` if it is invalid. It is decoded only if it is none as it stands.
fn piece_number(doc: &[u8], value: Range, text: &mut [u8], low: usize) -> Option<u32>
    requires { low + value.len ≤ length text.old }
    ensures { ReadAt (Some value) doc.now low text.old result text.new }
{
    match number_of(part(doc, value.from, value.len)) {
        Some(n) => Some(n),
        None => decoded_number(doc, value, text, low),
    }
}

/// The number in a value that was found, 0 if it is absent or empty; `None` if it is invalid. Most
/// have one digit, which is tested first.
pub fn read_number(doc: &[u8], found: Option<Range>, text: &mut [u8], low: usize) -> Option<u32>
    requires { low + raw_length found ≤ length text.old }
    ensures { ReadAt found doc.now low text.old result text.new }
{
    match found {
        None => Some(0),
        Some(value) => {
            if value.len == 1 {
                if let Some(n) = digit_at(doc, value.from) {
                    return Some(n);
                }
            }
            piece_number(doc, value, text, low)
        }
    }
}

/// 1 if a value was found, else 0.
fn is_given(found: Option<Range>) -> u32
    ensures { (doc : List ℕ) → eqb result 1 ≡ is_given (value_in doc found) }
{
    match found {
        None => 0,
        Some(_) => 1,
    }
}

// ---- entries: where the text that is taken last begins, the free text ends

/// An item to add: its numbers, and where the raw values of its texts lie in the document.
#[derive(Clone, Copy)]
pub struct Draft {
    pub kind: u32,
    pub owner: u32,
    pub number: u32,
    pub given: Option<Range>,
    pub name: Option<Range>,
    pub second: Option<Range>,
    pub encoding: Option<Range>,
}

impl Draft {
    /// A draft with a name and a second text, without length or encoding.
    pub fn new(
        kind: u32,
        owner: u32,
        number: u32,
        name: Option<Range>,
        second: Option<Range>,
    ) -> Draft
        ensures { result ≡ drafted kind owner number name second }
    {
        Draft {
            kind,
            owner,
            number,
            given: None,
            name,
            second,
            encoding: None,
        }
    }

    /// The entry of the item, its texts taken into the text buffer below `high`. Inlined, so that
    /// what is absent costs nothing.
    #[inline(always)]
    pub fn entry(&self, doc: &[u8], text: &mut [u8], high: usize) -> Entry
        requires { (draft_length self.now ≤ high) × (high ≤ length text.old) × (high ≤ min_text) }
        ensures { MadeOf self.now doc.now high text.old result text.new }
    {
        let one = take_value(doc, self.name, text, high);
        let two = take_value(doc, self.second, text, one.from);
        let three = take_value(doc, self.encoding, text, two.from);
        Entry {
            kind: self.kind,
            owner: self.owner,
            name: one.from as u32,
            nlen: one.len as u32,
            second: two.from as u32,
            slen: two.len as u32,
            number: self.number,
            given: is_given(self.given),
            encoding: three.from as u32,
            elen: three.len as u32,
        }
    }
}
