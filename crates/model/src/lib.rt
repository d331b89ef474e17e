//! The model of a schema: its items, how they lie in two lent buffers, and the view through which
//! alone anyone reads them.
//!
//! Contracts see a `View` as the schema of specs/Schema.antt, whatever the buffers hold, and each
//! of its methods is an equation on that schema. `entry_at` and `put_entry` read and write an
//! item's record, for whoever builds a model.
//!
//! An item is passed as its position, beside the view: owners and links are positions too, and a
//! struct of view and position would be built at every step of a walk.
#![tactic(auto)]

pub mod search;
pub mod view;

ghost use Rattle.std.specs.Prelude.{◌≡◌, ◌+◌, ◌*◌, ◌≤◌, length, get_or};
ghost use Rattle.std.proofs.lemmas.List.Edits.{sets};
ghost use Rattle.model.specs.internal.Store.{entry_at, words_of};

use std::marker;

// The kinds of items, numbered as in specs/Schema.antt. Numbers, not an enum: a record's kind is
// whatever word the lent buffer holds, and searches compare with that word.

/// A `type` outside any composite.
pub const TYPE: u32 = 1;

/// A `type` within a composite.
pub const MEMBER: u32 = 2;

/// A `ref` of a composite.
pub const REF: u32 = 3;

/// A composite.
pub const COMPOSITE: u32 = 4;

/// An enum.
pub const ENUM: u32 = 5;

/// A `validValue` of an enum.
pub const VALUE: u32 = 6;

/// A message.
pub const MESSAGE: u32 = 7;

/// A group of a message.
pub const GROUP: u32 = 8;

/// A field of a message or group.
pub const FIELD: u32 = 9;

/// An item as the record buffer holds it. A text is given by its start and length in the text
/// buffer.
#[derive(Clone, Copy)]
pub struct Entry {
    /// One of the nine kinds.
    pub kind: u32,
    /// The position of the item that holds it, 0 where the schema itself does.
    pub owner: u32,
    /// Start and length of its name.
    pub name: u32,
    pub nlen: u32,
    /// Start and length of its second text: a primitive, the name of a type or encoding, or a
    /// value.
    pub second: u32,
    pub slen: u32,
    /// The length of a type or member, or the id of a message, group or field.
    pub number: u32,
    /// 1 if the document gives that length. A word, not a `bool`, as the buffer holds it.
    pub given: u32,
    /// Start and length of its characterEncoding.
    pub encoding: u32,
    pub elen: u32,
}

/// What messageSchema says: start and length of the package's name in the text buffer, id, version.
#[derive(Clone, Copy)]
pub struct Head {
    pub name: u32,
    pub len: u32,
    pub id: u32,
    pub version: u32,
}

/// The most items of a model: as many as a document may give.
pub const MOST_ITEMS: u32 = 1024;

/// How many items a model has, at most `MOST_ITEMS`. Contracts see it as that number.
#[derive(Clone, Copy)]
pub struct Count {
    items: u32,
}

impl marker::Model for Count {
    ghost use Rattle.std.specs.Prelude.{ℕ, ◌≤◌};

    ghost Value = { ℕ };

    ghost view = { λ c. c.items };

    ghost inverse = { λ n. record { items = n } };

    ghost invariant = { λ c. c.items ≤ 1024 };
}

impl Count {
    /// The count of so many items.
    pub fn of(items: u32) -> Count
        requires { items ≤ 1024 }
        ensures { result ≡ items }
    {
        Count { items }
    }

    /// How many items those are.
    #[inline(always)]
    pub fn items(self) -> u32
        ensures is { result ≡ self }
        ensures few { self ≤ 1024 }
    {
        self.items
    }
}

/// A schema that was read: its head, and how many items the record buffer holds.
#[derive(Clone, Copy)]
pub struct Model {
    pub head: Head,
    pub count: Count,
}

/// Word `i` of the records, or 0 past their end.
pub fn number_at(rec: &[u32], i: usize) -> u32
    ensures { result ≡ get_or rec.now i 0 }
{
    if i < rec.len() { rec[i] } else { 0 }
}

/// The entry of item `i`; words past the end of the records read as 0.
pub fn entry_at(rec: &[u32], i: u32) -> Entry
    ensures { result ≡ entry_at rec.now i }
{
    let k = 15 * (i as usize);
    Entry {
        kind: number_at(rec, k),
        owner: number_at(rec, k + 1),
        name: number_at(rec, k + 2),
        nlen: number_at(rec, k + 3),
        second: number_at(rec, k + 4),
        slen: number_at(rec, k + 5),
        number: number_at(rec, k + 6),
        given: number_at(rec, k + 7),
        encoding: number_at(rec, k + 8),
        elen: number_at(rec, k + 9),
    }
}

/// Writes the entry of item `i`: ten words of its fifteen.
pub fn put_entry(rec: &mut [u32], i: u32, e: Entry)
    requires { 15 * i + 10 ≤ length rec.old }
    ensures { rec.new ≡ sets rec.old (15 * i) (words_of e) }
{
    let k = 15 * (i as usize);
    // Ten stores: with `copy_from_slice`, reading a document takes a tenth longer.
    rec[k] = e.kind;
    rec[k + 1] = e.owner;
    rec[k + 2] = e.name;
    rec[k + 3] = e.nlen;
    rec[k + 4] = e.second;
    rec[k + 5] = e.slen;
    rec[k + 6] = e.number;
    rec[k + 7] = e.given;
    rec[k + 8] = e.encoding;
    rec[k + 9] = e.elen;
}
