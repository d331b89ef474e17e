//! A model with its two buffers, read as the schema that they stand for.
//!
//! No access fails, whatever the buffers hold: records past their end read as 0, and a text is cut
//! off at the end of the text buffer.
ghost use Rattle.std.specs.Prelude.{◌≡◌, List, ℕ, ◌+◌, ◌<◌, ◌≤◌, ◌^◌, eqb, length, get_or};
ghost use Rattle.texts.specs.Choice.{pick};
ghost use Rattle.texts.specs.Text.{piece};
ghost use Rattle.model.specs.Schema.{item_at};
ghost use Rattle.model.specs.internal.Store.{entry_at, item_of, schema_of};

use crate::{Entry, Model, number_at};

/// A model over its two buffers. Contracts see it as a schema.
#[derive(Drop)]
pub struct View<'a> {
    model: Model,
    records: &'a [u32],
    text: &'a [u8],
}

impl<'a> std::marker::Model for View<'a> {
    ghost use Rattle.model.specs.Schema.{Schema};
    ghost use Rattle.model.specs.internal.Store.{schema_of};

    ghost Value = { Schema };

    ghost view = { λ v. schema_of v.model v.records.now v.text.now };
}

/// Words `i` and `i + 1` with one bounds check.
#[inline(always)]
fn pair(rec: &[u32], i: usize) -> (u32, u32)
    requires { i + 1 < 2 ^ 64 }
    ensures { (result.0 ≡ get_or rec.now i 0) × (result.1 ≡ get_or rec.now (i + 1) 0) }
{
    if i + 1 < rec.len() {
        return (rec[i], rec[i + 1]);
    }
    (number_at(rec, i), number_at(rec, i + 1))
}

/// The crate's `entry_at`, two words a test. Once inlined into an accessor, only the words that it
/// needs are read. In the builder's hot loop this one is 2 % slower on small attributes.
#[inline(always)]
fn entry_by_pairs(rec: &[u32], i: u32) -> Entry
    ensures { result ≡ entry_at rec.now i }
{
    let k = 15 * (i as usize);
    let (name, nlen) = pair(rec, k + 2);
    let (second, slen) = pair(rec, k + 4);
    let (number, given) = pair(rec, k + 6);
    let (encoding, elen) = pair(rec, k + 8);
    Entry {
        kind: number_at(rec, k),
        owner: number_at(rec, k + 1),
        name,
        nlen,
        second,
        slen,
        number,
        given,
        encoding,
        elen,
    }
}

/// The entry of item `i`, or an empty one past the last item.
#[inline(always)]
fn item(m: Model, rec: &[u32], i: u32) -> Entry
    ensures { (text : List ℕ) → item_of text result ≡ item_at (schema_of m rec.now text) i }
{
    if i < m.count.items() {
        return entry_by_pairs(rec, i);
    }
    Entry {
        kind: 0,
        owner: 0,
        name: 0,
        nlen: 0,
        second: 0,
        slen: 0,
        number: 0,
        given: 0,
        encoding: 0,
        elen: 0,
    }
}

/// What there is of `n` bytes from `a` on. Out of line: a document's texts all lie in the buffer.
#[cold]
#[inline(never)]
fn cut(text: &[u8], a: usize, n: usize) -> &[u8]
    ensures { result.now ≡ piece text.now a n }
{
    texts::part(text, a, n)
}

/// `n` bytes of the text buffer from `a` on, or as many as there are.
#[inline(always)]
fn part(text: &[u8], a: usize, n: usize) -> &[u8]
    ensures { result.now ≡ piece text.now a n }
{
    if a < text.len() && n <= text.len() - a {
        let e = a + n;
        return &text[a..e];
    }
    cut(text, a, n)
}

impl<'a> View<'a> {
    /// The view of a model over the two buffers.
    pub fn new(model: Model, records: &'a [u32], text: &'a [u8]) -> View<'a>
        ensures { result ≡ schema_of model records.now text.now }
    {
        View {
            model,
            records,
            text,
        }
    }

    /// The package's name, empty if absent.
    pub fn package(&self) -> &'a [u8]
        ensures { result.now ≡ self.now.package_name }
    {
        let head = self.model.head;
        part(self.text, head.name as usize, head.len as usize)
    }

    /// The schema's id.
    pub fn id(&self) -> u32
        ensures { result ≡ self.now.id }
    {
        self.model.head.id
    }

    /// The schema's version.
    pub fn version(&self) -> u32
        ensures { result ≡ self.now.version }
    {
        self.model.head.version
    }

    /// How many items there are, at most 1,024.
    pub fn count(&self) -> u32
        ensures is { result ≡ length self.now.items }
        ensures few { length self.now.items ≤ 1024 }
    {
        self.model.count.items()
    }

    // ---- the item at position `i`; past the last item, an empty one

    /// Its kind, 0 past the last item.
    pub fn kind(&self, i: u32) -> u32
        ensures { result ≡ (item_at self.now i).kind }
    {
        item(self.model, self.records, i).kind
    }

    /// The position of the item that holds it, 0 where the schema itself does.
    pub fn owner(&self, i: u32) -> u32
        ensures { result ≡ (item_at self.now i).owner }
    {
        item(self.model, self.records, i).owner
    }

    /// Its name.
    pub fn name(&self, i: u32) -> &'a [u8]
        ensures { result.now ≡ (item_at self.now i).name }
    {
        let e = item(self.model, self.records, i);
        part(self.text, e.name as usize, e.nlen as usize)
    }

    /// Its second text: the primitive of a type or member, the type name of a ref or field, the
    /// encoding type of an enum, or the text of a value.
    pub fn second(&self, i: u32) -> &'a [u8]
        ensures { result.now ≡ (item_at self.now i).second }
    {
        let e = item(self.model, self.records, i);
        part(self.text, e.second as usize, e.slen as usize)
    }

    /// The characterEncoding of a type or member, empty if absent.
    pub fn encoding(&self, i: u32) -> &'a [u8]
        ensures { result.now ≡ (item_at self.now i).encoding }
    {
        let e = item(self.model, self.records, i);
        part(self.text, e.encoding as usize, e.elen as usize)
    }

    /// The length of a type or member, or the id of a message, group or field.
    pub fn number(&self, i: u32) -> u32
        ensures { result ≡ (item_at self.now i).number }
    {
        item(self.model, self.records, i).number
    }

    /// Whether the document gives its length.
    pub fn given(&self, i: u32) -> bool
        ensures { result ≡ (item_at self.now i).given }
    {
        item(self.model, self.records, i).given == 1
    }

    /// The length of a type or member, 0 if absent.
    pub fn size(&self, i: u32) -> u32
        ensures { result ≡ pick (item_at self.now i).given (item_at self.now i).number 0 }
    {
        let e = item(self.model, self.records, i);
        if e.given == 1 { e.number } else { 0 }
    }

    // ---- upper bounds of its texts' lengths
    // One load each. They exceed the length only where a text would run past the end of the buffer,
    // which no document's does; the exact lengths would cost 1 % of a conversion or more.

    /// At least the length of its name.
    #[inline(always)]
    pub fn name_most(&self, i: u32) -> u32
        ensures { length (item_at self.now i).name ≤ result }
    {
        item(self.model, self.records, i).nlen
    }

    /// At least the length of its second text.
    #[inline(always)]
    pub fn second_most(&self, i: u32) -> u32
        ensures { length (item_at self.now i).second ≤ result }
    {
        item(self.model, self.records, i).slen
    }

    /// At least the length of its encoding.
    #[inline(always)]
    pub fn encoding_most(&self, i: u32) -> u32
        ensures { length (item_at self.now i).encoding ≤ result }
    {
        item(self.model, self.records, i).elen
    }
}
