//! Reading numbers and adding items.
#![tactic(auto, unfolding(crate::specs::internal::Taking::CanRead, crate::specs::internal::Taking::CanAdd), using(crate::proofs::Laws::adding))]

ghost use Rattle.std.specs.Prelude.{◌≡◌};
ghost use Rattle.model.specs.Schema.{item_at};
ghost use Rattle.model.specs.internal.Store.{entry_at};
ghost use Rattle.builder.specs.internal.Layout.{builder_in, room};
ghost use Rattle.builder.specs.internal.Taking.{NumberRead, CanRead, CanAdd, Added, CanPut, Put};

use crate::state::{State, Usage};
use crate::take::{Draft, read_number};
use crate::work::{Tag, Work};
use model::{Entry, entry_at, put_entry};
use refusals::Refusal;
use texts::Range;

// `number`, `put` and `add` are inlined, so that the state is not copied in and out of calls.
impl<'d, 'a> Work<'d, 'a> {
    /// The number in a value of a tag; 0 if it is absent or empty. Refused (32) if it is invalid.
    #[inline(always)]
    pub(crate) fn number(
        &mut self,
        s: State,
        tag: &Tag,
        found: Option<Range>,
    ) -> Result<u32, Refusal>
        requires { CanRead self.old s tag.now found }
        ensures { NumberRead tag.now.place (room tag.now) found self.old s self.new result }
    {
        let doc = self.doc;
        match read_number(doc, found, self.text, s.usage.collected_to) {
            Some(n) => Ok(n),
            None => Err(Refusal::BadNumber { place: tag.place }),
        }
    }

    /// Adds an item by its entry, whose texts are taken. Refused (35) at the limit.
    #[inline(always)]
    fn put(&mut self, s: State, place: usize, e: Entry) -> Result<State, Refusal>
        requires { CanPut self.old s e }
        ensures { Put self.old place s e self.new result }
    {
        let count = s.usage.items;
        if self.limits.items <= count {
            return Err(Refusal::TooManyItems { place });
        }
        put_entry(self.records, count, e);
        Ok(State {
            usage: Usage {
                items: count + 1,
                taken_from: e.encoding as usize,
                ..s.usage
            },
            ..s
        })
    }

    /// Adds the item of a draft: takes its texts, then puts its entry. Refused (35) at the limit.
    #[inline(always)]
    pub(crate) fn add(&mut self, s: State, tag: &Tag, d: Draft) -> Result<State, Refusal>
        requires { CanAdd self.old s tag.now d }
        ensures { Added self.old tag.now s d self.new result }
    {
        let e = d.entry(self.doc, self.text, s.usage.taken_from);
        self.put(s, tag.place, e)
    }

    /// The entry of the item at position `i`.
    pub(crate) fn entry(&self, i: u32) -> Entry
        ensures { result ≡ entry_at self.now.records.now i }
    {
        entry_at(self.records, i)
    }

    /// The owner of the item at position `i`; 0 past the last item.
    pub(crate) fn owner_of(&self, s: State, i: u32) -> u32
        ensures { result ≡ (item_at (builder_in self.now s).schema i).owner }
    {
        if i < s.usage.items {
            return self.entry(i).owner;
        }
        0
    }
}
