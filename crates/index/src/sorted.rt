//! The type names that a schema declares, sorted, so that a lookup bisects: at most eleven
//! comparisons, whatever the names are.
ghost use Rattle.std.specs.Prelude.{◌≡◌, ◌+◌, ◌<◌, ◌≤◌, length, set};
ghost use Rattle.index.specs.internal.Index.{Numbers};
ghost use Rattle.index.specs.internal.Sorted.{Rising, Placed, Inserted, Ordered, Meeting, InOrder};

use crate::declaration::{NAMED, TYPED, is_declaring};
use model::view::View;
use model::{MOST_ITEMS, TYPE};
use std::cmp::Ordering;
use std::marker::Model;

/// How many names there may be.
const SIZE: usize = MOST_ITEMS as usize;

/// Positions of items, sorted by name: the first `count` of the array.
#[derive(Drop)]
pub(crate) struct Slots {
    names: [u16; SIZE],
    count: usize,
}

impl Slots {
    /// Bisects: `Ok` with where the name stands, or `Err` with where it would be inserted.
    fn slot_of(&self, v: &View<'_>, name: &[u8]) -> Result<usize, usize>
        requires { Rising v.now self.now.names self.now.count }
        ensures { Placed v.now self.now.names self.now.count name.now result }
    {
        // `while`, not `for`: `low..high` shrinks from either end.
        let mut low = 0;
        let mut high = self.count;
        while low < high {
            let mid = (low + high) / 2;
            match v.name(self.names[mid] as u32).cmp(name) {
                Ordering::Less => low = mid + 1,
                Ordering::Equal => return Ok(mid),
                Ordering::Greater => high = mid,
            }
        }
        Err(low)
    }

    /// Inserts item `i` at slot `p`; those from there on move up by one.
    fn insert(&mut self, p: usize, i: u32)
        requires { (p ≤ self.old.count) × (self.old.count < 1024) × (i < 1024) }
        ensures names { Inserted self.old.names self.old.count p i self.new.names }
        ensures count { self.new.count ≡ self.old.count + 1 }
    {
        for j in (p..self.count).rev() {
            self.names[j + 1] = self.names[j];
        }
        self.names[p] = i as u16;
        self.count += 1;
    }

    /// Item `i` declares the name at `p` again: it replaces a type, but no enum or composite.
    fn meet(&mut self, v: &View<'_>, p: usize, i: u32)
        requires { Meeting v.now i self.old.names self.old.count p }
        ensures { Ordered v.now (i + 1) self.new.names self.new.count }
    {
        let by_type = v.kind(self.names[p] as u32) == TYPE;
        if by_type {
            self.names[p] = i as u16;
        }
    }

    /// Adds the name of item `i`, if it declares one, to those of the items before it.
    fn add(&mut self, v: &View<'_>, i: u32)
        requires { Ordered v.now i self.old.names self.old.count × (i < length v.now.items) }
        ensures { Ordered v.now (i + 1) self.new.names self.new.count }
    {
        if is_declaring(v.kind(i)) {
            match self.slot_of(v, v.name(i)) {
                Ok(p) => self.meet(v, p, i),
                Err(p) => self.insert(p, i),
            }
        }
    }

    /// Sorts the names that a schema declares.
    pub(crate) fn of(v: &View<'_>) -> Slots
        ensures { InOrder v.now result.names result.count }
    {
        let mut slots = Slots {
            names: [0; SIZE],
            count: 0,
        };
        for i in 0..v.count() {
            slots.add(v, i);
        }
        slots
    }
}

/// The names that a schema declares, sorted. Contracts see them as the schema. The array is lent, as
/// 2 KiB would be copied to move it.
#[derive(Drop)]
pub(crate) struct Names<'a> {
    view: &'a View<'a>,
    slots: &'a Slots,
}

impl<'a> Model for Names<'a> {
    ghost use Rattle.model.specs.Schema.{Schema};
    ghost use Rattle.index.specs.internal.Sorted.{InOrder};

    ghost Value = { Schema };

    ghost view = { λ a. a.view.now };

    ghost invariant = { λ a. InOrder a.view.now a.slots.now.names a.slots.now.count };
}

impl<'a> Names<'a> {
    /// The names that `slots` has in order.
    pub(crate) fn of(view: &'a View<'a>, slots: &'a Slots) -> Names<'a>
        requires { InOrder view.now slots.now.names slots.now.count }
        ensures { result ≡ view.now }
    {
        Names { view, slots }
    }

    /// The number of what a name is declared as.
    pub(crate) fn code_of(&self, name: &[u8]) -> u32
        ensures { Numbers self.now name.now result }
    {
        let v = self.view;
        let Ok(p) = self.slots.slot_of(v, name) else {
            return 0;
        };
        let i = self.slots.names[p] as u32;
        if v.kind(i) == TYPE { i + TYPED } else { NAMED }
    }
}
