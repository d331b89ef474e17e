//! Searches among the items, and walks over those that pass a test.
ghost use Rattle.std.specs.Prelude.{◌≡◌, Bool, ℕ, ◌<◌, ◌≤◌, OnSome, IfSome, eqb, length};
ghost use Rattle.std.specs.Iterator.{YieldsFirst, item_count};
ghost use Rattle.texts.specs.Choice.{◌and◌};
ghost use Rattle.texts.specs.Text.{same};
ghost use Rattle.model.specs.Schema.{Item, item_at, positions_from, is_kind, is_named, first, last, all_of, under, last_named};
ghost use Rattle.model.specs.Search.{ahead, held, is_of, last_under};

use crate::view::View;
use texts::equal;

/// A test of an item.
pub trait Test {
    ghost test: { Self → Item → Bool };

    /// Whether item `i` passes.
    fn passes(&self, v: &View<'_>, i: u32) -> bool
        ensures { result ≡ test self.now (item_at v.now i) };
}

/// Passes items of a kind.
#[derive(Clone, Copy)]
pub struct OfKind {
    pub kind: u32,
}

impl Test for OfKind {
    ghost test = { is_of };

    fn passes(&self, v: &View<'_>, i: u32) -> bool {
        v.kind(i) == self.kind
    }
}

/// Passes items of a kind that an owner holds.
#[derive(Clone, Copy)]
pub struct Under {
    pub kind: u32,
    pub owner: u32,
}

impl Test for Under {
    ghost test = { held };

    fn passes(&self, v: &View<'_>, i: u32) -> bool {
        v.kind(i) == self.kind && v.owner(i) == self.owner
    }
}

/// Passes items of a kind that have a name.
#[derive(Clone, Copy)]
pub struct Named<'a> {
    pub kind: u32,
    pub name: &'a [u8],
}

impl<'a> Test for Named<'a> {
    ghost test = { λ t. is_named t.kind t.name.now };

    fn passes(&self, v: &View<'_>, i: u32) -> bool {
        v.kind(i) == self.kind && equal(v.name(i), self.name)
    }
}

/// The position of the first item from `from` on that passes; `None` if there is none.
pub fn next<T: Test>(v: &View<'_>, by: &T, from: u32) -> Option<u32>
    ensures is { result ≡ first (ahead (T.test by.now) from v.now) }
    ensures within { IfSome result (λ i. i < 1024) }
{
    for i in from..v.count() {
        if by.passes(v, i) {
            return Some(i);
        }
    }
    None
}

/// The position of the last item that passes, searched from the end; `None` if there is none.
pub fn last<T: Test>(v: &View<'_>, by: &T) -> Option<u32>
    ensures { result ≡ last (positions_from 0 (T.test by.now) v.now.items) }
{
    for i in (0..v.count()).rev() {
        if by.passes(v, i) {
            return Some(i);
        }
    }
    None
}

/// Iterates over the items from `from` on that pass, in order.
#[derive(Drop)]
pub struct Walk<'a, T> {
    view: &'a View<'a>,
    by: T,
    from: u32,
}

impl<'a, T: Test + Drop> Iterator for Walk<'a, T> {
    type Item = u32;

    ghost next_gives = { YieldsFirst (λ s. ahead (T.test s.by) s.from s.view.now) };

    ghost remaining = { item_count (λ s. ahead (T.test s.by) s.from s.view.now) };

    fn next(&mut self) -> Option<u32> {
        let v = self.view;
        let i = next(v, &self.by, self.from)?;
        self.from = i + 1;
        Some(i)
    }
}

impl<'a> View<'a> {
    /// The position of the last item of a kind that has a name; `None` if there is none.
    pub fn last_named(&self, kind: u32, name: &[u8]) -> Option<u32>
        ensures { result ≡ last_named kind name.now self.now }
    {
        last(self, &Named { kind, name })
    }

    /// The position of the last item of a kind under an owner; `None` if there is none.
    pub fn last_under(&self, kind: u32, owner: u32) -> Option<u32>
        ensures { result ≡ last_under kind owner self.now.items }
    {
        last(self, &Under { kind, owner })
    }

    /// All items of a kind, in order.
    pub fn all_of(&'a self, kind: u32) -> Walk<'a, OfKind>
        ensures list { ahead (is_of result.by) result.from result.view.now ≡ all_of kind self.now }
        ensures few { length self.now.items ≤ 1024 }
    {
        // Proves `few`.
        let _count = self.count();
        Walk {
            view: self,
            by: OfKind { kind },
            from: 0,
        }
    }

    /// All items of a kind under an owner, in order.
    pub fn under(&'a self, kind: u32, owner: u32) -> Walk<'a, Under>
        ensures { ahead (held result.by) result.from result.view.now ≡ under kind owner self.now }
    {
        Walk {
            view: self,
            by: Under { kind, owner },
            from: 0,
        }
    }
}
