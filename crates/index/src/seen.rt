//! A schema with its index: the view's accessors, and searches that use the index.
ghost use Rattle.std.specs.Prelude.{◌≡◌, ◌+◌, ◌≤◌, ◌<◌, ◌^◌, ℕ, Option, Some, None, IfSome, eqb, length};
ghost use Rattle.std.specs.Iterator.{YieldsFirst, item_count};
ghost use Rattle.texts.specs.Choice.{◌and◌, pick};
ghost use Rattle.model.specs.Schema.{item_at, is_kind, all_of, under, next_under, a_field};
ghost use Rattle.model.specs.Search.{ahead, is_of};
ghost use Rattle.index.specs.Children.{left};
ghost use Rattle.index.specs.Blank.{Blank, kinds};
ghost use Rattle.index.specs.internal.Index.{code};
ghost use Rattle.index.specs.Declarations.{declaration_of, declaration_code};
ghost use Rattle.index.specs.declared.declaration.Declaration.{Declaration};

use crate::declaration::{Declaration, declaration_in, numbered};
use crate::{CHAIN, EACH, FIRST, LAST_KIND, build};
use model::FIELD;
use model::search::{OfKind, Under, Walk, next};
use model::view::View;
use std::marker::Model;

/// A view and its index. Contracts see it as the schema.
#[derive(Drop)]
pub struct Index<'a> {
    view: View<'a>,
    links: &'a [u16],
}

impl<'a> Model for Index<'a> {
    ghost use Rattle.model.specs.Schema.{Schema};
    ghost use Rattle.index.specs.internal.Index.{Indexed};

    ghost Value = { Schema };

    ghost view = { λ x. x.view };

    ghost invariant = { λ x. Indexed x.view x.links.now };
}

impl<'a> Index<'a> {
    /// Builds the index of `schema` in `links`, which has to be all zeros and long enough.
    pub fn of(schema: View<'a>, links: &'a mut [u16]) -> Index<'a>
        requires { Blank schema links.old }
        ensures { result ≡ schema.entry }
    {
        build(&schema, links);
        Index {
            view: schema,
            links,
        }
    }

    /// The view without its index.
    pub fn view(&self) -> &View<'a>
        ensures { result.now ≡ self.now }
    {
        &self.view
    }

    // ---- the view's accessors

    /// The package's name, empty if absent.
    pub fn package(&self) -> &'a [u8]
        ensures { result.now ≡ self.now.package_name }
    {
        self.view.package()
    }

    /// The schema's id.
    pub fn id(&self) -> u32
        ensures { result ≡ self.now.id }
    {
        self.view.id()
    }

    /// The schema's version.
    pub fn version(&self) -> u32
        ensures { result ≡ self.now.version }
    {
        self.view.version()
    }

    /// How many items there are, at most 1,024.
    pub fn count(&self) -> u32
        ensures is { result ≡ length self.now.items }
        ensures few { length self.now.items ≤ 1024 }
    {
        self.view.count()
    }

    /// The kind of item `i`, 0 past the last item.
    pub fn kind(&self, i: u32) -> u32
        ensures { result ≡ (item_at self.now i).kind }
    {
        self.view.kind(i)
    }

    /// The position of the item that holds item `i`; 0 past the last item.
    pub fn owner(&self, i: u32) -> u32
        ensures { result ≡ (item_at self.now i).owner }
    {
        self.view.owner(i)
    }

    /// The name of item `i`; empty past the last item.
    pub fn name(&self, i: u32) -> &'a [u8]
        ensures { result.now ≡ (item_at self.now i).name }
    {
        self.view.name(i)
    }

    /// The second text of item `i`, as in `View::second`; empty past the last item.
    pub fn second(&self, i: u32) -> &'a [u8]
        ensures { result.now ≡ (item_at self.now i).second }
    {
        self.view.second(i)
    }

    /// The characterEncoding of item `i`, empty if absent.
    pub fn encoding(&self, i: u32) -> &'a [u8]
        ensures { result.now ≡ (item_at self.now i).encoding }
    {
        self.view.encoding(i)
    }

    /// The length or id of item `i`; 0 past the last item.
    pub fn number(&self, i: u32) -> u32
        ensures { result ≡ (item_at self.now i).number }
    {
        self.view.number(i)
    }

    /// Whether the document gives the length of item `i`.
    pub fn given(&self, i: u32) -> bool
        ensures { result ≡ (item_at self.now i).given }
    {
        self.view.given(i)
    }

    /// The length of item `i`, 0 if absent.
    pub fn size(&self, i: u32) -> u32
        ensures { result ≡ pick (item_at self.now i).given (item_at self.now i).number 0 }
    {
        self.view.size(i)
    }

    /// At least the length of the name of item `i`.
    #[inline(always)]
    pub fn name_most(&self, i: u32) -> u32
        ensures { length (item_at self.now i).name ≤ result }
    {
        self.view.name_most(i)
    }

    /// At least the length of the second text of item `i`.
    #[inline(always)]
    pub fn second_most(&self, i: u32) -> u32
        ensures { length (item_at self.now i).second ≤ result }
    {
        self.view.second_most(i)
    }

    /// At least the length of the encoding of item `i`.
    #[inline(always)]
    pub fn encoding_most(&self, i: u32) -> u32
        ensures { length (item_at self.now i).encoding ≤ result }
    {
        self.view.encoding_most(i)
    }

    /// All items of a kind, in order.
    pub fn all_of(&'a self, kind: u32) -> Walk<'a, OfKind>
        ensures list { ahead (is_of result.by) result.from result.view.now ≡ all_of kind self.now }
        ensures few { length self.now.items ≤ 1024 }
    {
        self.view.all_of(kind)
    }

    // ---- searches

    /// `child_number` for `from` above 0. As a rule item `from - 1` is of this kind and owner, and
    /// its link is the answer; otherwise the model searches.
    fn next_child(&self, kind: u32, owner: u32, from: u32) -> u32
        requires { (kind < kinds) × (owner < length self.now.items) × (0 < from) }
        ensures { result ≡ code (next_under kind owner from self.now) }
    {
        let v = &self.view;
        let i = from - 1;
        if i < v.count() {
            if v.kind(i) == kind {
                if v.owner(i) == owner {
                    return self.links[EACH * (i as usize)] as u32;
                }
            }
        }
        self.searched(kind, owner, from)
    }

    /// `child_number` by the model's search. Out of line: it is rare.
    #[tactic(auto, unfolding(model::specs::Schema::next_under, model::specs::Search::ahead))]
    #[cold]
    #[inline(never)]
    fn searched(&self, kind: u32, owner: u32, from: u32) -> u32
        ensures { result ≡ code (next_under kind owner from self.now) }
    {
        match next(&self.view, &Under { kind, owner }, from) {
            Some(i) => i + 1,
            None => 0,
        }
    }

    /// The first item of a kind under an owner from `from` on, as position plus 1; 0 is none.
    #[inline(always)]
    fn child_number(&self, kind: u32, owner: u32, from: u32) -> u32
        ensures { result ≡ code (next_under kind owner from self.now) }
    {
        let n = self.view.count();
        if LAST_KIND < kind || n <= owner {
            return self.searched(kind, owner, from);
        }
        if from == 0 {
            let head = EACH * (owner as usize) + FIRST + kind as usize;
            return self.links[head] as u32;
        }
        self.next_child(kind, owner, from)
    }

    /// All items of a kind under an owner, in order.
    pub fn children(&'a self, kind: u32, owner: u32) -> Children<'a>
        ensures list { left result ≡ under kind owner self.now }
        ensures few { length self.now.items ≤ 1024 }
    {
        // Proves `few`.
        let _count = self.count();
        Children {
            index: self,
            by: Under { kind, owner },
            from: 0,
        }
    }

    /// What the type name of the field at `i` is declared as. One load, so it requires a field; by
    /// `declared`, which requires nothing, a conversion takes 2 % longer.
    #[inline(always)]
    pub fn field_declared(&self, i: u32) -> Option<Declaration>
        requires { (item_at self.now i).kind ≡ a_field }
        ensures { result ≡ declaration_of self.now (item_at self.now i).second }
    {
        numbered(self.links[EACH * (i as usize) + CHAIN] as u32)
    }

    /// What the type name of any item is declared as: for a field from the index, otherwise by
    /// searches. Inlined, so that the `Declaration` is not stored and loaded again.
    #[inline(always)]
    pub fn declared(&self, i: u32) -> Option<Declaration>
        ensures { result ≡ declaration_of self.now (item_at self.now i).second }
    {
        if self.kind(i) == FIELD {
            return self.field_declared(i);
        }
        declaration_in(&self.view, self.second(i))
    }
}

/// Iterates over the items of a kind under an owner from `from` on, in order.
#[derive(Drop)]
pub struct Children<'a> {
    index: &'a Index<'a>,
    by: Under,
    from: u32,
}

impl<'a> Iterator for Children<'a> {
    type Item = u32;

    ghost next_gives = { YieldsFirst left };

    ghost remaining = { item_count left };

    #[inline(always)]
    fn next(&mut self) -> Option<u32> {
        // By the number: an `Option` made of it would be tested a second time.
        let n = self
            .index
            .child_number(self.by.kind, self.by.owner, self.from);
        if n == 0 {
            return None;
        }
        let i = n - 1;
        self.from = i + 1;
        Some(i)
    }
}
