//! What the builder borrows, what it learns of a tag, and the stack of open names.
#![tactic(auto, using(crate::proofs::Laws::stacking))]

ghost use Rattle.std.specs.Prelude.{◌≡◌, ◌+◌, ◌≤◌, ◌<◌};
ghost use Rattle.texts.specs.Text.{same};
ghost use Rattle.builder.specs.Limits.{max_depth, max_document};
ghost use Rattle.builder.specs.Builder.{top};
ghost use Rattle.builder.specs.internal.Layout.{stack_of, builder_in, pushed, with_name, initial, parent_composite, doc_piece, lent};
ghost use Rattle.builder.specs.internal.Layout.{Intact, Sound, LongEnough, Suffice};
ghost use Rattle.builder.specs.internal.Taking.{Finds};

use crate::limits::{Limits, NAMES_FROM};
use crate::state::{State, Usage};
use elements::Element;
use model::number_at;
use swar::same_name;
use tags::noting::Notes;
use texts::{Range, equal, part};

/// The document, and the two buffers for what is read of it: items and open names, and texts.
#[derive(Drop)]
pub struct Work<'d, 'a> {
    pub limits: Limits,
    pub doc: &'d [u8],
    pub records: &'a mut [u32],
    pub text: &'a mut [u8],
}

/// The ranges of the raw values that a tag's element looks up; `None` without such an attribute.
#[derive(Clone, Copy)]
pub(crate) struct Found {
    pub number: Option<Range>,
    pub name: Option<Range>,
    pub second: Option<Range>,
    pub encoding: Option<Range>,
}

/// An open tag: the place of its `<`, its local name and element, where its attributes begin, where
/// it ends, and what the reader noted of it.
#[derive(Clone, Copy)]
pub struct Tag {
    pub place: usize,
    pub name: Range,
    pub element: Element,
    pub attributes: usize,
    pub next: usize,
    pub noted: Notes,
}

impl Tag {
    /// The ranges of the values that the reader noted.
    pub(crate) fn found(&self) -> Found
        ensures { Finds self.now result }
    {
        Found {
            number: self.noted.number(),
            name: self.noted.name(),
            second: self.noted.second(),
            encoding: self.noted.encoding(),
        }
    }
}

impl<'d, 'a> Work<'d, 'a> {
    /// The document and the buffers before the first event.
    pub fn new(
        limits: Limits,
        doc: &'d [u8],
        records: &'a mut [u32],
        text: &'a mut [u8],
    ) -> Work<'d, 'a>
        requires { LongEnough records.old text.old }
        ensures is { result ≡ lent limits doc.entry records.entry text.entry }
        ensures intact { Intact result initial }
        ensures sound { Suffice doc.now records.old text.old → Sound result initial }
    {
        Work {
            limits,
            doc,
            records,
            text,
        }
    }

    /// Pushes a name, the `len` bytes at `from`: it is the innermost open one from now on.
    pub(crate) fn push(&mut self, s: State, from: usize, len: usize) -> State
        requires intact { Intact self.old s }
        requires above { s.usage.depth < max_depth }
        requires inside { from + len ≤ max_document }
        ensures state { result ≡ pushed s }
        ensures names { self.new ≡ with_name self.old s from len }
    {
        let depth = s.usage.depth;
        let k = NAMES_FROM + 2 * depth;
        self.records[k] = from as u32;
        self.records[k + 1] = len as u32;
        State {
            usage: Usage {
                depth: depth + 1,
                ..s.usage
            },
            ..s
        }
    }

    /// The innermost of `depth` open names; empty if there is none.
    fn top_name(&self, depth: usize) -> &'d [u8]
        requires { depth ≤ max_depth }
        ensures { result.now ≡ top (stack_of depth self.now.records.now self.now.doc.now) }
    {
        if depth == 0 {
            return part(self.doc, 0, 0);
        }
        let k = NAMES_FROM + 2 * (depth - 1);
        let from = number_at(self.records, k) as usize;
        let len = number_at(self.records, k + 1) as usize;
        part(self.doc, from, len)
    }

    /// Whether the innermost open name is that of the `len` bytes at `name`.
    fn is_named(&self, s: State, name: usize, len: usize) -> bool
        requires { s.usage.depth ≤ max_depth }
        ensures { result ≡ same (doc_piece self.now name len) (top (builder_in self.now s).stack) }
    {
        same_name(part(self.doc, name, len), self.top_name(s.usage.depth))
    }

    /// The same. If it is the very same range, as where a tag closes itself, no bytes are compared.
    pub(crate) fn is_open(&self, s: State, name: usize, len: usize) -> bool
        requires { s.usage.depth ≤ max_depth }
        ensures { result ≡ same (doc_piece self.now name len) (top (builder_in self.now s).stack) }
    {
        if 0 < s.usage.depth {
            let k = NAMES_FROM + 2 * (s.usage.depth - 1);
            if number_at(self.records, k) as usize == name
                && number_at(self.records, k + 1) as usize == len
            {
                return true;
            }
        }
        self.is_named(s, name, len)
    }

    /// Whether the name below the innermost one, that of the parent, is composite.
    pub(crate) fn in_composite(&self, s: State) -> bool
        requires { s.usage.depth ≤ max_depth }
        ensures { result ≡ parent_composite (builder_in self.now s) }
    {
        equal(self.top_name(s.popped().usage.depth), b"composite")
    }
}
