//! Events as ranges of the document, and where the reader goes on behind one.
#![tactic(auto)]

ghost use Rattle.std.specs.Prelude.{◌≡◌};
ghost use Rattle.saxlite.specs.Reader.{cursor_at};
ghost use Rattle.saxlite.specs.internal.Moving.{bare};

use elements::Element;
use tags::noting::Notes;
use texts::Range;

/// What the reader yields, as ranges of the document.
#[derive(Clone, Copy)]
pub enum Event {
    /// Text, not decoded.
    Text(Range),
    /// An open tag: its local name, where its attributes begin (behind its raw name), and its end.
    Open {
        name: Range,
        attributes: usize,
        next: usize,
    },
    /// A close tag, or the close of a self-closed one: its local name.
    Close {
        name: Range,
    },
}

/// An event, the element of a tag (`Other` beside a text), its place (a tag's '<', a text's first
/// byte), and what was noted of an open tag.
#[derive(Clone, Copy)]
pub struct Told {
    pub event: Event,
    pub element: Element,
    pub place: usize,
    pub noted: Notes,
}

/// The close that a self-closed tag owes: the place of its '<', its local name, and its element.
#[derive(Clone, Copy)]
pub(crate) struct Owed {
    pub place: usize,
    pub name: Range,
    pub element: Element,
}

/// Where the reader stands, and the close that it yields before it goes on there.
#[derive(Clone, Copy)]
pub(crate) struct Cursor {
    pub at: usize,
    pub owed: Option<Owed>,
}

/// An event, and where the reader goes on behind it.
#[derive(Clone, Copy)]
pub(crate) struct Read {
    pub told: Told,
    pub cursor: Cursor,
}

impl Cursor {
    /// At a position, with no close owed.
    pub fn at(at: usize) -> Cursor
        ensures { result ≡ cursor_at at }
    {
        Cursor { at, owed: None }
    }
}

impl Read {
    /// An event without notes, behind which the reader goes on at `next`.
    pub(crate) fn bare(event: Event, element: Element, place: usize, next: usize) -> Read
        ensures { result ≡ bare event element place next }
    {
        Read {
            told: Told {
                event,
                element,
                place,
                noted: Notes::none(),
            },
            cursor: Cursor::at(next),
        }
    }
}
