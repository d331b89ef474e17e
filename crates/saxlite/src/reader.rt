//! The reader: holds the document and where it stands, and yields one event at a time.
#![tactic(auto, using(crate::proofs::Reading::reading))]

ghost use Rattle.std.specs.Prelude.{◌≡◌, None};
ghost use Rattle.saxlite.specs.Reader.{cursor_at, Yields};
ghost use Rattle.saxlite.specs.internal.Moving.{bare, Asked, Advances};
ghost use Rattle.saxlite.specs.declared.event.Event.TheVariants.{Close};

use crate::event::{Cursor, Event, Owed, Read, Told};
use crate::markup::read_at;
use crate::passing::past_silent;
use refusals::Refusal;

impl Owed {
    /// The close event, behind which the reader goes on at `at`.
    fn close(self, at: usize) -> Read
        ensures { result ≡ bare (Close self.name) self.element self.place at }
    {
        let event = Event::Close { name: self.name };
        Read::bare(event, self.element, self.place, at)
    }
}

impl Cursor {
    /// The next event, past markup that is no event; `None` at the end. No close is owed.
    fn read_on(self, doc: &[u8]) -> Result<Option<Read>, Refusal>
        requires { self.owed ≡ None }
        ensures { Asked doc.now self result }
    {
        let at = past_silent(doc, self.at)?;
        if doc.len() <= at {
            return Ok(None);
        }
        let read = read_at(doc, at)?;
        Ok(Some(read))
    }

    /// The owed close, or else the next event; `None` at the document's end.
    fn read(self, doc: &[u8]) -> Result<Option<Read>, Refusal>
        ensures { Asked doc.now self result }
    {
        match self.owed {
            Some(owed) => Ok(Some(owed.close(self.at))),
            None => self.read_on(doc),
        }
    }
}

/// A reader over a document that yields one event at a time.
#[derive(Clone, Copy)]
pub struct Reader<'a> {
    doc: &'a [u8],
    cursor: Cursor,
}

impl<'a> Reader<'a> {
    /// A reader that stands before the first byte of `doc`.
    pub fn new(doc: &'a [u8]) -> Reader<'a>
        ensures { (result.doc ≡ doc.entry) × (result.cursor ≡ cursor_at 0) }
    {
        Reader {
            doc,
            cursor: Cursor::at(0),
        }
    }

    /// The next event, `None` at the document's end, or the refusal of what stands here. An event
    /// moves the reader; the end and a refusal leave it, and come again.
    pub fn next(&mut self) -> Result<Option<Told>, Refusal>
        ensures yields { Yields self.old self.new result }
        ensures moves { Advances self.old.doc.now self.old.cursor self.new.cursor result }
    {
        match self.cursor.read(self.doc)? {
            Some(read) => {
                self.cursor = read.cursor;
                Ok(Some(read.told))
            }
            None => Ok(None),
        }
    }
}
