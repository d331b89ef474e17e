//! What stands at a position of the document: text, a close tag or an open tag. An open tag is read
//! to its end before it is an event.
#![tactic(auto, using(crate::proofs::Telling::telling))]

ghost use Rattle.std.specs.Prelude.{◌≡◌, false, ◌+◌, ◌≤◌, ◌<◌, length, drop};
ghost use Rattle.texts.specs.Text.{ascii, starts_with};
ghost use Rattle.saxlite.specs.Events.{events_from, text_at, close_at, open_at};
ghost use Rattle.saxlite.specs.internal.Moving.{cursor_past, Here};
ghost use Rattle.saxlite.specs.internal.Passing.{is_silent};

use crate::event::{Cursor, Event, Owed, Read, Told};
use elements::{Element, element_of};
use refusals::Refusal;
use swar::byte_from;
use tags::beginning::{begin_at, closing_at};
use tags::part::Ending;
use tags::scan::{prefix_len, skip_space, tag_name_end};
use tags::tag::tag_noting;
use texts::Range;

/// The text at `at`, up to the next '<' or the document's end.
fn read_text(doc: &[u8], at: usize) -> Result<Read, Refusal>
    requires { (at < length doc.now) × (starts_with (ascii "<") (drop at doc.now) ≡ false) }
    ensures { Here (text_at (events_from doc.now) doc.now at) doc.now at result }
{
    let end = byte_from(doc, at, b'<');
    let text = Range {
        from: at,
        len: end - at,
    };
    Ok(Read::bare(Event::Text(text), Element::Other, at, end))
}

/// The close tag at `at`, of any name. Refused (14) without its '>'.
fn read_any_close(doc: &[u8], at: usize) -> Result<Read, Refusal>
    requires { at + 2 ≤ length doc.now }
    ensures { Here (close_at (events_from doc.now) doc.now at) doc.now at result }
{
    let start = at + 2;
    let end = tag_name_end(doc, start);
    let due = skip_space(doc, end);
    if texts::starts_with(doc, due, b">") {
        let next = due + 1;
        let n = end - start;
        let prefix = prefix_len(texts::part(doc, start, n));
        let name = Range {
            from: start + prefix,
            len: n - prefix,
        };
        let element = element_of(texts::part(doc, name.from, name.len));
        let event = Event::Close { name };
        return Ok(Read::bare(event, element, at, next));
    }
    Err(Refusal::NoCloseTagEnd {
        offset: due,
        place: at,
    })
}

/// The close tag at `at`. A usual name needs no scan.
fn read_close(doc: &[u8], at: usize) -> Result<Read, Refusal>
    requires { at + 2 ≤ length doc.now }
    ensures { Here (close_at (events_from doc.now) doc.now at) doc.now at result }
{
    let start = at + 2;
    if let Some(usual) = closing_at(doc, start) {
        let name = Range {
            from: start + usual.prefix,
            len: usual.len - usual.prefix,
        };
        let next = start + usual.len + 1;
        let event = Event::Close { name };
        return Ok(Read::bare(event, usual.element, at, next));
    }
    read_any_close(doc, at)
}

/// Where the reader goes on behind an open tag: a self-closed one owes its close.
fn cursor_past(ending: Ending, owed: Owed) -> Cursor
    ensures { result ≡ cursor_past ending owed }
{
    Cursor {
        at: ending.next,
        owed: if ending.self_closed { Some(owed) } else { None },
    }
}

/// The open tag at `at`, with what is noted of it. Refused with 15 to 20.
fn read_open(doc: &[u8], at: usize) -> Result<Read, Refusal>
    requires { at + 1 ≤ length doc.now }
    ensures { Here (open_at (events_from doc.now) doc.now at) doc.now at result }
{
    let start = at + 1;
    let begun = begin_at(doc, start);
    let end = begun.end;
    if end == start {
        return Err(Refusal::NoTagName {
            offset: start,
            place: at,
        });
    }
    let name = Range {
        from: start + begun.prefix,
        len: end - start - begun.prefix,
    };
    let element = begun.element;
    let tag = tag_noting(doc, end, at, element);
    let ending = tag.ending?;
    let owed = Owed {
        place: at,
        name,
        element,
    };
    let event = Event::Open {
        name,
        attributes: end,
        next: ending.next,
    };
    Ok(Read {
        told: Told {
            event,
            element,
            place: at,
            noted: tag.noted,
        },
        cursor: cursor_past(ending, owed),
    })
}

/// The event at `at`, where no markup begins that is to be skipped. Refused with 14 to 20.
pub(crate) fn read_at(doc: &[u8], at: usize) -> Result<Read, Refusal>
    requires { (at < length doc.now) × (is_silent doc.now at ≡ false) }
    ensures { Here (events_from doc.now at) doc.now at result }
{
    if !texts::starts_with(doc, at, b"<") {
        return read_text(doc, at);
    }
    if texts::starts_with(doc, at, b"</") {
        return read_close(doc, at);
    }
    read_open(doc, at)
}
