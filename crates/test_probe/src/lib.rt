//! For tests alone: the events of a document, and its model (dump.rt), as bytes by which two
//! readers can be compared. The contracts promise safety and termination, and no more.
//!
//! `events` writes a list of marks, each with a text behind it. A document is ASCII, so no text
//! holds a mark:
//!
//!     0x80 text, decoded         0x81 local name of an open tag
//!     0x82 local name, 0x83 decoded value: an attribute; each name once, in byte order
//!     0x84 local name of a close
//!
//! The value is the one that `tags::tag::attribute` finds under the name.
#![tactic(auto)]

pub mod dump;

use entities::decode;
use printing::Output;
use refusals::Refusal;
use saxlite::event::Event;
use saxlite::reader::Reader;
use tags::part::{TagPart, tag_part};
use tags::scan::{is_xmlns, prefix_len};
use tags::tag::attribute;
use texts::{Range, part};

const TEXT: u8 = 0x80;

const OPEN: u8 = 0x81;

const NAME: u8 = 0x82;

const VALUE: u8 = 0x83;

const CLOSE: u8 = 0x84;

/// How many bytes the events take, and the refusal that reading ended in.
#[derive(Clone, Copy)]
pub struct Reading {
    pub n: usize,
    pub refusal: Option<Refusal>,
}

/// How many bytes were written; 3 where the output is too short for them.
fn finished(out: &Output<'_>) -> Result<usize, Refusal> {
    if out.bytes.len() < out.at {
        return Err(Refusal::NoRoom);
    }
    Ok(out.at)
}

// ---- attributes, in byte order of their names

/// A name without its prefix.
fn local(doc: &[u8], name: Range) -> &[u8] {
    let whole = part(doc, name.from, name.len);
    part(whole, prefix_len(whole), name.len)
}

/// Whether the local name of `a` is less than that of `b`, in byte order; true where one of them is
/// missing.
fn precedes(doc: &[u8], a: Option<Range>, b: Option<Range>) -> bool {
    match (a, b) {
        (Some(a), Some(b)) => local(doc, a) < local(doc, b),
        _ => true,
    }
}

/// The lesser of `best` and `this`. `this` counts only if it is greater than `last` and declares no
/// namespace.
fn least(doc: &[u8], last: Option<Range>, best: Option<Range>, this: Range) -> Option<Range> {
    if is_xmlns(part(doc, this.from, this.len)) {
        return best;
    }
    if precedes(doc, last, Some(this)) && precedes(doc, Some(this), best) {
        return Some(this);
    }
    best
}

/// The least name greater than `last` in the tag whose attributes begin at `at`.
fn name_after(doc: &[u8], at: usize, last: Option<Range>) -> Option<Range> {
    let mut best = None;
    let mut i = at;
    // An attribute takes at least one byte, so `doc.len()` turns suffice.
    for _ in 0..doc.len() {
        let Ok(TagPart::Attribute(a)) = tag_part(doc, i, 0) else {
            return best;
        };
        best = least(doc, last, best, a.name);
        i = a.next;
    }
    best
}

// ---- events

/// Writes a piece of the document, decoded. Where the raw bytes do not fit, the output is too short
/// in any case, and they are counted.
fn write_decoded(out: &mut Output<'_>, doc: &[u8], from: usize, len: usize) {
    match decode(doc, from, len, out.bytes, out.at) {
        Some(n) => out.skip(n),
        None => out.text(part(doc, from, len)),
    }
}

fn write_name(out: &mut Output<'_>, mark: u8, name: &[u8]) {
    out.byte(mark);
    out.text(name);
}

/// Writes a mark and a piece of the document, decoded.
fn write_text(out: &mut Output<'_>, doc: &[u8], mark: u8, text: Range) {
    out.byte(mark);
    write_decoded(out, doc, text.from, text.len);
}

/// Writes an attribute: its name, and the value that the look-up finds.
fn write_attribute(out: &mut Output<'_>, doc: &[u8], attributes: usize, name: &[u8]) {
    write_name(out, NAME, name);
    if let Some(value) = attribute(doc, attributes, name) {
        write_text(out, doc, VALUE, value);
    }
}

fn write_attributes(out: &mut Output<'_>, doc: &[u8], attributes: usize) {
    let mut last = None;
    // A name takes at least one byte, so `doc.len()` turns suffice.
    for _ in 0..doc.len() {
        let Some(name) = name_after(doc, attributes, last) else {
            return;
        };
        write_attribute(out, doc, attributes, local(doc, name));
        last = Some(name);
    }
}

fn write_event(out: &mut Output<'_>, doc: &[u8], event: Event) {
    match event {
        Event::Text(text) => write_text(out, doc, TEXT, text),
        Event::Open {
            name,
            attributes,
            next: _,
        } => {
            write_name(out, OPEN, part(doc, name.from, name.len));
            write_attributes(out, doc, attributes);
        }
        Event::Close { name } => write_name(out, CLOSE, part(doc, name.from, name.len)),
    }
}

/// Writes the events up to the end of the document or a refusal.
fn write_events(out: &mut Output<'_>, doc: &[u8]) -> Result<(), Refusal> {
    let mut reader = Reader::new(doc);
    // There are never more events than bytes: a self-closed tag gives two, and takes four bytes.
    for _ in 0..doc.len() {
        let Some(told) = reader.next()? else {
            return Ok(());
        };
        write_event(out, doc, told.event);
    }
    Ok(())
}

/// Reads a whole document. At a refusal `n` counts the events before it; at the end of the document
/// an output that is too short is refusal 3, with `n` 0.
fn read_all(doc: &[u8], out: &mut Output<'_>) -> Reading {
    if let Err(r) = write_events(out, doc) {
        return Reading {
            n: out.at,
            refusal: Some(r),
        };
    }
    let answer = finished(out);
    Reading {
        n: answer.unwrap_or(0),
        refusal: answer.err(),
    }
}

/// The events of a document, up to the end or a refusal. A byte of 128 or more is refused before
/// anything is read.
pub fn events(document: &[u8], output: &mut [u8]) -> Reading {
    let at = texts::ascii_end(document);
    if at < document.len() {
        return Reading {
            n: 0,
            refusal: Some(Refusal::NotAscii { at }),
        };
    }
    read_all(document, &mut Output::new(output))
}
