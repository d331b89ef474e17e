//! One part of a tag: an attribute, or the tag's end.
#![tactic(auto, using(crate::proofs::Laws::laws))]

ghost use Rattle.std.specs.Prelude.{◌≡◌, ◌+◌, ◌^◌, ◌≤◌, ◌<◌, length};
ghost use Rattle.tags.specs.Attributes.{valued, quoted_at, value_at, attribute_part_at, tag_part_at};
ghost use Rattle.tags.specs.internal.Known.{QuickAt};

use crate::known::known_at;
use crate::scan::{attribute_name_end, skip_space};
use refusals::Refusal;
use swar::byte_from;
use texts::Range;

/// An attribute: where its raw name and its raw value lie, and the position behind it.
#[derive(Clone, Copy)]
pub struct RawAttribute {
    pub name: Range,
    pub value: Range,
    pub next: usize,
}

/// One part of a tag: an attribute, or the tag's end. Neither is an error: a refusal is the `Err`
/// around it.
#[derive(Clone, Copy)]
pub enum TagPart {
    Attribute(RawAttribute),
    TagEnd(Ending),
}

/// How a tag ends, and the position behind its '>'.
#[derive(Clone, Copy)]
pub struct Ending {
    pub next: usize,
    pub self_closed: bool,
}

/// The attribute whose value runs from `from` to its closing quote, at `end`.
#[inline(always)]
fn valued(name: Range, from: usize, end: usize) -> TagPart
    requires { (from ≤ end) × (end < 2 ^ 63) }
    ensures { result ≡ valued name from end }
{
    TagPart::Attribute(RawAttribute {
        name,
        value: Range {
            from,
            len: end - from,
        },
        next: end + 1,
    })
}

/// The attribute whose value runs from `at` to the next `quote`. Refused (20) without one.
fn quoted_part(
    doc: &[u8],
    name: Range,
    at: usize,
    quote: u8,
    place: usize,
) -> Result<TagPart, Refusal>
    ensures { result ≡ quoted_at quote doc.now name at place }
{
    let end = byte_from(doc, at, quote);
    if doc.len() <= end {
        return Err(Refusal::OpenValue { offset: at, place });
    }
    Ok(valued(name, at, end))
}

/// As `quoted_part`; an empty value and one of a single byte need no search.
fn short_or_quoted(
    doc: &[u8],
    name: Range,
    at: usize,
    quote: u8,
    place: usize,
) -> Result<TagPart, Refusal>
    requires { at ≤ length doc.now }
    ensures { result ≡ quoted_at quote doc.now name at place }
{
    if at + 1 < doc.len() {
        if doc[at] == quote {
            return Ok(valued(name, at, at));
        }
        if doc[at + 1] == quote {
            return Ok(valued(name, at, at + 1));
        }
    }
    quoted_part(doc, name, at, quote, place)
}

/// As `quoted_part`, for a value whose opening quote is due at `at`. Refused with 19 or 20.
fn value_part(doc: &[u8], name: Range, at: usize, place: usize) -> Result<TagPart, Refusal>
    ensures { result ≡ value_at doc.now name at place }
{
    if texts::starts_with(doc, at, b"\"") {
        return short_or_quoted(doc, name, at + 1, b'"', place);
    }
    if texts::starts_with(doc, at, b"'") {
        return short_or_quoted(doc, name, at + 1, b'\'', place);
    }
    Err(Refusal::NoQuote { offset: at, place })
}

/// The attribute that is due at `at`: its name, '=' and its value. Refused with 17 to 20.
fn attribute_part(doc: &[u8], at: usize, place: usize) -> Result<TagPart, Refusal>
    ensures { result ≡ attribute_part_at doc.now at place }
{
    let end = attribute_name_end(doc, at);
    if end == at {
        return Err(Refusal::NoAttributeName { offset: at, place });
    }
    let equals = skip_space(doc, end);
    if !texts::starts_with(doc, equals, b"=") {
        return Err(Refusal::NoEquals {
            offset: equals,
            place,
        });
    }
    let value = skip_space(doc, equals + 1);
    let name = Range {
        from: at,
        len: end - at,
    };
    value_part(doc, name, value, place)
}

/// The part of a tag behind the spaces at `at`. Refusals (16 to 20) hold `place`, the tag's '<'.
pub fn tag_part(doc: &[u8], at: usize, place: usize) -> Result<TagPart, Refusal>
    ensures { result ≡ tag_part_at doc.now at place }
{
    let i = skip_space(doc, at);
    if doc.len() <= i {
        return Err(Refusal::OpenTag { offset: i, place });
    }
    if texts::starts_with(doc, i, b">") {
        return Ok(TagPart::TagEnd(Ending {
            next: i + 1,
            self_closed: false,
        }));
    }
    if texts::starts_with(doc, i, b"/>") {
        return Ok(TagPart::TagEnd(Ending {
            next: i + 2,
            self_closed: true,
        }));
    }
    attribute_part(doc, i, place)
}

/// A part of a tag, and the code of the attribute's name if it is known (specs/internal/Known.antt).
#[derive(Clone, Copy)]
pub struct Quick {
    pub code: Option<usize>,
    pub part: Result<TagPart, Refusal>,
}

/// The part of a tag at `at`. A known attribute behind one space takes the fast path.
pub fn quick_part(doc: &[u8], at: usize, place: usize) -> Quick
    ensures { QuickAt doc.now at place result }
{
    if texts::starts_with(doc, at, b" ") {
        let i = at + 1;
        if let Some(known) = known_at(doc, i) {
            let name = Range {
                from: i,
                len: known.skip - 3,
            };
            let value = at + known.skip;
            return Quick {
                code: Some(known.code),
                part: quoted_part(doc, name, value, b'"', place),
            };
        }
    }
    Quick {
        code: None,
        part: tag_part(doc, at, place),
    }
}
