//! The model of a document as bytes, read through the view alone. A document is ASCII, so no text
//! holds a mark:
//!
//!     0x80 package, 0x8a id, 0x8b version
//!     0x80 + kind of an item, its name, 0x8c its second text, 0x8d its number,
//!     0x8e whether a length is given (1 or 0), 0x8f its encoding
//!
//! Types come first, then composites, enums and messages, each kind in the order of the document.
//! Behind each item stands what it holds: members, refs, values, fields, then groups, each with its
//! fields. A refusal writes nothing.
use crate::{finished, write_name};
use model::view::View;
use model::{COMPOSITE, ENUM, FIELD, GROUP, MEMBER, MESSAGE, REF, TYPE, VALUE};
use printing::Output;
use refusals::Refusal;
use xmlschema::build::read_schema;

const PACKAGE: u8 = 0x80;

const ID: u8 = 0x8a;

const VERSION: u8 = 0x8b;

const SECOND: u8 = 0x8c;

const NUMBER: u8 = 0x8d;

const GIVEN: u8 = 0x8e;

const ENCODING: u8 = 0x8f;

/// Writes a mark and a number in decimal.
fn write_number(out: &mut Output<'_>, mark: u8, n: u32) {
    out.byte(mark);
    out.decimal(n);
}

fn mark_of(kind: u32) -> u8 {
    match kind {
        TYPE => 0x81,
        MEMBER => 0x82,
        REF => 0x83,
        COMPOSITE => 0x84,
        ENUM => 0x85,
        VALUE => 0x86,
        MESSAGE => 0x87,
        GROUP => 0x88,
        FIELD => 0x89,
        _ => 0xff,
    }
}

fn write_item(out: &mut Output<'_>, v: &View<'_>, i: u32) {
    write_name(out, mark_of(v.kind(i)), v.name(i));
    write_name(out, SECOND, v.second(i));
    write_number(out, NUMBER, v.number(i));
    write_number(out, GIVEN, v.given(i) as u32);
    write_name(out, ENCODING, v.encoding(i));
}

/// Writes the items of a kind that `owner` holds.
fn write_under(out: &mut Output<'_>, v: &View<'_>, kind: u32, owner: u32) {
    for i in v.under(kind, owner) {
        write_item(out, v, i);
    }
}

/// Writes the groups of a message, each with its fields.
fn write_groups(out: &mut Output<'_>, v: &View<'_>, owner: u32) {
    for i in v.under(GROUP, owner) {
        write_item(out, v, i);
        write_under(out, v, FIELD, i);
    }
}

/// Writes an item and all that it holds.
fn write_whole(out: &mut Output<'_>, v: &View<'_>, i: u32) {
    write_item(out, v, i);
    write_under(out, v, MEMBER, i);
    write_under(out, v, REF, i);
    write_under(out, v, VALUE, i);
    write_under(out, v, FIELD, i);
    write_groups(out, v, i);
}

/// Writes all items of a kind, each with all that it holds.
fn write_all(out: &mut Output<'_>, v: &View<'_>, kind: u32) {
    for i in v.all_of(kind) {
        write_whole(out, v, i);
    }
}

fn write_model(out: &mut Output<'_>, v: &View<'_>) {
    write_name(out, PACKAGE, v.package());
    write_number(out, ID, v.id());
    write_number(out, VERSION, v.version());
    write_all(out, v, TYPE);
    write_all(out, v, COMPOSITE);
    write_all(out, v, ENUM);
    write_all(out, v, MESSAGE);
}

/// The model of a document: how many bytes were written, or its refusal; 3 where the output is too
/// short.
pub fn schema(
    document: &[u8],
    records: &mut [u32],
    text: &mut [u8],
    output: &mut [u8],
) -> Result<usize, Refusal> {
    let m = read_schema(document, records, text)?;
    let mut out = Output::new(output);
    write_model(&mut out, &View::new(m, records, text));
    finished(&out)
}
