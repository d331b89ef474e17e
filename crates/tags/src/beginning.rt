//! Where a tag begins: its raw name, its prefix, and its element. Nearly every tag of a schema has
//! one of eleven raw names, with a space behind it, or '>' where it closes: comparing one or two
//! words of eight bytes finds it. Any other raw name is scanned.
//!
//! As in `known`, a text to compare is given by integers, and callers test for sixteen bytes.
#![tactic(auto, unfolding(swar::specs::Word::word_of, elements::specs::Elements::element_of, elements::specs::Elements::other_element_of, crate::specs::Names::prefix_length, texts::specs::Text::same, texts::specs::Lists::all, classes::specs::Class::is_tag_name_end, classes::specs::Class::is_space), using(crate::proofs::Laws::beginning))]

ghost use Rattle.std.specs.Prelude.{◌≡◌, ◌+◌, ◌≤◌, length};
ghost use Rattle.tags.specs.internal.Beginning.{UsualAt, UsualShort, UsualLong, Prefixed, BeginsAt};

use crate::scan::raw_name;
use elements::Element::{
    Composite, Enum, Field, Group, Message, MessageSchema, Other, Ref, Type, ValidValue,
};
use elements::{Element, element_of};
use swar::{stands_long, stands_short};

/// A usual raw name: its element, its length, and that of its prefix.
#[derive(Clone, Copy)]
pub struct UsualName {
    pub element: Element,
    pub len: usize,
    pub prefix: usize,
}

/// The beginning of a tag: where its raw name ends, the length of its prefix, and the element.
#[derive(Clone, Copy)]
pub struct Beginning {
    pub end: usize,
    pub prefix: usize,
    pub element: Element,
}

/// The usual raw name of this element, if it stands at `at` with `behind` behind it: less than eight
/// bytes. The integers hold `behind` too; as a parameter it serves the contract alone.
fn usual_short(
    doc: &[u8],
    at: usize,
    behind: u8,
    element: Element,
    len: usize,
    modulus: u64,
    front: u64,
) -> Option<UsualName>
    requires { (at + 8 ≤ length doc.now) × UsualShort behind element len modulus front }
    ensures { UsualAt behind doc.now at result }
{
    if stands_short(doc, at, modulus, front) {
        Some(UsualName {
            element,
            len,
            prefix: 0,
        })
    } else {
        None
    }
}

/// As `usual_short`, for a text of 8 to 15 bytes.
fn usual_long(
    doc: &[u8],
    at: usize,
    behind: u8,
    element: Element,
    len: usize,
    prefix: usize,
    front: u64,
    modulus: u64,
    back: u64,
) -> Option<UsualName>
    requires { (at + 16 ≤ length doc.now) × UsualLong behind element len prefix front modulus back }
    ensures { UsualAt behind doc.now at result }
{
    if stands_long(doc, at, front, modulus, back) {
        Some(UsualName {
            element,
            len,
            prefix,
        })
    } else {
        None
    }
}

/// One of the two raw names with a prefix, if it stands at `at` with `behind` behind it:
/// "sbe:message", whose last bytes and `behind` are `back`, or "sbe:messageSchema", longer than two
/// words, which with `behind` is `schema`.
fn prefixed_at(doc: &[u8], at: usize, behind: u8, back: u64, schema: &[u8]) -> Option<UsualName>
    requires { (at + 16 ≤ length doc.now) × Prefixed behind back schema.now }
    ensures { UsualAt behind doc.now at result }
{
    let message = usual_long(
        doc,
        at,
        behind,
        Message,
        11,
        4,
        0x7373_656d_3a65_6273,
        0x1_0000_0000,
        back,
    );
    if message.is_some() {
        return message;
    }
    if texts::starts_with(doc, at, schema) {
        Some(UsualName {
            element: MessageSchema,
            len: 17,
            prefix: 4,
        })
    } else {
        None
    }
}

/// The usual raw name at `at` with a space behind it, by its first letter.
fn opening_by(doc: &[u8], at: usize) -> Option<UsualName>
    requires { at + 16 ≤ length doc.now }
    ensures { UsualAt 32 doc.now at result }
{
    match doc[at] {
        // "field ", "type ", "enum ", "group ", "ref "
        b'f' => usual_short(
            doc,
            at,
            b' ',
            Field,
            5,
            0x1_0000_0000_0000,
            0x2064_6c65_6966,
        ),
        b't' => usual_short(doc, at, b' ', Type, 4, 0x100_0000_0000, 0x20_6570_7974),
        b'e' => usual_short(doc, at, b' ', Enum, 4, 0x100_0000_0000, 0x20_6d75_6e65),
        b'g' => usual_short(
            doc,
            at,
            b' ',
            Group,
            5,
            0x1_0000_0000_0000,
            0x2070_756f_7267,
        ),
        b'r' => usual_short(doc, at, b' ', Ref, 3, 0x1_0000_0000, 0x2066_6572),
        // "validValue ", "composite ", "message "; "sbe:message ", "sbe:messageSchema "
        b'v' => usual_long(
            doc,
            at,
            b' ',
            ValidValue,
            10,
            0,
            0x6c61_5664_696c_6176,
            0x100_0000,
            0x20_6575,
        ),
        b'c' => usual_long(
            doc,
            at,
            b' ',
            Composite,
            9,
            0,
            0x7469_736f_706d_6f63,
            0x1_0000,
            0x2065,
        ),
        b's' => prefixed_at(doc, at, b' ', 0x2065_6761, b"sbe:messageSchema "),
        b'm' => usual_long(doc, at, b' ', Message, 7, 0, 0x2065_6761_7373_656d, 1, 0),
        _ => None,
    }
}

/// The usual raw name at `at` with a space behind it. Always `None` in the last 15 bytes.
fn opening_at(doc: &[u8], at: usize) -> Option<UsualName>
    ensures { UsualAt 32 doc.now at result }
{
    if doc.len() < 16 || doc.len() - 16 < at {
        return None;
    }
    opening_by(doc, at)
}

/// The beginning of the tag whose raw name is due at `name`.
pub fn begin_at(doc: &[u8], name: usize) -> Beginning
    requires { name ≤ length doc.now }
    ensures { BeginsAt doc.now name result }
{
    if let Some(usual) = opening_at(doc, name) {
        return Beginning {
            end: name + usual.len,
            prefix: usual.prefix,
            element: usual.element,
        };
    }
    // "types>": nearly every schema has this tag, without attributes.
    if name + 8 <= doc.len() {
        if let Some(types) = usual_short(
            doc,
            name,
            b'>',
            Other,
            5,
            0x1_0000_0000_0000,
            0x3e73_6570_7974,
        ) {
            return Beginning {
                end: name + types.len,
                prefix: types.prefix,
                element: types.element,
            };
        }
    }
    let raw = raw_name(doc, name);
    let n = raw.end - name;
    let local = texts::part(doc, name + raw.prefix, n - raw.prefix);
    Beginning {
        end: raw.end,
        prefix: raw.prefix,
        element: element_of(local),
    }
}

/// The usual raw name at `at` with '>' behind it, by its first letter.
fn closing_by(doc: &[u8], at: usize) -> Option<UsualName>
    requires { at + 16 ≤ length doc.now }
    ensures { UsualAt 62 doc.now at result }
{
    match doc[at] {
        // "types>", "enum>", "group>"
        b't' => usual_short(
            doc,
            at,
            b'>',
            Other,
            5,
            0x1_0000_0000_0000,
            0x3e73_6570_7974,
        ),
        b'e' => usual_short(doc, at, b'>', Enum, 4, 0x100_0000_0000, 0x3e_6d75_6e65),
        b'g' => usual_short(
            doc,
            at,
            b'>',
            Group,
            5,
            0x1_0000_0000_0000,
            0x3e70_756f_7267,
        ),
        // "validValue>", "composite>", "message>"; "sbe:message>", "sbe:messageSchema>"
        b'v' => usual_long(
            doc,
            at,
            b'>',
            ValidValue,
            10,
            0,
            0x6c61_5664_696c_6176,
            0x100_0000,
            0x3e_6575,
        ),
        b'c' => usual_long(
            doc,
            at,
            b'>',
            Composite,
            9,
            0,
            0x7469_736f_706d_6f63,
            0x1_0000,
            0x3e65,
        ),
        b's' => prefixed_at(doc, at, b'>', 0x3e65_6761, b"sbe:messageSchema>"),
        b'm' => usual_long(doc, at, b'>', Message, 7, 0, 0x3e65_6761_7373_656d, 1, 0),
        _ => None,
    }
}

/// The usual raw name at `at` with '>' behind it. Always `None` in the last 15 bytes. One function
/// for this and `opening_at` would have two callers, which takes 3 % more instructions.
pub fn closing_at(doc: &[u8], at: usize) -> Option<UsualName>
    ensures { UsualAt 62 doc.now at result }
{
    if doc.len() < 16 || doc.len() - 16 < at {
        return None;
    }
    closing_by(doc, at)
}
