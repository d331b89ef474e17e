//! Attributes with well-known names. Nearly every attribute of a schema has one of seventeen names,
//! written `name="`: comparing one or two words of eight bytes finds it, with no scan for the
//! name's end or a colon and no comparison with the names that matter.
//!
//! A text to compare is given by little-endian integers: `front` is its first eight bytes or fewer,
//! `back` those behind them, and `modulus` is 256 to the number of bytes in the last of the two.
//! They are parameters, not a struct: constants at each call. The caller tests once, for all names,
//! that sixteen bytes are there.
#![tactic(auto, unfolding(swar::specs::Word::word_of), using(crate::proofs::Laws::matching))]

ghost use Rattle.std.specs.Prelude.{◌≡◌, ◌+◌, ◌≤◌, length};
ghost use Rattle.elements.specs.Keys.{keys_of};
ghost use Rattle.tags.specs.internal.Known.{KnownAt, CodesOf, Apart, KnownShort, KnownLong, KnownText};

use elements::Element;
use swar::{stands_long, stands_short};

const NAME: usize = 1;

const ID: usize = 2;

const TYPE: usize = 3;

const LENGTH: usize = 4;

const PRIMITIVE_TYPE: usize = 5;

const ENCODING_TYPE: usize = 6;

const CHARACTER_ENCODING: usize = 7;

const VERSION: usize = 8;

/// The last code of a name that some element looks up.
pub const PACKAGE: usize = 9;

/// A known attribute: the code of its name (specs/internal/Known.antt), and how far its value is from the
/// space before the name, which is the name's length and 3: one addition finds the value. The code
/// is a number, not an enum, since the proofs compute over all codes.
#[derive(Clone, Copy)]
pub struct Known {
    pub code: usize,
    pub skip: usize,
}

/// The codes of the four names that an element looks up, 0 for none. Numbers, not options, which
/// would take two comparisons for each attribute.
#[derive(Clone, Copy)]
pub struct Codes {
    pub number: usize,
    pub name: usize,
    pub second: usize,
    pub encoding: usize,
}

/// The codes of the names that this element looks up.
pub fn codes_of(element: Element) -> Codes
    ensures are { CodesOf (keys_of element) result }
    ensures apart { Apart result }
{
    match element {
        Element::MessageSchema => Codes {
            number: ID,
            name: PACKAGE,
            second: VERSION,
            encoding: 0,
        },
        Element::Type => Codes {
            number: LENGTH,
            name: NAME,
            second: PRIMITIVE_TYPE,
            encoding: CHARACTER_ENCODING,
        },
        Element::Enum => Codes {
            number: 0,
            name: NAME,
            second: ENCODING_TYPE,
            encoding: 0,
        },
        _ => Codes {
            number: ID,
            name: NAME,
            second: TYPE,
            encoding: 0,
        },
    }
}

/// The attribute of this code, if its text of less than eight bytes (name, '=' and '"') stands at
/// `at`; `skip` is the name's length and 3.
fn known_short(
    doc: &[u8],
    at: usize,
    code: usize,
    skip: usize,
    modulus: u64,
    front: u64,
) -> Option<Known>
    requires { (at + 8 ≤ length doc.now) × KnownShort code skip modulus front }
    ensures { KnownAt doc.now at result }
{
    if stands_short(doc, at, modulus, front) {
        Some(Known { code, skip })
    } else {
        None
    }
}

/// As `known_short`, for a text of 8 to 15 bytes.
fn known_long(
    doc: &[u8],
    at: usize,
    code: usize,
    skip: usize,
    front: u64,
    modulus: u64,
    back: u64,
) -> Option<Known>
    requires { (at + 16 ≤ length doc.now) × KnownLong code skip front modulus back }
    ensures { KnownAt doc.now at result }
{
    if stands_long(doc, at, front, modulus, back) {
        Some(Known { code, skip })
    } else {
        None
    }
}

/// As `known_short`, for the two texts that are longer than two words.
fn known_text(doc: &[u8], at: usize, code: usize, skip: usize, text: &[u8]) -> Option<Known>
    requires { KnownText code skip text.now }
    ensures { KnownAt doc.now at result }
{
    if texts::starts_with(doc, at, text) {
        Some(Known { code, skip })
    } else {
        None
    }
}

/// The known attribute at `at`, by those that begin with 'p': primitiveType, presence, package.
fn known_p(doc: &[u8], at: usize) -> Option<Known>
    requires { at + 16 ≤ length doc.now }
    ensures { KnownAt doc.now at result }
{
    let first = known_long(
        doc,
        at,
        PRIMITIVE_TYPE,
        16,
        0x7669_7469_6d69_7270,
        0x100_0000_0000_0000,
        0x22_3d65_7079_5465,
    );
    if first.is_some() {
        return first;
    }
    let second = known_long(doc, at, 14, 11, 0x6563_6e65_7365_7270, 0x1_0000, 0x223d);
    if second.is_some() {
        return second;
    }
    known_long(doc, at, PACKAGE, 10, 0x3d65_6761_6b63_6170, 0x100, 0x22)
}

/// By those that begin with 's': semanticType, sinceVersion, semanticVersion.
fn known_s(doc: &[u8], at: usize) -> Option<Known>
    requires { at + 16 ≤ length doc.now }
    ensures { KnownAt doc.now at result }
{
    let first = known_long(
        doc,
        at,
        11,
        15,
        0x6369_746e_616d_6573,
        0x1_0000_0000_0000,
        0x223d_6570_7954,
    );
    if first.is_some() {
        return first;
    }
    let second = known_long(
        doc,
        at,
        15,
        15,
        0x7265_5665_636e_6973,
        0x1_0000_0000_0000,
        0x223d_6e6f_6973,
    );
    if second.is_some() {
        return second;
    }
    known_text(doc, at, 17, 18, b"semanticVersion=\"")
}

/// By those that begin with 'b': blockLength, byteOrder.
fn known_b(doc: &[u8], at: usize) -> Option<Known>
    requires { at + 16 ≤ length doc.now }
    ensures { KnownAt doc.now at result }
{
    let first = known_long(
        doc,
        at,
        13,
        14,
        0x6e65_4c6b_636f_6c62,
        0x100_0000_0000,
        0x22_3d68_7467,
    );
    if first.is_some() {
        return first;
    }
    known_long(
        doc,
        at,
        16,
        12,
        0x6564_724f_6574_7962,
        0x100_0000,
        0x22_3d72,
    )
}

/// The known attribute at `at`, by its first letter. The integers hold name, '=' and '"'.
fn known_by(doc: &[u8], at: usize) -> Option<Known>
    requires { at + 16 ≤ length doc.now }
    ensures { KnownAt doc.now at result }
{
    match doc[at] {
        b'n' => known_short(doc, at, NAME, 7, 0x1_0000_0000_0000, 0x223d_656d_616e),
        b'i' => known_short(doc, at, ID, 5, 0x1_0000_0000, 0x223d_6469),
        b't' => known_short(doc, at, TYPE, 7, 0x1_0000_0000_0000, 0x223d_6570_7974),
        b'd' => known_long(
            doc,
            at,
            10,
            14,
            0x7470_6972_6373_6564,
            0x100_0000_0000,
            0x22_3d6e_6f69,
        ),
        b'p' => known_p(doc, at),
        b's' => known_s(doc, at),
        b'o' => known_long(doc, at, 12, 9, 0x223d_7465_7366_666f, 1, 0),
        b'l' => known_long(doc, at, LENGTH, 9, 0x223d_6874_676e_656c, 1, 0),
        b'e' => known_long(
            doc,
            at,
            ENCODING_TYPE,
            15,
            0x676e_6964_6f63_6e65,
            0x1_0000_0000_0000,
            0x223d_6570_7954,
        ),
        b'b' => known_b(doc, at),
        b'c' => known_text(doc, at, CHARACTER_ENCODING, 20, b"characterEncoding=\""),
        b'v' => known_long(doc, at, VERSION, 10, 0x3d6e_6f69_7372_6576, 0x100, 0x22),
        _ => None,
    }
}

/// The known attribute at `at`. Always `None` in the last 15 bytes, which two words do not fit.
pub fn known_at(doc: &[u8], at: usize) -> Option<Known>
    requires { at ≤ length doc.now }
    ensures { KnownAt doc.now at result }
{
    if at + 16 <= doc.len() {
        return known_by(doc, at);
    }
    None
}
