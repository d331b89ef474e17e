//! What is noted of a tag as it is read, and what one more attribute adds: its value, if the tag's
//! element looks its name up.
#![tactic(auto, using(crate::proofs::Laws::laws))]

ghost use Rattle.std.specs.Prelude.{◌≡◌, false, [], ◌+◌, ◌<◌, ◌^◌, length};
ghost use Rattle.texts.specs.Choice.{pick};
ghost use Rattle.texts.specs.Text.{piece};
ghost use Rattle.tags.specs.Names.{is_xmlns, local_name};
ghost use Rattle.tags.specs.Attributes.{raw_name};
ghost use Rattle.elements.specs.Keys.{Keys, keys, keys_of};
ghost use Rattle.tags.specs.internal.Noting.{found_at, noted_number, noted_name, noted_second, noted_encoding, no_notes, with_value, matches_of, NotedMore, NotedWith};
ghost use Rattle.tags.specs.internal.Known.{known_name, CodesOf, CodesFor, Apart, NamedAs, IsNamespace};

use crate::known::{Codes, PACKAGE};
use crate::part::RawAttribute;
use crate::scan::{is_xmlns_at, prefix_len};
use elements::Element;
use texts::Range;

/// What was noted of a tag: where the raw values lie that its element looks up, by what they become
/// in an item. For each, 1 + the position of its first byte, or 0 if there is no such attribute,
/// and its length.
///
/// Plain words, since they are copied for each attribute: padding beside an enum's tag, or a pair
/// that is loaded whole right after its halves were stored, would defeat store forwarding.
#[derive(Clone, Copy)]
pub struct Notes {
    number: usize,
    number_len: usize,
    name: usize,
    name_len: usize,
    second: usize,
    second_len: usize,
    encoding: usize,
    encoding_len: usize,
}

/// The range of a noted value; `None` if `at` is 0.
fn found(at: usize, len: usize) -> Option<Range>
    ensures { result ≡ found_at at len }
{
    if at == 0 {
        return None;
    }
    Some(Range { from: at - 1, len })
}

impl Notes {
    /// No value under any name.
    pub fn none() -> Notes
        ensures { result ≡ no_notes }
    {
        Notes {
            number: 0,
            number_len: 0,
            name: 0,
            name_len: 0,
            second: 0,
            second_len: 0,
            encoding: 0,
            encoding_len: 0,
        }
    }

    /// The value of id, or of a type's length.
    pub fn number(&self) -> Option<Range>
        ensures { result ≡ noted_number self.now }
    {
        found(self.number, self.number_len)
    }

    /// The value of name, or of a schema's package.
    pub fn name(&self) -> Option<Range>
        ensures { result ≡ noted_name self.now }
    {
        found(self.name, self.name_len)
    }

    /// The value of type, primitiveType or encodingType, or of a schema's version.
    pub fn second(&self) -> Option<Range>
        ensures { result ≡ noted_second self.now }
    {
        found(self.second, self.second_len)
    }

    /// The value of characterEncoding.
    pub fn encoding(&self) -> Option<Range>
        ensures { result ≡ noted_encoding self.now }
    {
        found(self.encoding, self.encoding_len)
    }
}

/// `this` if the attribute has the name in question, else `earlier`.
fn if_named(named: bool, this: usize, earlier: usize) -> usize
    ensures { result ≡ pick named this earlier }
{
    if named { this } else { earlier }
}

/// Which of the four names an attribute has.
#[derive(Clone, Copy)]
struct Matches {
    number: bool,
    name: bool,
    second: bool,
    encoding: bool,
}

/// Whether a local name is one of four, and which. Inlined, so that literals become comparisons with
/// constants.
#[inline(always)]
fn matches_of(local: &[u8], number: &[u8], name: &[u8], second: &[u8], encoding: &[u8]) -> Matches
    ensures { result ≡ matches_of local.now (keys number.now name.now second.now encoding.now) }
{
    Matches {
        number: texts::equal(local, number),
        name: texts::equal(local, name),
        second: texts::equal(local, second),
        encoding: texts::equal(local, encoding),
    }
}

/// The local name of a raw name.
fn local_at(doc: &[u8], raw: Range) -> &[u8]
    ensures { result.now ≡ local_name (piece doc.now raw.from raw.len) }
{
    let whole = texts::part(doc, raw.from, raw.len);
    let prefix = prefix_len(whole);
    texts::part(whole, prefix, raw.len)
}

/// Which of the names that this element looks up a raw name has, by its local name. Called, and
/// given neither notes nor a value: nearly every such name has none, and the notes stay where they
/// are.
#[inline(never)]
fn matches_in(doc: &[u8], raw: Range, element: Element) -> Matches
    ensures { result ≡ matches_of (local_name (piece doc.now raw.from raw.len)) (keys_of element) }
{
    let local = local_at(doc, raw);
    match element {
        Element::MessageSchema => matches_of(local, b"id", b"package", b"version", b""),
        Element::Type => matches_of(
            local,
            b"length",
            b"name",
            b"primitiveType",
            b"characterEncoding",
        ),
        Element::Enum => matches_of(local, b"", b"name", b"encodingType", b""),
        _ => matches_of(local, b"id", b"name", b"type", b""),
    }
}

/// The notes with one more value, under each name that it has.
fn with_value(named: Matches, value: Range, earlier: Notes) -> Notes
    requires { value.from < 2 ^ 63 }
    ensures { result ≡ with_value named value earlier }
{
    if !(named.number || named.name || named.second || named.encoding) {
        return earlier;
    }
    let at = value.from + 1;
    let len = value.len;
    Notes {
        number: if_named(named.number, at, earlier.number),
        number_len: if_named(named.number, len, earlier.number_len),
        name: if_named(named.name, at, earlier.name),
        name_len: if_named(named.name, len, earlier.name_len),
        second: if_named(named.second, at, earlier.second),
        second_len: if_named(named.second, len, earlier.second_len),
        encoding: if_named(named.encoding, at, earlier.encoding),
        encoding_len: if_named(named.encoding, len, earlier.encoding_len),
    }
}

/// The notes with one more attribute, for a look-up of one name, noted as the number. A namespace
/// declaration changes nothing.
pub fn noted_one(doc: &[u8], a: RawAttribute, name: &[u8], earlier: Notes) -> Notes
    requires { a.value.from < length doc.now }
    ensures { NotedWith doc.now a (keys name.now [] [] []) earlier result }
{
    if is_xmlns_at(doc, a.name.from, a.name.len) {
        return earlier;
    }
    let named = matches_of(local_at(doc, a.name), name, b"", b"", b"");
    with_value(named, a.value, earlier)
}

/// The notes with a known attribute. Each name returns by itself: the branch is predicted, and the
/// notes under the other names stay where they are.
fn noted_known(code: usize, codes: Codes, value: Range, earlier: Notes) -> Notes
    requires { (0 < code) × (code < 18) × (value.from < 2 ^ 63) × Apart codes }
    ensures { (k : Keys) → CodesOf k codes → NotedMore (known_name code) value k earlier result }
{
    // No element looks up a name of a later code.
    let past = PACKAGE < code;
    if past {
        return earlier;
    }
    let at = value.from + 1;
    let len = value.len;
    if code == codes.number {
        return Notes {
            number: at,
            number_len: len,
            ..earlier
        };
    }
    if code == codes.name {
        return Notes {
            name: at,
            name_len: len,
            ..earlier
        };
    }
    if code == codes.second {
        return Notes {
            second: at,
            second_len: len,
            ..earlier
        };
    }
    if code == codes.encoding {
        return Notes {
            encoding: at,
            encoding_len: len,
            ..earlier
        };
    }
    earlier
}

/// The notes with an attribute of any other name, in a tag of this element. It declares no
/// namespace.
fn noted_other(doc: &[u8], a: RawAttribute, element: Element, earlier: Notes) -> Notes
    requires { (a.value.from < length doc.now) × (is_xmlns (raw_name doc.now a) ≡ false) }
    ensures { NotedWith doc.now a (keys_of element) earlier result }
{
    with_value(matches_in(doc, a.name, element), a.value, earlier)
}

/// Whether an attribute declares a namespace; one with a code does not.
pub fn is_namespace(doc: &[u8], name: Range, code: Option<usize>) -> bool
    ensures { IsNamespace (piece doc.now name.from name.len) code result }
{
    match code {
        Some(_) => false,
        None => is_xmlns_at(doc, name.from, name.len),
    }
}

/// The notes with one more attribute, by its code or else its name. It declares no namespace.
pub fn noted_by(
    doc: &[u8],
    a: RawAttribute,
    code: Option<usize>,
    codes: Codes,
    element: Element,
    earlier: Notes,
) -> Notes
    requires value { (a.value.from < length doc.now) × CodesFor element codes }
    requires name { NamedAs (raw_name doc.now a) code × IsNamespace (raw_name doc.now a) code false }
    ensures { NotedWith doc.now a (keys_of element) earlier result }
{
    if let Some(known) = code {
        return noted_known(known, codes, a.value, earlier);
    }
    noted_other(doc, a, element, earlier)
}
