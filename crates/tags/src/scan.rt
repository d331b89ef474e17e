//! Scans and searches over the document. A scan that nothing stops gives the document's length, one
//! from past the end gives where it began.
#![tactic(auto, using(crate::proofs::Laws::laws))]

ghost use Rattle.std.specs.Prelude.{◌≡◌, ◌-◌, ◌≤◌, length};
ghost use Rattle.texts.specs.Text.{piece};
ghost use Rattle.texts.specs.Scan.{scan, until};
ghost use Rattle.classes.specs.Table.{is_name_stop};
ghost use Rattle.classes.specs.Class.{is_space, is_tag_name_end, is_attribute_name_end};
ghost use Rattle.tags.specs.Find.{find_from};
ghost use Rattle.tags.specs.Names.{prefix_length, is_xmlns};

use classes::{is_attribute_name_end, is_name_stop, is_space, is_tag_name_end};
use swar::{byte_from, stands_short};
use texts::scan::{ByteTest, scan_eights, scan_fours};

/// Passes spaces.
#[derive(Clone, Copy)]
struct Spaces;

impl ByteTest for Spaces {
    ghost test = { is_space };

    fn passes(&self, b: u8) -> bool {
        is_space(b)
    }
}

/// Passes what does not end a tag's name.
#[derive(Clone, Copy)]
struct TagNames;

impl ByteTest for TagNames {
    ghost test = { until is_tag_name_end };

    fn passes(&self, b: u8) -> bool {
        !is_tag_name_end(b)
    }
}

/// Passes what neither ends a tag's name nor is a colon.
#[derive(Clone, Copy)]
struct NameParts;

impl ByteTest for NameParts {
    ghost test = { until is_name_stop };

    fn passes(&self, b: u8) -> bool {
        !is_name_stop(b)
    }
}

/// Passes what does not end an attribute's name.
#[derive(Clone, Copy)]
struct AttributeNames;

impl ByteTest for AttributeNames {
    ghost test = { until is_attribute_name_end };

    fn passes(&self, b: u8) -> bool {
        !is_attribute_name_end(b)
    }
}

/// How many bytes of a name `scan_short` tests one by one.
const SHORT: usize = 8;

/// As `scan_eights`, for names, which are mostly short: each of the first bytes has its own return,
/// a branch that the processor predicts. What a longer name has behind them is scanned by eights.
fn scan_short<T: ByteTest>(s: &[u8], from: usize, by: &T) -> usize
    ensures { result ≡ scan T.test s.now from }
{
    if s.len() < SHORT || s.len() - SHORT < from {
        return scan_eights(s, from, by);
    }
    for k in 0..SHORT {
        if !by.passes(s[from + k]) {
            return from + k;
        }
    }
    scan_eights(s, from + SHORT, by)
}

/// The position past the spaces at `at`. The usual, none or one, takes a comparison or two.
#[inline(always)]
pub fn skip_space(doc: &[u8], at: usize) -> usize
    ensures { result ≡ scan is_space doc.now at }
{
    if doc.len() <= at {
        return at;
    }
    if is_space(doc[at]) {
        let i = at + 1;
        if i < doc.len() {
            if !is_space(doc[i]) {
                return i;
            }
        }
        return scan_fours(doc, i, &Spaces);
    }
    at
}

/// Where the tag name at `at` ends.
pub fn tag_name_end(doc: &[u8], at: usize) -> usize
    ensures { result ≡ scan (until is_tag_name_end) doc.now at }
{
    scan_short(doc, at, &TagNames)
}

/// Where the raw name at `at` ends, or where its first colon stands. By eights from the first byte
/// on: few tags get here, and the loop that reads tags is smaller so.
fn name_stop(doc: &[u8], at: usize) -> usize
    ensures { result ≡ scan (until is_name_stop) doc.now at }
{
    scan_eights(doc, at, &NameParts)
}

/// A raw name: where it ends, and the length of its prefix with the colon (0 without a colon).
#[derive(Clone, Copy)]
pub struct Raw {
    pub end: usize,
    pub prefix: usize,
}

/// The raw name at `at`. One pass finds its end and its colon, so that even a name as long as the
/// document is scanned once.
#[tactic(auto, using(crate::proofs::Laws::stopping))]
pub fn raw_name(doc: &[u8], at: usize) -> Raw
    requires { at ≤ length doc.now }
    ensures end { result.end ≡ scan (until is_tag_name_end) doc.now at }
    ensures prefix { result.prefix ≡ prefix_length (piece doc.now at (result.end - at)) }
{
    let stop = name_stop(doc, at);
    if stop < doc.len() {
        if doc[stop] == b':' {
            let end = tag_name_end(doc, stop);
            let prefix = stop - at + 1;
            return Raw { end, prefix };
        }
    }
    Raw {
        end: stop,
        prefix: 0,
    }
}

/// Where the attribute name at `at` ends. "xmlns" is compared as one word, and with '=' behind it
/// needs no scan. Each case returns by itself: a branch is predicted, while a select between two
/// positions would have to be waited for.
#[tactic(auto, using(crate::proofs::Declaring::declaring))]
#[inline(always)]
pub fn attribute_name_end(doc: &[u8], at: usize) -> usize
    ensures { result ≡ scan (until is_attribute_name_end) doc.now at }
{
    if doc.len() < 8 || doc.len() - 8 < at {
        return scan_short(doc, at, &AttributeNames);
    }
    if stands_short(doc, at, 0x100_0000_0000, 0x73_6e6c_6d78) {
        // `xmlns=` whole, a known text; any other byte's class is looked up.
        if doc[at + 5] == b'=' {
            return at + 5;
        }
        return scan_short(doc, at + 5, &AttributeNames);
    }
    scan_short(doc, at, &AttributeNames)
}

/// The first position from `from` on where `needle` stands; `None` if there is none.
pub fn find(doc: &[u8], from: usize, needle: &[u8]) -> Option<usize>
    ensures { result ≡ find_from needle.now doc.now from }
{
    for i in from..doc.len() {
        if texts::starts_with(doc, i, needle) {
            return Some(i);
        }
    }
    let end = from.max(doc.len());
    if texts::starts_with(doc, end, needle) {
        Some(end)
    } else {
        None
    }
}

/// The length of a name's prefix, up to and including its first colon; 0 without a colon.
pub fn prefix_len(name: &[u8]) -> usize
    ensures { result ≡ prefix_length name.now }
{
    let colon = byte_from(name, 0, b':');
    if colon < name.len() { colon + 1 } else { 0 }
}

/// Whether a raw name declares a namespace: "xmlns", or any that begins with "xmlns:".
pub fn is_xmlns(name: &[u8]) -> bool
    ensures { result ≡ is_xmlns name.now }
{
    if texts::equal(name, b"xmlns") {
        return true;
    }
    texts::starts_with(name, 0, b"xmlns:")
}

/// Whether the raw name of `n` bytes at `raw` declares a namespace: by one comparison of a word
/// where eight bytes are left.
#[tactic(auto, using(crate::proofs::Declaring::declaring))]
#[inline(always)]
pub fn is_xmlns_at(doc: &[u8], raw: usize, n: usize) -> bool
    ensures { result ≡ is_xmlns (piece doc.now raw n) }
{
    if n < 5 {
        return false;
    }
    if doc.len() < 8 || doc.len() - 8 < raw {
        return is_xmlns(texts::part(doc, raw, n));
    }
    if stands_short(doc, raw, 0x100_0000_0000, 0x73_6e6c_6d78) {
        if n == 5 {
            return true;
        }
        return doc[raw + 5] == b':';
    }
    false
}
