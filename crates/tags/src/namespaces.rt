//! Skips attributes that declare a namespace (`xmlns`, `xmlns:..`). They add nothing to a tag and
//! often stand in rows. This loop makes neither parts nor notes of them, which halves the time.
#![tactic(auto, using(crate::proofs::Dropping::dropping))]

ghost use Rattle.std.specs.Prelude.{◌≡◌, ◌≤◌, ◌<◌, length};
ghost use Rattle.texts.specs.Scan.{scan};
ghost use Rattle.texts.specs.declared.Range.{Range};
ghost use Rattle.classes.specs.Class.{is_space};
ghost use Rattle.tags.specs.Attributes.{quoted_at, value_at};
ghost use Rattle.tags.specs.internal.Dropping.{Unchanged, next_of};

use crate::scan::{attribute_name_end, is_xmlns_at, skip_space};
use swar::byte_from;

/// The position past the value that starts at `from`, behind the next `quote`; `at` if there is
/// none. An empty value and one of a single byte need no search.
#[inline(always)]
fn past_quoted(doc: &[u8], at: usize, from: usize, quote: u8) -> usize
    requires { from ≤ length doc.now }
    ensures { (name : Range) → result ≡ next_of (quoted_at quote doc.now name from 0) at }
{
    if from + 1 < doc.len() {
        if doc[from] == quote {
            return from + 1;
        }
        if doc[from + 1] == quote {
            return from + 2;
        }
    }
    let end = byte_from(doc, from, quote);
    if end < doc.len() { end + 1 } else { at }
}

/// The position past the quoted value that is due at `from`; `at` if there is none.
fn past_value(doc: &[u8], at: usize, from: usize) -> usize
    ensures { (name : Range) → result ≡ next_of (value_at doc.now name from 0) at }
{
    if texts::starts_with(doc, from, b"\"") {
        return past_quoted(doc, at, from + 1, b'"');
    }
    if texts::starts_with(doc, from, b"'") {
        return past_quoted(doc, at, from + 1, b'\'');
    }
    at
}

/// Where the last of the spaces at `at` stands, behind which an attribute begins at `i`; `at` if
/// there is none. So that spaces which were passed are not passed again.
fn last_space(doc: &[u8], at: usize, i: usize) -> usize
    requires { (i ≡ scan is_space doc.now at) × (i < length doc.now) }
    ensures { Unchanged doc.now at result }
{
    if at < i { i - 1 } else { at }
}

/// The position past the attribute at `at` if it declares a namespace; else `at`, or the last space
/// before it. Gives `at` as well where fewer than 16 bytes are left: the general way reads those.
fn past_namespace(doc: &[u8], at: usize) -> usize
    ensures { Unchanged doc.now at result }
{
    let i = skip_space(doc, at);
    if doc.len() <= i {
        return at;
    }
    // With 16 bytes left, the calls that are inlined below need no test for room.
    if doc.len() < 16 || doc.len() - 16 < i {
        return at;
    }
    if doc[i] != b'x' {
        return last_space(doc, at, i);
    }
    let end = attribute_name_end(doc, i);
    if end == i {
        return at;
    }
    if !is_xmlns_at(doc, i, end - i) {
        return last_space(doc, at, i);
    }
    let equals = skip_space(doc, end);
    if !texts::starts_with(doc, equals, b"=") {
        return at;
    }
    past_value(doc, at, skip_space(doc, equals + 1))
}

/// The position past all namespace declarations at `at`, one after the other.
#[inline(never)]
fn past_row(doc: &[u8], at: usize) -> usize
    ensures { Unchanged doc.now at result }
{
    let mut i = at;
    // `loop`: each turn consumes an attribute.
    loop {
        let next = past_namespace(doc, i);
        if next == i {
            return i;
        }
        i = next;
    }
}

/// As `past_row`. A function of its own because the compiler keeps a slice in memory throughout a
/// function that passes it to a call, and otherwise that would be the hot loop over a tag.
pub fn past_namespaces(doc: &[u8], at: usize) -> usize
    ensures { Unchanged doc.now at result }
{
    past_row(doc, at)
}
