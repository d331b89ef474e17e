//! Skips markup that is no event: comments, instructions and declarations.
//!
//! Rows of one kind are skipped by a hot loop each, which works while 32 bytes are left, and any
//! other piece by `past_piece`, which refuses one without an end.
#![tactic(auto, using(crate::proofs::Finding::finding, crate::proofs::Silence::passing))]

ghost use Rattle.std.specs.Prelude.{◌≡◌, true, ◌+◌, ◌≤◌, length};
ghost use Rattle.texts.specs.Text.{ascii};
ghost use Rattle.saxlite.specs.internal.Passing.{Passed, PassedSome, PassedAll, is_silent, Stands, EndPassed};

use crate::ends::{
    CommentEnd, DeclarationEnd, InstructionEnd, MarkupEnd, bracket_from, comment_end,
    instruction_end, pair_stands,
};
use refusals::Refusal;
use swar::half_at;

/// Whether a comment begins at `i`. Only four bytes are loaded: out of eight, the compiler would
/// also take the bytes that are compared next.
fn comment_begins(doc: &[u8], i: usize) -> bool
    requires { i + 4 ≤ length doc.now }
    ensures { Stands (ascii "<!--") doc.now i result }
{
    half_at(doc, i) == 0x2d2d_213c
}

/// The position past the comments at `at`, one behind the other, as far as 32 bytes are left.
fn past_comments(doc: &[u8], at: usize) -> usize
    requires { at + 32 ≤ length doc.now }
    ensures { Passed doc.now at result }
{
    let last = doc.len() - 32;
    let mut i = at;
    // `while`: each turn consumes a comment.
    while i <= last {
        if !comment_begins(doc, i) {
            return i;
        }
        match comment_end(doc, i + 4) {
            Some(end) => i = end + 3,
            None => return i,
        }
    }
    i
}

/// The position past the instructions at `at`, in the same way.
fn past_instructions(doc: &[u8], at: usize) -> usize
    requires { at + 32 ≤ length doc.now }
    ensures { Passed doc.now at result }
{
    let last = doc.len() - 32;
    let mut i = at;
    // `while`: each turn consumes an instruction.
    while i <= last {
        if !pair_stands(doc, i, b'<', b'?') {
            return i;
        }
        match instruction_end(doc, i + 2) {
            Some(end) => i = end + 2,
            None => return i,
        }
    }
    i
}

/// The position past the declarations at `at`, in the same way, up to the first comment.
fn past_declarations(doc: &[u8], at: usize) -> usize
    requires { at + 32 ≤ length doc.now }
    ensures { Passed doc.now at result }
{
    let last = doc.len() - 32;
    let mut i = at;
    // `while`: each turn consumes a declaration.
    while i <= last {
        if !pair_stands(doc, i, b'<', b'!') {
            return i;
        }
        if pair_stands(doc, i + 2, b'-', b'-') {
            return i;
        }
        match bracket_from::<16>(doc, i + 2) {
            Some(end) => i = end + 1,
            None => return i,
        }
    }
    i
}

/// The position past the row of markup at `at`, of the kind that begins there.
fn past_row(doc: &[u8], at: usize) -> usize
    requires { at + 32 ≤ length doc.now }
    ensures { Passed doc.now at result }
{
    if doc[at + 1] == b'?' {
        return past_instructions(doc, at);
    }
    if comment_begins(doc, at) {
        return past_comments(doc, at);
    }
    past_declarations(doc, at)
}

// ---- anywhere in the document

/// The position behind the `n` bytes at `end`; the refusal if no end was found in the document.
fn past_end(doc: &[u8], end: usize, n: usize, refusal: Refusal) -> Result<usize, Refusal>
    requires { n ≤ 8 }
    ensures { EndPassed doc.now end n refusal result }
{
    if end < doc.len() {
        return Ok(end + n);
    }
    Err(refusal)
}

/// The position past the one piece of markup at `at`. Refused (11 to 13) if it does not end.
fn past_piece(doc: &[u8], at: usize) -> Result<usize, Refusal>
    requires { is_silent doc.now at ≡ true }
    ensures { PassedSome doc.now at result }
{
    if texts::starts_with(doc, at, b"<!--") {
        let end = CommentEnd::far(doc, at + 4);
        return past_end(doc, end, 3, Refusal::OpenComment { at });
    }
    if texts::starts_with(doc, at, b"<?") {
        let end = InstructionEnd::far(doc, at + 2);
        return past_end(doc, end, 2, Refusal::OpenInstruction { at });
    }
    let end = DeclarationEnd::far(doc, at + 2);
    past_end(doc, end, 1, Refusal::OpenDeclaration { at })
}

/// The position past the markup at `at`, with the rest of its row where the hot loops apply.
fn past_some(doc: &[u8], at: usize) -> Result<usize, Refusal>
    requires { is_silent doc.now at ≡ true }
    ensures { PassedSome doc.now at result }
{
    if 32 <= doc.len() - at {
        let next = past_row(doc, at);
        if at < next {
            return Ok(next);
        }
    }
    past_piece(doc, at)
}

/// Whether markup that is no event begins at `at`.
fn is_silent(doc: &[u8], at: usize) -> bool
    ensures { result ≡ is_silent doc.now at }
{
    texts::starts_with(doc, at, b"<!") || texts::starts_with(doc, at, b"<?")
}

/// The position past all markup at `at` that is no event; `at` itself if there is none. Refused (11
/// to 13) if a piece does not end.
pub(crate) fn past_silent(doc: &[u8], at: usize) -> Result<usize, Refusal>
    ensures { PassedAll doc.now at result }
{
    let mut i = at;
    // `while`: each turn consumes a piece or a row.
    while is_silent(doc, i) {
        i = past_some(doc, i)?;
    }
    Ok(i)
}
