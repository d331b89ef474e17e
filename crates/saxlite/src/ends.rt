//! Where markup that is no event ends: `-->`, `?>` or `>`.
//!
//! Most ends are near: the first positions are tested one by one, as branches are predicted, the
//! others eight at once (SWAR). Each search promises the plain one, `find_from`, and can be replaced
//! by it.
#![tactic(auto, using(crate::proofs::Finding::finding))]

ghost use Rattle.std.specs.Prelude.{◌≡◌, List, [], ◌∷◌, ℕ, ◌+◌, ◌%◌, ◌≤◌, ◌<◌, length};
ghost use Rattle.texts.specs.Text.{ascii};
ghost use Rattle.swar.specs.internal.Standing.{ShortText};
ghost use Rattle.saxlite.specs.internal.Passing.{Stands, FoundAt, FirstAt, EndsAt};

use swar::{byte_from, stands_short, text_from};
use tags::scan::find;

/// Where `needle` first stands from `from` on, or the document's length.
fn found(doc: &[u8], from: usize, needle: &[u8]) -> usize
    requires { 0 < length needle.now }
    ensures { FoundAt needle.now doc.now from result }
{
    find(doc, from, needle).unwrap_or(doc.len())
}

/// The same, eight positions at once; `modulus` and `front` are the needle as an integer, as in
/// `swar::stands_short`.
fn found_far<const N: usize>(
    doc: &[u8],
    from: usize,
    needle: &[u8; N],
    modulus: u64,
    front: u64,
) -> usize
    requires { (0 < length needle.now) × ShortText needle.now modulus front }
    ensures { FoundAt needle.now doc.now from result }
{
    if doc.len() < 8 {
        return found(doc, from, needle);
    }
    let near = text_from(doc, from, needle);
    if near <= doc.len() - 8 {
        if stands_short(doc, near, modulus, front) {
            return near;
        }
    }
    found(doc, near, needle)
}

/// Whether these two bytes stand at `i`. Each is compared by itself: one comparison of both has an
/// immediate operand of 16 bits, on which the processor's decoder stalls.
pub(crate) fn pair_stands(doc: &[u8], i: usize, first: u8, second: u8) -> bool
    requires { i + 2 ≤ length doc.now }
    ensures { Stands (first ∷ second ∷ []) doc.now i result }
{
    if doc[i] == first {
        return doc[i + 1] == second;
    }
    false
}

/// What ends a kind of markup.
pub trait MarkupEnd {
    /// The bytes that end it.
    ghost needle: { List ℕ };

    /// Whether they stand at `i`.
    fn stands(doc: &[u8], i: usize) -> bool
        requires { i + 8 ≤ length doc.now }
        ensures { Stands needle doc.now i result };

    /// Where they first stand from `from` on, or the document's length; eight positions at once.
    fn far(doc: &[u8], from: usize) -> usize
        ensures { FoundAt needle doc.now from result };
}

/// `-->`, which ends a comment.
pub struct CommentEnd;

impl MarkupEnd for CommentEnd {
    ghost needle = { ascii "-->" };

    fn stands(doc: &[u8], i: usize) -> bool {
        stands_short(doc, i, 0x100_0000, 0x3e_2d2d)
    }

    fn far(doc: &[u8], from: usize) -> usize {
        found_far(doc, from, b"-->", 0x100_0000, 0x3e_2d2d)
    }
}

/// `?>`, which ends an instruction.
pub struct InstructionEnd;

impl MarkupEnd for InstructionEnd {
    ghost needle = { ascii "?>" };

    fn stands(doc: &[u8], i: usize) -> bool {
        pair_stands(doc, i, b'?', b'>')
    }

    fn far(doc: &[u8], from: usize) -> usize {
        found_far(doc, from, b"?>", 0x1_0000, 0x3e3f)
    }
}

/// `>`, which ends a declaration.
pub struct DeclarationEnd;

impl MarkupEnd for DeclarationEnd {
    ghost needle = { ascii ">" };

    fn stands(doc: &[u8], i: usize) -> bool {
        stands_short(doc, i, 0x100, 0x3e)
    }

    fn far(doc: &[u8], from: usize) -> usize {
        byte_from(doc, from, b'>')
    }
}

/// Where the markup that is open at `from` ends, or the document's length: the first sixteen
/// positions one by one, then eight at once. `past_piece`, which meets only what the hot loops have
/// left, calls `far` instead.
fn markup_end<E: MarkupEnd>(doc: &[u8], from: usize) -> usize
    requires { from ≤ length doc.now }
    ensures { FoundAt E.needle doc.now from result }
{
    if doc.len() - from < 24 {
        return E::far(doc, from);
    }
    let stop = from + 16;
    let mut i = from;
    // `while`: each turn tests four positions.
    while i < stop {
        if E::stands(doc, i) {
            return i;
        }
        if E::stands(doc, i + 1) {
            return i + 1;
        }
        if E::stands(doc, i + 2) {
            return i + 2;
        }
        if E::stands(doc, i + 3) {
            return i + 3;
        }
        i += 4;
    }
    E::far(doc, i)
}

/// Where the first '>' from `at` on stands, with which all such markup ends; `None` if there is
/// none. First `N` positions one by one, as branches are predicted, then eight at once, where each
/// step waits for the one before.
#[inline(always)]
pub(crate) fn bracket_from<const N: usize>(doc: &[u8], at: usize) -> Option<usize>
    requires { (N % 4 ≡ 0) × (at + N + 8 ≤ length doc.now) }
    ensures { FirstAt 62 doc.now at result }
{
    let stop = at + N;
    let mut i = at;
    // `while`: each turn tests four positions.
    while i < stop {
        if doc[i] == b'>' {
            return Some(i);
        }
        if doc[i + 1] == b'>' {
            return Some(i + 1);
        }
        if doc[i + 2] == b'>' {
            return Some(i + 2);
        }
        if doc[i + 3] == b'>' {
            return Some(i + 3);
        }
        i += 4;
    }
    let far = byte_from(doc, i, b'>');
    if far < doc.len() { Some(far) } else { None }
}

/// The same for instructions. The compiler unrolls the first eight positions: a fifth less time.
#[inline(always)]
fn bracket_near(doc: &[u8], at: usize) -> Option<usize>
    requires { at + 16 ≤ length doc.now }
    ensures { FirstAt 62 doc.now at result }
{
    for k in 0..8 {
        if doc[at + k] == b'>' {
            return Some(at + k);
        }
    }
    let far = byte_from(doc, at + 8, b'>');
    if far < doc.len() { Some(far) } else { None }
}

/// Whether the comment that is open at `from` ends there, tested by its '>' first.
fn comment_is_empty(doc: &[u8], from: usize) -> bool
    requires { from + 3 ≤ length doc.now }
    ensures { Stands (ascii "-->") doc.now from result }
{
    if doc[from + 2] == b'>' {
        return pair_stands(doc, from, b'-', b'-');
    }
    false
}

/// Where `-->` first stands from `from` on: at the first '>' if "--" is before it, else by a search
/// from there. `None` if it stands nowhere.
#[inline(always)]
fn dashes_from(doc: &[u8], from: usize) -> Option<usize>
    requires { from + 20 ≤ length doc.now }
    ensures { EndsAt (ascii "-->") doc.now from result }
{
    match bracket_from::<8>(doc, from + 2) {
        Some(due) => {
            let end = due - 2;
            if pair_stands(doc, end, b'-', b'-') {
                return Some(end);
            }
            let far = markup_end::<CommentEnd>(doc, end);
            if far < doc.len() { Some(far) } else { None }
        }
        None => None,
    }
}

/// Where the comment that is open at `from` ends; `None` if it does not.
#[inline(always)]
pub(crate) fn comment_end(doc: &[u8], from: usize) -> Option<usize>
    requires { from + 28 ≤ length doc.now }
    ensures { EndsAt (ascii "-->") doc.now from result }
{
    if comment_is_empty(doc, from) {
        return Some(from);
    }
    dashes_from(doc, from + 1)
}

/// Where the instruction that is open at `from` ends: at the first '>' if '?' is before it, else by
/// a search from there. `None` if it does not end.
#[inline(always)]
pub(crate) fn instruction_end(doc: &[u8], from: usize) -> Option<usize>
    requires { from + 28 ≤ length doc.now }
    ensures { EndsAt (ascii "?>") doc.now from result }
{
    match bracket_near(doc, from + 1) {
        Some(due) => {
            let end = due - 1;
            if doc[end] == b'?' {
                return Some(end);
            }
            let far = markup_end::<InstructionEnd>(doc, end);
            if far < doc.len() { Some(far) } else { None }
        }
        None => None,
    }
}
