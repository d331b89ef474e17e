//! The five entities, `&lt;` `&gt;` `&quot;` `&apos;` and `&amp;`, decoded once.
//!
//! `decode` writes a piece of the document, decoded, into a lent slice at a position, or answers
//! `None` where the raw bytes would not fit there (`DecodedInto`, specs/Entities.antt);
//! `decode_room` is for a caller that knows that they fit. Decoding never lengthens a text. Texts
//! without `&`, nearly all, are copied four or eight bytes at a time, the last copy overlapping the
//! one before.
//!
//! A slice and a position, not an `Output`: the builder fills its text buffer from both ends.
#![tactic(auto, using(crate::proofs::Laws::laws, crate::proofs::Copying::plain))]

ghost use Rattle.std.specs.Prelude.{◌≡◌, ◌+◌, ◌-◌, ◌≤◌, ◌<◌, length, drop};
ghost use Rattle.texts.specs.Text.{piece};
ghost use Rattle.entities.specs.Entities.{front, Decodes, DecodedInto};
ghost use Rattle.entities.specs.internal.Copying.{PlainTo, RestInto};

use swar::{both_lack, copy_few, lacks};

/// What stands at a position of a text: the byte that it decodes to, and how many raw bytes it
/// takes.
#[derive(Clone, Copy)]
pub struct Unit {
    pub byte: u8,
    pub len: usize,
}

/// The entity or the byte at `at`. The byte behind a `&` decides which names are compared: for most
/// bytes none.
#[tactic(auto, unfolding(crate::specs::Entities::entity), using(crate::proofs::Laws::units))]
fn unit_at(s: &[u8], at: usize) -> Unit
    requires { at < length s.now }
    ensures { result ≡ front (drop at s.now) }
{
    let b = s[at];
    if b != b'&' {
        return Unit { byte: b, len: 1 };
    }
    let n = at + 1;
    // Not a `match` of byte strings: the proof of its last arm would know lengths only.
    match texts::byte_at(s, n) {
        b'l' if texts::starts_with(s, n, b"lt;") => Unit { byte: b'<', len: 4 },
        b'g' if texts::starts_with(s, n, b"gt;") => Unit { byte: b'>', len: 4 },
        b'q' if texts::starts_with(s, n, b"quot;") => Unit { byte: b'"', len: 6 },
        b'a' if texts::starts_with(s, n, b"apos;") => Unit {
            byte: b'\'',
            len: 6,
        },
        b'a' if texts::starts_with(s, n, b"amp;") => Unit { byte: b'&', len: 5 },
        _ => Unit { byte: b'&', len: 1 },
    }
}

/// Decodes `raw` from `from` on into `dst` from `to` on, one entity or byte at a time, and returns
/// the position behind it. Room for the raw bytes is enough.
#[inline(never)]
fn decode_each(raw: &[u8], from: usize, dst: &mut [u8], to: usize) -> usize
    requires { to + (length raw.now - from) ≤ length dst.old }
    ensures { RestInto (drop from raw.now) dst.old to result dst.new }
{
    let mut i = from;
    let mut o = to;
    // `while`: each turn consumes an entity or a byte, so the step is not 1.
    while i < raw.len() {
        let u = unit_at(raw, i);
        dst[o] = u.byte;
        o += 1;
        i += u.len;
    }
    o
}

/// Copies `raw` eight bytes at a time, up to the first eight that contain a `&`, and returns how
/// many bytes it copied.
fn copy_plain(raw: &[u8], dst: &mut [u8], at: usize) -> usize
    requires { at + length raw.now ≤ length dst.old }
    ensures { PlainTo raw.now dst.old at dst.new result }
{
    let mut i = 0;
    // `while`: each turn consumes eight bytes.
    while i + 8 <= raw.len() {
        if lacks::<8>(raw, i, b'&') {
            copy_few::<8>(raw, i, dst, at + i);
            i += 8;
        } else {
            return i;
        }
    }
    i
}

/// Decodes a text of any length, and returns how many bytes it wrote: eight bytes at a time as far
/// as there is no `&`, the last eight overlapping those before, and what is left by `decode_each`.
#[inline(never)]
fn decode_long(raw: &[u8], dst: &mut [u8], at: usize) -> usize
    requires { at + length raw.now ≤ length dst.old }
    ensures { RestInto raw.now dst.old at (at + result) dst.new }
{
    let n = raw.len();
    let i = copy_plain(raw, dst, at);
    if i == n {
        return n;
    }
    if 8 <= n {
        let last = n - 8;
        if last < i {
            if lacks::<8>(raw, last, b'&') {
                copy_few::<8>(raw, last, dst, at + last);
                return n;
            }
        }
    }
    decode_each(raw, i, dst, at + i) - at
}

/// Decodes a text of at most 8 bytes, and returns how many bytes it wrote. From 4 bytes on, and
/// without `&`, it is copied as its first four bytes and its last four, which may overlap.
fn decode_short(raw: &[u8], dst: &mut [u8], at: usize) -> usize
    requires { (at + length raw.now ≤ length dst.old) × (length raw.now ≤ 8) }
    ensures { RestInto raw.now dst.old at (at + result) dst.new }
{
    let n = raw.len();
    if 4 <= n {
        let last = n - 4;
        if both_lack::<4>(raw, 0, last, b'&') {
            copy_few::<4>(raw, 0, dst, at);
            copy_few::<4>(raw, last, dst, at + last);
            return n;
        }
    }
    decode_each(raw, 0, dst, at) - at
}

/// Decodes a text of any length, and returns how many bytes it wrote. Most have 8 to 16 bytes and
/// no `&`, and are copied as their first eight bytes and their last eight, which may overlap.
fn decode_all(raw: &[u8], dst: &mut [u8], at: usize) -> usize
    requires { at + length raw.now ≤ length dst.old }
    ensures { RestInto raw.now dst.old at (at + result) dst.new }
{
    let n = raw.len();
    if n < 8 {
        return decode_short(raw, dst, at);
    }
    if n <= 16 {
        let last = n - 8;
        if both_lack::<8>(raw, 0, last, b'&') {
            copy_few::<8>(raw, 0, dst, at);
            copy_few::<8>(raw, last, dst, at + last);
            return n;
        }
    }
    decode_long(raw, dst, at)
}

/// Writes `len` bytes of the document from `from` on, decoded, into `dst` at `at`, and returns how
/// many bytes it wrote. The caller has room for the raw bytes.
pub fn decode_room(doc: &[u8], from: usize, len: usize, dst: &mut [u8], at: usize) -> usize
    requires { at + len ≤ length dst.old }
    ensures { Decodes (piece doc.now from len) dst.old at result dst.new }
{
    decode_all(texts::part(doc, from, len), dst, at)
}

/// The same for any `dst` and `at`: `None`, and nothing written, where the raw bytes would not fit.
pub fn decode(doc: &[u8], from: usize, len: usize, dst: &mut [u8], at: usize) -> Option<usize>
    ensures { DecodedInto (piece doc.now from len) dst.old at result dst.new }
{
    if dst.len() < at {
        return None;
    }
    let raw = texts::part(doc, from, len);
    let n = raw.len();
    if dst.len() - at < n {
        return None;
    }
    Some(decode_all(raw, dst, at))
}
