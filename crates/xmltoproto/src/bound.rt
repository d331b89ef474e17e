//! An upper bound of the source's length, in one pass over the items that looks at no text.
//!
//! Each item counts with the most that it may print, printed or not
//! (specs/internal/Bound.antt); the constants are the lengths of the fixed text around names and
//! numbers. The sum is a bound since each item has one owner (proofs/Owning.antt).
ghost use Rattle.std.specs.Prelude.{◌≡◌, ◌≤◌, ◌<◌, ◌^◌, length};
ghost use Rattle.printing.specs.Decimal.{decimal};
ghost use Rattle.model.specs.Schema.{item_at, a_field};
ghost use Rattle.xmltoproto.specs.Types.{form_of};
ghost use Rattle.xmltoproto.specs.Source.{source};
ghost use Rattle.xmltoproto.specs.internal.Bound.{named_most, note_most, typed_most};
ghost use Rattle.xmltoproto.specs.internal.Bound.{value_most, field_most, share, Covers};

use index::declaration::Declaration;
use index::seen::Index;
use model::{COMPOSITE, ENUM, FIELD, GROUP, MEMBER, MESSAGE, REF, VALUE};

/// The most digits of a `u32`.
const DIGITS: usize = 10;

/// A line without name, number, type and option: the indent of a group's field, a space, ` = ` and
/// the end.
const LINE: usize = 4 + 1 + 3 + 2;

/// The longest option, ` [(sbe.encoding) = "uint16"]`. One with a length is no longer but for the
/// length's digits.
const OPTION: usize = 28;

/// The longest option of a built-in, whose length has one digit.
const BUILT_IN_OPTION: usize = OPTION + 1;

/// A comment without its encoding, in a group: the indent, `// SBE characterEncoding `, two quotes,
/// and ` is not UTF-8 compatible, so this field is bytes.` with the end.
const NOTE: usize = 4 + 25 + 2 + 50;

/// A value without names and number: the indent, the `_` after its enum's name, ` = ` and the end.
const VALUE_FRAME: usize = 2 + 1 + 3 + 2;

/// `enum `, ` {` and the end of a line, `}` and the ends of two.
const ENUM_FRAME: usize = 5 + 3 + 3;

/// `message `, then as for an enum.
const COMPOSITE_FRAME: usize = 8 + 3 + 3;

/// A composite's, and `  option (sbe.template_id) = ` with the end.
const MESSAGE_FRAME: usize = COMPOSITE_FRAME + 29 + 2;

/// `  message `, ` {` and the end of a line; `  }` and the end; `  repeated `, a space, ` = ` and
/// the end.
const GROUP_FRAME: usize = 10 + 3 + 4 + 11 + 1 + 3 + 2;

/// The header: `syntax = "proto3";`, `package ` with its end, the import, and the two options.
const HEADER: usize = 20 + 11 + 33 + 27 + 26;

/// What having a number as a `u32` tells of it: the most digits that it has.
fn has_few_digits(n: u32)
    ensures { length (decimal n) ≤ 10 }
{}

/// The most bytes of a line with a name of `n` bytes and a type name of `word` bytes. Snake case at
/// most doubles a name.
fn named_most(n: u32, word: u32) -> usize
    ensures { result ≡ named_most n 10 word }
{
    LINE + 2 * (n as usize) + DIGITS + word as usize
}

/// The most bytes of the comment on an encoding of `e` bytes, each of them six at most when quoted;
/// no comment where it is absent.
#[tactic(auto, unfolding(crate::specs::internal::Bound::note_most))]
fn note_most(e: u32) -> usize
    ensures { (result ≡ note_most e) × (result < 2 ^ 36) }
{
    if e == 0 { 0 } else { NOTE + 6 * (e as usize) }
}

/// The most bytes of the line of the type or member at `t`, under a name of `n` bytes, with its
/// option and its comment.
#[tactic(auto, unfolding(crate::specs::Types::form_of), using(crate::proofs::Covering::bounds))]
fn typed_most(s: &Index<'_>, n: u32, t: u32) -> usize
    ensures { Covers result (typed_most n 10 (form_of (item_at s.now t))) }
{
    has_few_digits(s.size(t));
    named_most(n, s.second_most(t)) + OPTION + DIGITS + note_most(s.encoding_most(t))
}

/// The most bytes of the line of the field at `i`. It requires what `Index::field_declared`
/// requires: by `declared`, which requires nothing, a conversion takes 2 % longer.
#[tactic(auto, unfolding(crate::specs::internal::Bound::field_most, crate::specs::internal::Bound::note_most, crate::specs::Types::built_in), using(crate::proofs::Covering::bounds))]
fn field_most(s: &Index<'_>, i: u32) -> usize
    requires { (item_at s.now i).kind ≡ a_field }
    ensures { Covers result (field_most s.now (item_at s.now i)) }
{
    has_few_digits(s.number(i));
    let n = s.name_most(i);
    match s.field_declared(i) {
        Some(Declaration::Named) => named_most(n, s.second_most(i)),
        Some(Declaration::Typed(t)) => typed_most(s, n, t),
        // A built-in may need an option.
        None => named_most(n, s.second_most(i)) + BUILT_IN_OPTION,
    }
}

/// The most bytes of the line of the value at `i`, whose name begins with that of its enum.
fn value_most(s: &Index<'_>, i: u32) -> usize
    ensures { Covers result (value_most (item_at s.now (item_at s.now i).owner) (item_at s.now i)) }
{
    let prefix = s.name_most(s.owner(i));
    let n = s.name_most(i);
    VALUE_FRAME + 2 * (prefix as usize) + 2 * (n as usize) + s.second_most(i) as usize
}

/// The most bytes that the item at `i` adds, without the items that it holds.
#[tactic(auto, unfolding(crate::specs::internal::Bound::share), using(crate::proofs::Covering::bounds))]
fn item_most(s: &Index<'_>, i: u32) -> usize
    ensures { Covers result (share s.now i) }
{
    has_few_digits(s.number(i));
    let kind = s.kind(i);
    match kind {
        MEMBER => typed_most(s, s.name_most(i), i),
        REF => named_most(s.name_most(i), s.second_most(i)),
        COMPOSITE => COMPOSITE_FRAME + s.name_most(i) as usize,
        ENUM => ENUM_FRAME + s.name_most(i) as usize,
        VALUE => value_most(s, i),
        MESSAGE => MESSAGE_FRAME + s.name_most(i) as usize + DIGITS,
        // A group's name is printed in the singular twice, and once in snake case.
        GROUP => GROUP_FRAME + 4 * (s.name_most(i) as usize) + DIGITS,
        FIELD => field_most(s, i),
        _ => 0,
    }
}

/// At least the length of the source. A model has at most 1,024 items, so the sum fits.
#[tactic(auto, using(crate::proofs::Covering::bounds))]
pub fn source_most(s: &Index<'_>) -> usize
    ensures { length (source s.now) ≤ result }
{
    has_few_digits(s.id());
    has_few_digits(s.version());
    let mut most = HEADER + s.package().len() + 2 * DIGITS;
    for i in 0..s.count() {
        most += item_most(s, i);
    }
    most
}
