//! Prints composites: members, then refs, numbered from 1.
#![tactic(auto, using(printing::proofs::Writing::writing))]

ghost use Rattle.std.specs.Prelude.{◌≡◌, []};
ghost use Rattle.texts.specs.Choice.{pick};
ghost use Rattle.printing.specs.Written.{Wrote};
ghost use Rattle.model.specs.Schema.{item_at};
ghost use Rattle.xmltoproto.specs.Composites.{is_printed};
ghost use Rattle.xmltoproto.specs.Source.{member_text, ref_text, part_texts, composite_text};
ghost use Rattle.xmltoproto.specs.internal.Parts.{Members, member_texts, ref_texts};

use crate::line::{write_formed, write_line};
use crate::types::Shape;
use crate::walk::ItemText;
use index::seen::Index;
use model::view::View;
use model::{MEMBER, REF};
use printing::Output;
use texts::equal;

/// Writes the line of the member at `i`.
#[tactic(auto, unfolding(crate::specs::Source::member_text), using(printing::proofs::Writing::writing))]
fn write_member(out: &mut Output<'_>, s: &Index<'_>, i: u32, number: u32)
    ensures { Wrote out.old out.new (member_text number (item_at s.now i)) }
{
    write_formed(out, s, false, i, s.name(i), number);
}

/// Writes the line of the ref at `i`.
#[tactic(auto, unfolding(crate::specs::Source::ref_text, crate::specs::Types::as_named), using(printing::proofs::Writing::writing))]
fn write_ref(out: &mut Output<'_>, s: &Index<'_>, i: u32, number: u32)
    ensures { Wrote out.old out.new (ref_text number (item_at s.now i)) }
{
    let type_name = s.second(i);
    let name = s.name(i);
    write_line(out, false, Shape::Plain, type_name, b"", name, number);
}

/// Writes the lines of the members, and returns how many there are.
fn write_members(out: &mut Output<'_>, s: &Index<'_>, c: u32) -> u32
    ensures text { Wrote out.old out.new (member_texts s.now c) }
    ensures count { Members s.now c result }
{
    let mut k = 0;
    for i in s.children(MEMBER, c) {
        k += 1;
        write_member(out, s, i, k);
    }
    k
}

/// Writes the lines of the refs, whose numbers follow those of the composite's `members`.
fn write_refs(out: &mut Output<'_>, s: &Index<'_>, c: u32, members: u32)
    requires { Members s.now c members }
    ensures { Wrote out.old out.new (ref_texts s.now c members) }
{
    let mut k = members;
    for i in s.children(REF, c) {
        k += 1;
        write_ref(out, s, i, k);
    }
}

/// Writes the lines of members and refs.
#[tactic(auto, unfolding(crate::specs::Source::part_texts), using(printing::proofs::Writing::writing))]
fn write_parts(out: &mut Output<'_>, s: &Index<'_>, c: u32)
    ensures { Wrote out.old out.new (part_texts s.now c) }
{
    let members = write_members(out, s, c);
    write_refs(out, s, c, members);
}

/// Writes the composite at `c`.
#[tactic(auto, unfolding(crate::specs::Source::composite_text), using(printing::proofs::Writing::writing))]
fn write_composite(out: &mut Output<'_>, s: &Index<'_>, c: u32)
    ensures { Wrote out.old out.new (composite_text s.now c) }
{
    out.text(b"message ");
    out.text(s.name(c));
    out.text(b" {\n");
    write_parts(out, s, c);
    out.text(b"}\n\n");
}

/// Whether the composite at `c` is printed: all are but messageHeader and groupSizeEncoding.
#[tactic(auto, unfolding(crate::specs::Composites::is_printed), using(printing::proofs::Writing::writing))]
pub fn is_printed(v: &View<'_>, c: u32) -> bool
    ensures { result ≡ is_printed (item_at v.now c) }
{
    let name = v.name(c);
    if equal(name, b"messageHeader") {
        return false;
    }
    !equal(name, b"groupSizeEncoding")
}

/// The text of a composite; none if it is not printed.
pub struct CompositeText;

impl ItemText for CompositeText {
    ghost text = { λ t s i. pick (is_printed (item_at s i)) (composite_text s i) [] };

    fn write(&self, out: &mut Output<'_>, s: &Index<'_>, i: u32) {
        if is_printed(s.view(), i) {
            write_composite(out, s, i);
        }
    }
}
