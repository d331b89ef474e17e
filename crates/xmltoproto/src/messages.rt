//! Prints messages: fields, then groups.
#![tactic(auto, using(printing::proofs::Writing::writing))]

ghost use Rattle.printing.specs.Written.{Wrote};
ghost use Rattle.model.specs.Schema.{item_at};
ghost use Rattle.xmltoproto.specs.Source.{field_text, group_text, message_text};
ghost use Rattle.xmltoproto.specs.internal.Parts.{indent_of, undeclared, group_head};

use crate::line::{write_formed, write_line};
use crate::types::{Shape, shape_of};
use crate::walk::{ItemText, write_under};
use index::declaration::Declaration;
use index::seen::Index;
use model::{FIELD, GROUP};
use names::plurals::write_singular;
use names::snake::write_snake;
use printing::Output;

/// Writes the line of a field whose type name is declared nowhere: a built-in, or a name that is
/// printed as it stands. `shape_of` covers both, since it leaves a name that is no built-in as it
/// stands.
fn write_undeclared(
    out: &mut Output<'_>,
    in_group: bool,
    type_name: &[u8],
    name: &[u8],
    number: u32,
)
    ensures { Wrote out.old out.new (undeclared in_group type_name.now name.now number) }
{
    let shape = shape_of(type_name, 0, b"");
    write_line(out, in_group, shape, type_name, b"", name, number);
}

/// Writes the line of the field at `i`.
#[tactic(auto, unfolding(crate::specs::Source::field_text, crate::specs::Types::as_named), using(crate::proofs::Typing::meanings))]
fn write_field(out: &mut Output<'_>, s: &Index<'_>, in_group: bool, i: u32)
    ensures { Wrote out.old out.new (field_text s.now (indent_of in_group) (item_at s.now i)) }
{
    let name = s.name(i);
    let number = s.number(i);
    match s.declared(i) {
        Some(Declaration::Typed(k)) => write_formed(out, s, in_group, k, name, number),
        Some(Declaration::Named) => {
            let type_name = s.second(i);
            write_line(out, in_group, Shape::Plain, type_name, b"", name, number)
        }
        None => write_undeclared(out, in_group, s.second(i), name, number),
    }
}

/// The line of a field: in a group or in a message.
struct FieldLine {
    in_group: bool,
}

impl ItemText for FieldLine {
    ghost text = { λ t s i. field_text s (indent_of t.in_group) (item_at s i) };

    fn write(&self, out: &mut Output<'_>, s: &Index<'_>, i: u32) {
        write_field(out, s, self.in_group, i);
    }
}

/// Writes a group's message as far as its last field.
#[tactic(auto, unfolding(crate::specs::internal::Parts::group_head), using(printing::proofs::Writing::writing))]
fn write_group_head(out: &mut Output<'_>, s: &Index<'_>, g: u32)
    ensures { Wrote out.old out.new (group_head s.now g) }
{
    out.text(b"  message ");
    write_singular(out, s.name(g));
    out.text(b" {\n");
    write_under(out, s, FIELD, g, &FieldLine { in_group: true });
}

/// The text of a group: its message, and the repeated field.
struct GroupText;

impl ItemText for GroupText {
    ghost text = { λ t s i. group_text s i };

    #[tactic(auto, unfolding(crate::specs::internal::Parts::group_head, crate::specs::Source::group_text), using(printing::proofs::Writing::writing))]
    fn write(&self, out: &mut Output<'_>, s: &Index<'_>, i: u32) {
        let name = s.name(i);
        write_group_head(out, s, i);
        out.text(b"  }\n  repeated ");
        write_singular(out, name);
        out.text(b" ");
        write_snake(out, name);
        out.text(b" = ");
        out.decimal(s.number(i));
        out.text(b";\n");
    }
}

/// The text of a message.
pub struct MessageText;

impl ItemText for MessageText {
    ghost text = { λ t s i. message_text s i };

    fn write(&self, out: &mut Output<'_>, s: &Index<'_>, i: u32) {
        out.text(b"message ");
        out.text(s.name(i));
        out.text(b" {\n  option (sbe.template_id) = ");
        out.decimal(s.number(i));
        out.text(b";\n");
        write_under(out, s, FIELD, i, &FieldLine { in_group: false });
        write_under(out, s, GROUP, i, &GroupText);
        out.text(b"}\n\n");
    }
}
