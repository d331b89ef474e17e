//! Prints the wire sheet of a schema as lines (specs/Sheet.antt).
#![tactic(auto, unfolding(crate::proofs::Sheets::on_lines), using(crate::proofs::Sheets::lines))]

ghost use Rattle.printing.specs.Written.{Wrote};
ghost use Rattle.model.specs.Schema.{item_at};
ghost use Rattle.xmltoproto.specs.Types.{form, form_of, meaning};
ghost use Rattle.wiresheet.specs.Sheet.{named, kind_of, kind_by, value_of, enum_of, member_of, ref_of};
ghost use Rattle.wiresheet.specs.Sheet.{composite_of, field_of, group_of, message_of, sheet};
ghost use Rattle.wiresheet.specs.Sheet.{kind_shown, enum_shown, composite_shown, field_shown};
ghost use Rattle.wiresheet.specs.Sheet.{group_shown, message_shown, sheet_lines};
ghost use Rattle.wiresheet.specs.internal.SheetLines.{value_shown, part_shown};
ghost use Rattle.wiresheet.specs.internal.SheetLines.{composite_lines, group_line, schema_line};

use charsets::is_compatible;
use index::LINKS_1024;
use index::declaration::Declaration;
use index::seen::Index;
use model::view::View;
use model::{COMPOSITE, ENUM, FIELD, GROUP, MEMBER, MESSAGE, REF, VALUE};
use names::plurals::write_singular;
use names::snake::{write_screaming, write_snake};
use printing::Output;
use texts::equal;
use xmltoproto::composites::is_printed;
use xmltoproto::types::{chars_in, is_built_in, is_raw};
use xmltoproto::walk::{ItemText, write_all, write_under};

// ---- kinds

/// Writes the kind of a primitive with a length, 0 if absent, and an encoding.
#[tactic(auto, unfolding(crate::specs::Sheet::kind_of, crate::specs::Sheet::kind_shown, xmltoproto::specs::Types::is_char, xmltoproto::specs::Types::chars, xmltoproto::specs::Types::is_raw, xmltoproto::specs::Types::is_byte), using(crate::proofs::Sheets::lines))]
fn write_kind(out: &mut Output<'_>, primitive: &[u8], size: u32, encoding: &[u8])
    ensures { Wrote out.old out.new (kind_shown (kind_of (form primitive.now size encoding.now))) }
{
    if equal(primitive, b"char") {
        out.text(b"text ");
        out.decimal(chars_in(size));
        if is_compatible(encoding) {
            return;
        }
        out.text(b" ");
        return out.text(encoding);
    }
    if is_raw(primitive, size) {
        out.text(b"raw ");
        return out.decimal(size);
    }
    out.text(primitive);
}

/// Writes the kind of an enum or composite, or of a name that stands for nothing.
#[tactic(auto, unfolding(crate::specs::Sheet::kind_shown), using(crate::proofs::Sheets::lines))]
fn write_named(out: &mut Output<'_>, name: &[u8])
    ensures { Wrote out.old out.new (kind_shown (named name.now)) }
{
    out.text(b"named ");
    out.text(name);
}

/// Writes the kind of the type or member at `i`.
#[tactic(auto, unfolding(xmltoproto::specs::Types::form_of), using(crate::proofs::Sheets::lines))]
fn write_own_kind(out: &mut Output<'_>, s: &Index<'_>, i: u32)
    ensures { Wrote out.old out.new (kind_shown (kind_of (form_of (item_at s.now i)))) }
{
    let primitive = s.second(i);
    let encoding = s.encoding(i);
    write_kind(out, primitive, s.size(i), encoding);
}

/// Writes the kind that the type name of the field at `i` stands for.
#[tactic(auto, unfolding(crate::specs::Sheet::field_of, xmltoproto::specs::Types::built_in), using(crate::proofs::Sheets::lines))]
fn write_field_kind(out: &mut Output<'_>, s: &Index<'_>, i: u32)
    ensures { Wrote out.old out.new (kind_shown (field_of s.now (item_at s.now i)).kind) }
{
    let name = s.second(i);
    match s.declared(i) {
        Some(Declaration::Named) => write_named(out, name),
        Some(Declaration::Typed(t)) => write_own_kind(out, s, t),
        None => {
            if is_built_in(name) {
                return write_kind(out, name, 0, b"");
            }
            write_named(out, name)
        }
    }
}

// ---- enums

/// The line of an enum's value.
struct ValueLine;

impl ItemText for ValueLine {
    ghost text = { λ t s i. value_shown (value_of (item_at s i)) };

    fn write(&self, out: &mut Output<'_>, s: &Index<'_>, i: u32) {
        out.text(b"value\t");
        write_screaming(out, s.name(i));
        out.text(b"\t");
        out.text(s.second(i));
        out.text(b"\n");
    }
}

/// An enum: its line, and those of its values.
struct EnumLines;

impl ItemText for EnumLines {
    ghost text = { λ t s i. enum_shown (enum_of s i) };

    fn write(&self, out: &mut Output<'_>, s: &Index<'_>, i: u32) {
        out.text(b"enum\t");
        out.text(s.name(i));
        out.text(b"\n");
        write_under(out, s, VALUE, i, &ValueLine);
    }
}

// ---- composites

/// The line of a member.
struct MemberLine;

impl ItemText for MemberLine {
    ghost text = { λ t s i. part_shown (member_of (item_at s i)) };

    fn write(&self, out: &mut Output<'_>, s: &Index<'_>, i: u32) {
        out.text(b"part\t");
        write_own_kind(out, s, i);
        out.text(b"\t");
        write_snake(out, s.name(i));
        out.text(b"\n");
    }
}

/// The line of a ref.
struct RefLine;

impl ItemText for RefLine {
    ghost text = { λ t s i. part_shown (ref_of (item_at s i)) };

    fn write(&self, out: &mut Output<'_>, s: &Index<'_>, i: u32) {
        out.text(b"part\t");
        write_named(out, s.second(i));
        out.text(b"\t");
        write_snake(out, s.name(i));
        out.text(b"\n");
    }
}

/// Writes the line of a composite, and those of its members and refs.
fn write_composite(out: &mut Output<'_>, s: &Index<'_>, i: u32)
    ensures { Wrote out.old out.new (composite_shown (composite_of s.now i)) }
{
    out.text(b"composite\t");
    out.text(s.name(i));
    out.text(b"\n");
    write_under(out, s, MEMBER, i, &MemberLine);
    write_under(out, s, REF, i, &RefLine);
}

/// The lines of a composite, none if it is not printed.
struct CompositeLines;

impl ItemText for CompositeLines {
    ghost text = { λ t s i. composite_lines s i };

    fn write(&self, out: &mut Output<'_>, s: &Index<'_>, i: u32) {
        if is_printed(s.view(), i) {
            write_composite(out, s, i);
        }
    }
}

// ---- messages

/// The line of a field.
struct FieldLine;

impl ItemText for FieldLine {
    ghost text = { λ t s i. field_shown (field_of s (item_at s i)) };

    fn write(&self, out: &mut Output<'_>, s: &Index<'_>, i: u32) {
        let id = s.number(i);
        out.text(b"field\t");
        write_field_kind(out, s, i);
        out.text(b"\t");
        write_snake(out, s.name(i));
        out.text(b"\t");
        out.decimal(id);
        out.text(b"\n");
    }
}

/// Writes the line of a group, without its fields.
fn write_group_line(out: &mut Output<'_>, s: &Index<'_>, i: u32)
    ensures { Wrote out.old out.new (group_line s.now i) }
{
    let name = s.name(i);
    out.text(b"group\t");
    write_snake(out, name);
    out.text(b"\t");
    write_singular(out, name);
    out.text(b"\t");
    out.decimal(s.number(i));
    out.text(b"\n");
}

/// A group: its line, its fields, and `end`.
struct GroupLines;

impl ItemText for GroupLines {
    ghost text = { λ t s i. group_shown (group_of s i) };

    fn write(&self, out: &mut Output<'_>, s: &Index<'_>, i: u32) {
        write_group_line(out, s, i);
        write_under(out, s, FIELD, i, &FieldLine);
        out.text(b"end\n");
    }
}

/// A message: its line, its fields, and its groups.
struct MessageLines;

impl ItemText for MessageLines {
    ghost text = { λ t s i. message_shown (message_of s i) };

    fn write(&self, out: &mut Output<'_>, s: &Index<'_>, i: u32) {
        out.text(b"message\t");
        out.text(s.name(i));
        out.text(b"\t");
        out.decimal(s.number(i));
        out.text(b"\n");
        write_under(out, s, FIELD, i, &FieldLine);
        write_under(out, s, GROUP, i, &GroupLines);
    }
}

// ---- the whole sheet

/// Writes the line of package, id and version.
fn write_schema_line(out: &mut Output<'_>, s: &Index<'_>)
    ensures { Wrote out.old out.new (schema_line s.now) }
{
    out.text(b"schema\t");
    out.text(s.package());
    out.text(b"\t");
    out.decimal(s.id());
    out.text(b"\t");
    out.decimal(s.version());
    out.text(b"\n");
}

/// Writes the wire sheet of an indexed schema.
fn write_lines(out: &mut Output<'_>, s: &Index<'_>)
    ensures { Wrote out.old out.new (sheet_lines (sheet s.now)) }
{
    write_schema_line(out, s);
    write_all(out, s, ENUM, &EnumLines);
    write_all(out, s, COMPOSITE, &CompositeLines);
    write_all(out, s, MESSAGE, &MessageLines);
}

/// Writes the wire sheet of a schema.
pub fn write_sheet(out: &mut Output<'_>, schema: View<'_>)
    ensures { Wrote out.old out.new (sheet_lines (sheet schema.entry)) }
{
    // Proves that the array has room: a model has at most 1,024 items.
    let _count = schema.count();
    let mut links = [0u16; LINKS_1024];
    write_lines(out, &Index::of(schema, &mut links));
}
