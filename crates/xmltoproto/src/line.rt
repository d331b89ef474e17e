//! Prints one line of a message or composite: its comment, type, name, number and option.
#![tactic(auto, using(printing::proofs::Writing::writing))]

ghost use Rattle.std.specs.Prelude.{◌++◌, ◌<◌};
ghost use Rattle.texts.specs.Choice.{pick};
ghost use Rattle.texts.specs.Text.{ascii};
ghost use Rattle.printing.specs.Decimal.{decimal};
ghost use Rattle.printing.specs.Written.{Wrote};
ghost use Rattle.model.specs.Schema.{item_at};
ghost use Rattle.xmltoproto.specs.Types.{note_on};
ghost use Rattle.xmltoproto.specs.Source.{note_line, bracketed};
ghost use Rattle.xmltoproto.specs.internal.Parts.{indent_of, line_middle, shaped, formed};
ghost use Rattle.xmltoproto.specs.internal.Shapes.{note_in, word_in, option_in};
ghost use Rattle.xmltoproto.specs.internal.Shapes.{length_option, encoding_option};

use crate::types::{Shape, shape_of};
use escaping::write_quoted;
use index::seen::Index;
use names::snake::write_snake;
use printing::Output;

/// Writes the indent of a line, in a group or in a message.
fn write_indent(out: &mut Output<'_>, in_group: bool)
    ensures { Wrote out.old out.new (indent_of in_group) }
{
    if in_group {
        out.text(b"    ");
    } else {
        out.text(b"  ");
    }
}

/// Writes a number below 100.
fn write_tens(out: &mut Output<'_>, n: u32)
    requires { n < 100 }
    ensures { Wrote out.old out.new (decimal n) }
{
    if n < 10 {
        out.byte(48 + n as u8);
    } else {
        out.byte(48 + (n / 10) as u8);
        out.byte(48 + (n % 10) as u8);
    }
}

/// Writes a number: below 1,000, as most are, without the recursion of `Output::decimal`.
#[inline(always)]
fn write_number(out: &mut Output<'_>, n: u32)
    ensures { Wrote out.old out.new (decimal n) }
{
    if n < 100 {
        write_tens(out, n);
    } else if n < 1000 {
        write_tens(out, n / 10);
        out.byte(48 + (n % 10) as u8);
    } else {
        out.decimal(n);
    }
}

/// Writes the comment that names an encoding. Out of line: few lines have one.
#[cold]
#[inline(never)]
fn write_foreign(out: &mut Output<'_>, in_group: bool, encoding: &[u8])
    ensures { Wrote out.old out.new (note_line (indent_of in_group) (note_on encoding.now)) }
{
    write_indent(out, in_group);
    out.text(b"// SBE characterEncoding ");
    write_quoted(out, encoding);
    out.text(b" is not UTF-8 compatible, so this field is bytes.\n");
}

/// Writes the comment line of a shape, if it has one.
#[tactic(auto, unfolding(crate::specs::Source::note_line), using(printing::proofs::Writing::writing))]
fn write_note(out: &mut Output<'_>, in_group: bool, shape: Shape, encoding: &[u8])
    ensures { Wrote out.old out.new (note_line (indent_of in_group) (note_in shape encoding.now)) }
{
    match shape {
        Shape::Foreign(_) => write_foreign(out, in_group, encoding),
        Shape::Text(_) => (),
        Shape::Raw(_) => (),
        Shape::Signed => (),
        Shape::Unsigned => (),
        Shape::Plain => (),
    }
}

/// Writes one of two texts.
fn write_either(out: &mut Output<'_>, first: bool, a: &[u8], b: &[u8])
    ensures { Wrote out.old out.new (pick first a.now b.now) }
{
    if first {
        out.text(a);
    } else {
        out.text(b);
    }
}

/// Writes the indent, the proto type and a space: as one text where the type is known, so that room
/// is tested once.
fn write_front(out: &mut Output<'_>, in_group: bool, shape: Shape, primitive: &[u8])
    ensures { Wrote out.old out.new (indent_of in_group ++ word_in shape primitive.now ++ ascii " ") }
{
    match shape {
        Shape::Text(_) => write_either(out, in_group, b"    string ", b"  string "),
        Shape::Foreign(_) => write_either(out, in_group, b"    bytes ", b"  bytes "),
        Shape::Raw(_) => write_either(out, in_group, b"    bytes ", b"  bytes "),
        Shape::Signed => write_either(out, in_group, b"    int32 ", b"  int32 "),
        Shape::Unsigned => write_either(out, in_group, b"    uint32 ", b"  uint32 "),
        Shape::Plain => {
            write_indent(out, in_group);
            out.text_then(primitive, b' ');
        }
    }
}

/// Writes the number of a line, after its name.
fn write_numbered(out: &mut Output<'_>, n: u32)
    ensures { Wrote out.old out.new (ascii " = " ++ decimal n) }
{
    if n < 10 {
        out.text_then(b" = ", 48 + n as u8);
    } else {
        out.text(b" = ");
        write_number(out, n);
    }
}

/// Writes the option that gives a length, and ends the line.
fn write_length(out: &mut Output<'_>, n: u32)
    ensures { Wrote out.old out.new (length_option n ++ ascii ";\n") }
{
    out.text(b" [(sbe.length) = ");
    write_number(out, n);
    out.text(b"];\n");
}

/// Writes the option that names the primitive, and ends the line.
fn write_encoding(out: &mut Output<'_>, primitive: &[u8])
    ensures { Wrote out.old out.new (encoding_option primitive.now ++ ascii ";\n") }
{
    out.text(b" [(sbe.encoding) = \"");
    out.text(primitive);
    out.text(b"\"];\n");
}

/// Writes the option of a shape, if it has one, and ends the line.
#[tactic(auto, unfolding(crate::specs::Source::bracketed, crate::specs::internal::Shapes::length_option, crate::specs::internal::Shapes::encoding_option), using(printing::proofs::Writing::writing))]
fn write_end(out: &mut Output<'_>, shape: Shape, primitive: &[u8])
    ensures { Wrote out.old out.new (bracketed (option_in shape primitive.now) ++ ascii ";\n") }
{
    match shape {
        Shape::Text(n) => write_length(out, n),
        Shape::Foreign(n) => write_length(out, n),
        Shape::Raw(n) => write_length(out, n),
        Shape::Signed => write_encoding(out, primitive),
        Shape::Unsigned => write_encoding(out, primitive),
        Shape::Plain => out.text(b";\n"),
    }
}

/// Writes a line from its indent to its number, with the name in snake case. A local `Output` over
/// the same loan keeps the position in a register.
#[tactic(auto, unfolding(printing::specs::Written::written), using(printing::proofs::Writing::writing))]
fn write_middle(
    out: &mut Output<'_>,
    in_group: bool,
    shape: Shape,
    primitive: &[u8],
    name: &[u8],
    number: u32,
)
    ensures { Wrote out.old out.new (line_middle in_group shape primitive.now name.now number) }
{
    let mut o = Output {
        bytes: out.bytes,
        at: out.at,
    };
    write_front(&mut o, in_group, shape, primitive);
    write_snake(&mut o, name);
    write_numbered(&mut o, number);
    out.at = o.at;
}

/// Writes the whole line of a shape over a primitive and an encoding.
pub fn write_line(
    out: &mut Output<'_>,
    in_group: bool,
    shape: Shape,
    primitive: &[u8],
    encoding: &[u8],
    name: &[u8],
    number: u32,
)
    ensures { Wrote out.old out.new (shaped in_group shape primitive.now encoding.now name.now number) }
{
    write_note(out, in_group, shape, encoding);
    write_middle(out, in_group, shape, primitive, name, number);
    write_end(out, shape, primitive);
}

/// Writes the line of the type or member at `i`, under the given name and number.
#[tactic(auto, unfolding(crate::specs::Types::form_of), using(printing::proofs::Writing::writing))]
#[inline(always)]
pub fn write_formed(
    out: &mut Output<'_>,
    s: &Index<'_>,
    in_group: bool,
    i: u32,
    name: &[u8],
    number: u32,
)
    ensures { Wrote out.old out.new (formed in_group (item_at s.now i) name.now number) }
{
    let primitive = s.second(i);
    let encoding = s.encoding(i);
    let shape = shape_of(primitive, s.size(i), encoding);
    write_line(out, in_group, shape, primitive, encoding, name, number);
}
