//! Prints enums.
//!
//! The name of each value begins with its enum's name in screaming snake case. This prefix is
//! converted once to measure it and once for the first value; the other values copy it from the
//! output.
#![tactic(auto, using(printing::proofs::Writing::writing))]

ghost use Rattle.std.specs.Prelude.{◌≡◌};
ghost use Rattle.printing.specs.Written.{Wrote};
ghost use Rattle.printing.specs.Printed.{past};
ghost use Rattle.names.specs.Conversions.{prefix_of};
ghost use Rattle.model.specs.Schema.{item_at};
ghost use Rattle.xmltoproto.specs.Source.{value_text, enum_text};
ghost use Rattle.xmltoproto.specs.internal.Parts.{Prefixed, value_texts};

use crate::walk::ItemText;
use index::seen::Index;
use model::VALUE;
use names::snake::write_screaming;
use printing::Output;

/// Writes the prefix of an enum's values: its name in screaming snake case, and `_`.
#[tactic(auto, unfolding(names::specs::Conversions::prefix_of), using(printing::proofs::Writing::writing))]
fn write_prefix(out: &mut Output<'_>, name: &[u8])
    ensures { Wrote out.old out.new (prefix_of name.now) }
{
    write_screaming(out, name);
    out.byte(b'_');
}

/// The length of the prefix, measured by printing it into an empty slice.
#[tactic(auto, unfolding(printing::specs::Written::written))]
fn prefix_width(name: &[u8]) -> usize
    ensures { result ≡ past 0 (prefix_of name.now) }
{
    let mut none = [0u8; 0];
    let mut o = Output::new(&mut none);
    write_prefix(&mut o, name);
    o.at
}

/// Writes a prefix of `width` bytes that stands in the output at `stood` already, or nowhere if
/// that is past the output's end. It is copied, or skipped where the output is full; the name is
/// converted again only for the first value and where the copy would not fit.
fn write_prefix_again(out: &mut Output<'_>, name: &[u8], width: usize, stood: usize)
    requires { Prefixed name.now width stood out.old }
    ensures { Wrote out.old out.new (prefix_of name.now) }
{
    if out.bytes.len() <= out.at {
        return out.skip(width);
    }
    if stood < out.bytes.len() && width <= out.bytes.len() - out.at {
        return out.again(stood, width);
    }
    write_prefix(out, name);
}

/// Writes the line of the value at `i` of the enum `name`; `width` and `stood` are as above.
#[tactic(auto, unfolding(crate::specs::Source::value_text), using(printing::proofs::Writing::writing))]
fn write_value(out: &mut Output<'_>, s: &Index<'_>, name: &[u8], width: usize, stood: usize, i: u32)
    requires { Prefixed name.now width stood out.old }
    ensures { Wrote out.old out.new (value_text name.now (item_at s.now i)) }
{
    out.text(b"  ");
    write_prefix_again(out, name, width, stood);
    write_screaming(out, s.name(i));
    out.text(b" = ");
    out.text(s.second(i));
    out.text(b";\n");
}

/// Writes the lines of the values of the enum at `e`, which has this name.
fn write_values(out: &mut Output<'_>, s: &Index<'_>, name: &[u8], e: u32)
    ensures { Wrote out.old out.new (value_texts s.now name.now e) }
{
    let width = prefix_width(name);
    // No prefix is printed yet.
    let mut stood = out.bytes.len();
    for i in s.children(VALUE, e) {
        // Where this value's prefix will stand, after the indent.
        let stands = out.after(2);
        write_value(out, s, name, width, stood, i);
        stood = stands;
    }
}

/// The text of an enum.
pub struct EnumText;

impl ItemText for EnumText {
    ghost text = { λ t s i. enum_text s i };

    #[tactic(auto, unfolding(crate::specs::Source::enum_text), using(printing::proofs::Writing::writing))]
    fn write(&self, out: &mut Output<'_>, s: &Index<'_>, i: u32) {
        let name = s.name(i);
        out.text(b"enum ");
        out.text(name);
        out.text(b" {\n");
        write_values(out, s, name, i);
        out.text(b"}\n\n");
    }
}
