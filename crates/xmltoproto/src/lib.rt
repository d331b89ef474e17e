//! From the XML of an SBE schema to annotated proto3 source.
//!
//! `xml_to_proto` is the entry: it reads the document into a model and hands it to `generate`,
//! which refuses arrays (40 and 41) and a source that does not fit (3), or writes the source. The
//! contracts hold on all inputs: the answer is that of specs/Convert.antt and Generate.antt, and
//! the output is the source of specs/Source.antt and then what stood there, or, after a refusal,
//! what it held.
//!
//! What prints an item takes the output, the index and the item's position; what prints a line
//! takes the line's parts. These are parameters, as a struct of them would be filled at each call
//! and read once.
#![tactic(auto)]

pub mod arrays;
mod bound;
pub mod composites;
mod enums;
mod line;
mod messages;
pub mod source;
pub mod types;
pub mod walk;

ghost use Rattle.std.specs.Prelude.{◌≡◌, ◌<◌, ◌^◌, leb, length, replicate};
ghost use Rattle.printing.specs.Printed.{Printed, past};
ghost use Rattle.index.specs.Blank.{Blank};
ghost use Rattle.xmltoproto.specs.Source.{source};
ghost use Rattle.xmltoproto.specs.Generate.{Generated};
ghost use Rattle.xmltoproto.specs.Convert.{Converts};

use crate::arrays::array_refusal;
use crate::bound::source_most;
use crate::source::write_source;
use index::seen::Index;
use index::{ITEMS_16, ITEMS_128, ITEMS_384, LINKS_16, LINKS_128, LINKS_384, LINKS_1024};
use model::view::View;
use printing::Output;
use refusals::Refusal;
use xmlschema::build::read_schema;

/// Writes the source into `out` and returns its length. What does not fit is counted, not written.
#[tactic(auto, unfolding(printing::specs::Written::written))]
fn print_source(s: &Index<'_>, out: &mut [u8]) -> usize
    ensures { Printed out.old 0 out.new result (source s.now) }
{
    let mut o = Output::new(out);
    write_source(&mut o, s);
    o.at
}

/// Whether the source fits in `room` bytes: by its bound where that is small enough, otherwise by
/// printing it into an empty slice.
fn has_room(s: &Index<'_>, room: usize) -> bool
    ensures { result ≡ leb (past 0 (source s.now)) room }
{
    if source_most(s) <= room {
        return true;
    }
    let mut none = [0u8; 0];
    print_source(s, &mut none) <= room
}

/// Refuses an array, then a source that does not fit, or writes the source.
fn generate_in(s: &Index<'_>, out: &mut [u8]) -> Result<usize, Refusal>
    ensures { Generated s.now out.old out.new result }
{
    array_refusal(s)?;
    if has_room(s, out.len()) {
        return Ok(print_source(s, out));
    }
    Err(Refusal::NoRoom)
}

/// `generate` with an index of `N` numbers.
fn generate_with<const N: usize>(schema: View<'_>, out: &mut [u8]) -> Result<usize, Refusal>
    requires { Blank schema (replicate N 0) × (N < 2 ^ 32) }
    ensures { Generated schema.entry out.old out.new result }
{
    let mut links = [0u16; N];
    let s = Index::of(schema, &mut links);
    generate_in(&s, out)
}

/// Writes the source of a schema and returns its length, or refuses by 40, 41 or 3 and leaves `out`
/// as it was.
pub fn generate(schema: View<'_>, out: &mut [u8]) -> Result<usize, Refusal>
    ensures { Generated schema.entry out.old out.new result }
{
    // The index's array is zeroed whole, so a small schema gets a small one.
    let n = schema.count();
    if n <= ITEMS_16 {
        return generate_with::<LINKS_16>(schema, out);
    }
    if n <= ITEMS_128 {
        return generate_with::<LINKS_128>(schema, out);
    }
    if n <= ITEMS_384 {
        return generate_with::<LINKS_384>(schema, out);
    }
    generate_with::<LINKS_1024>(schema, out)
}

/// Converts a document and returns the length of its source in `out`, or a refusal that leaves `out`
/// as it was. `records` needs 16,384 numbers and `text` 65,536 bytes (refusal 2); the
/// answer does not depend on what they hold, and what they hold afterwards is left open.
pub fn xml_to_proto(
    document: &[u8],
    records: &mut [u32],
    text: &mut [u8],
    out: &mut [u8],
) -> Result<usize, Refusal>
    ensures { Converts document.now (length records.old) (length text.old) out.old out.new result }
{
    let m = read_schema(document, records, text)?;
    generate(View::new(m, records, text), out)
}
