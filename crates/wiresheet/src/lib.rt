//! The wire sheet of a schema, and whether two documents have the same source.
//!
//! `sheet::write_sheet` prints the lines of the sheet (specs/Sheet.antt). `same_source` converts
//! two documents and compares the outputs; its contract (specs/SameSource.antt) says that two plain
//! schemas (specs/Plain.antt) that are accepted and printed have the same source, byte for byte,
//! exactly when their wire sheets are equal.
#![tactic(auto)]

pub mod sheet;

ghost use Rattle.std.specs.Prelude.{◌↔◌, IsTrue};
ghost use Rattle.wiresheet.specs.SameSource.{Called, SameSource, Decides, Kept};
ghost use Rattle.wiresheet.specs.SameSource.{SourceTells, SheetTells};

use refusals::Refusal;
use texts::{equal, part};
use xmltoproto::xml_to_proto;

/// A document, and the two work buffers to read it with.
#[derive(Drop)]
pub struct Lent<'a> {
    pub document: &'a [u8],
    pub records: &'a mut [u32],
    pub text: &'a mut [u8],
}

/// What the converter answered for two documents, and whether it printed the same source for both.
pub struct Compared {
    pub first: Result<usize, Refusal>,
    pub second: Result<usize, Refusal>,
    pub same: bool,
}

/// Converts two documents and compares their sources, which are not the same where either is
/// refused. The buffers may hold anything; the caller has them and the documents again.
pub fn same_source(
    a: &mut Lent<'_>,
    out_a: &mut [u8],
    b: &mut Lent<'_>,
    out_b: &mut [u8],
) -> Compared
    ensures first { Called a.old out_a.old out_a.new result.first }
    ensures second { Called b.old out_b.old out_b.new result.second }
    ensures is { IsTrue result.same ↔ SameSource result.first out_a.new result.second out_b.new }
    ensures sheets { Decides a.old result.first out_a.new b.old result.second out_b.new }
    ensures kept_a { Kept a.old a.new }
    ensures kept_b { Kept b.old b.new }
{
    let first = xml_to_proto(a.document, a.records, a.text, out_a);
    let second = xml_to_proto(b.document, b.records, b.text, out_b);
    match (first, second) {
        (Ok(n), Ok(m)) => {
            let same = equal(part(out_a, 0, n), part(out_b, 0, m));
            Compared {
                first,
                second,
                same,
            }
        }
        _ => Compared {
            first,
            second,
            same: false,
        },
    }
}

/// The law of schemas that this rests on, which no code calls.
pub fn sources_tell()
    ensures source { SourceTells }
    ensures sheet { SheetTells }
{}
