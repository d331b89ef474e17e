//! The static library: the converter and the six name conversions for C (include/sbe.h).
//!
//! Each function answers the refusal's number, 0 for accepted, and always sets `offset`, `place`
//! and `n`. Its contract gives these four numbers and every byte of the output, on all inputs
//! (specs/Report.antt). The header says what C must hand over; a null pointer with the length 0
//! comes in as an empty slice. Loose parameters, not structs: they are those of the C declarations.
//! The name conversions are written out one by one, as no macro may write a function.
#![tactic(auto, using(crate::proofs::Reporting::laws))]

ghost use Rattle.std.specs.Prelude.{◌≡◌, length};
ghost use Rattle.names.specs.Conversions.{camel_to_snake, snake_to_camel, singular_pascal};
ghost use Rattle.names.specs.Conversions.{camel_to_screaming_snake, screaming_snake_to_pascal};
ghost use Rattle.names.specs.Conversions.{strip_enum_prefix};
ghost use Rattle.names.specs.Entry.{tested, tested_two};
ghost use Rattle.xmlschema.specs.Whole.{answer_of};
ghost use Rattle.sbe.specs.Report.{NameReports, ConversionReports};

use names::entry::{
    camel_to_screaming_snake, camel_to_snake, screaming_snake_to_pascal, singular_pascal,
    snake_to_camel, strip_enum_prefix,
};
use refusals::report;
use xmltoproto::xml_to_proto;

/// Converts a document: its proto3 source, or its refusal. `records` and `text` are work buffers.
#[unsafe(no_mangle)]
pub extern "C" fn sbe_xml_to_proto(
    document: &[u8],
    records: &mut [u32],
    text: &mut [u8],
    output: &mut [u8],
    offset: &mut usize,
    place: &mut usize,
    n: &mut usize,
) -> u32
    ensures { ConversionReports (answer_of document.now (length records.old) (length text.old))
        output.old output.new result offset.new place.new n.new }
{
    let converted = xml_to_proto(document, records, text, output);
    report(converted, offset, place, n)
}

/// `names::entry::camel_to_snake` for C.
#[unsafe(no_mangle)]
pub extern "C" fn sbe_camel_to_snake(
    name: &[u8],
    output: &mut [u8],
    offset: &mut usize,
    place: &mut usize,
    n: &mut usize,
) -> u32
    ensures { NameReports (tested name.now) (camel_to_snake name.now) output.old
        output.new result offset.new place.new n.new }
{
    report(camel_to_snake(name, output), offset, place, n)
}

/// `names::entry::snake_to_camel` for C.
#[unsafe(no_mangle)]
pub extern "C" fn sbe_snake_to_camel(
    name: &[u8],
    output: &mut [u8],
    offset: &mut usize,
    place: &mut usize,
    n: &mut usize,
) -> u32
    ensures { NameReports (tested name.now) (snake_to_camel name.now) output.old
        output.new result offset.new place.new n.new }
{
    report(snake_to_camel(name, output), offset, place, n)
}

/// `names::entry::camel_to_screaming_snake` for C.
#[unsafe(no_mangle)]
pub extern "C" fn sbe_camel_to_screaming_snake(
    name: &[u8],
    output: &mut [u8],
    offset: &mut usize,
    place: &mut usize,
    n: &mut usize,
) -> u32
    ensures { NameReports (tested name.now) (camel_to_screaming_snake name.now) output.old
        output.new result offset.new place.new n.new }
{
    report(camel_to_screaming_snake(name, output), offset, place, n)
}

/// `names::entry::screaming_snake_to_pascal` for C.
#[unsafe(no_mangle)]
pub extern "C" fn sbe_screaming_snake_to_pascal(
    name: &[u8],
    output: &mut [u8],
    offset: &mut usize,
    place: &mut usize,
    n: &mut usize,
) -> u32
    ensures { NameReports (tested name.now) (screaming_snake_to_pascal name.now) output.old
        output.new result offset.new place.new n.new }
{
    report(screaming_snake_to_pascal(name, output), offset, place, n)
}

/// `names::entry::singular_pascal` for C.
#[unsafe(no_mangle)]
pub extern "C" fn sbe_singular_pascal(
    name: &[u8],
    output: &mut [u8],
    offset: &mut usize,
    place: &mut usize,
    n: &mut usize,
) -> u32
    ensures { NameReports (tested name.now) (singular_pascal name.now) output.old
        output.new result offset.new place.new n.new }
{
    report(singular_pascal(name, output), offset, place, n)
}

/// `names::entry::strip_enum_prefix` for C.
#[unsafe(no_mangle)]
pub extern "C" fn sbe_strip_enum_prefix(
    value: &[u8],
    enum_name: &[u8],
    output: &mut [u8],
    offset: &mut usize,
    place: &mut usize,
    n: &mut usize,
) -> u32
    ensures { NameReports (tested_two value.now enum_name.now)
        (strip_enum_prefix value.now enum_name.now) output.old
        output.new result offset.new place.new n.new }
{
    report(
        strip_enum_prefix(value, enum_name, output),
        offset,
        place,
        n,
    )
}
