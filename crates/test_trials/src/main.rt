//! Runs the worked examples of the converter, those that are proved (crates/trials) and the others.
//! `stdout`, written by hand, says what each must give.
//!
//! A line is tab-separated: the input, then `accepted` and the length of the output, or `refused`,
//! number, offset and place. The output follows for a name, and for a document where it is asked
//! for.
#![tactic(auto)]

use names::entry::{camel_to_screaming_snake, camel_to_snake, singular_pascal};
use refusals::Refusal;
use service::refusal_line;
use std::io;
use texts::part;
use xmltoproto::xml_to_proto;

/// Prints the line of an input and its answer.
fn print_answer(rt: &impl Print, input: &[u8], answer: Result<usize, Refusal>) -> io::Result<()> {
    rt.write_all(input)?;
    match answer {
        Ok(n) => println!(rt; "\taccepted\t{n}"),
        Err(r) => {
            let mut line = [0u8; 65536];
            rt.write_all(b"\t")?;
            rt.write_all(refusal_line(r, &mut line))
        }
    }
}

/// Converts a name, and prints its line and, on a line of its own, the output.
fn name<F>(rt: &impl Print, input: &[u8], convert: F) -> io::Result<()>
where
    F: Fn(&[u8], &mut [u8]) -> Result<usize, Refusal>,
    requires { F.IsAlwaysCallable convert }
{
    let mut output = [0u8; 64];
    let answer = convert(input, &mut output);
    print_answer(rt, input, answer)?;
    rt.write_all(part(&output, 0, answer.unwrap_or(0)))?;
    println!(rt; "")
}

/// Converts a document, with an output of `room` bytes, and prints its line and, if `shown`, the
/// source.
fn document(rt: &impl Print, input: &[u8], room: usize, shown: bool) -> io::Result<()> {
    let mut records = [0u32; 16384];
    let mut text = [0u8; 65536];
    let mut output = [0u8; 65536];
    let lent = &mut output[..room.min(65536)];
    let answer = xml_to_proto(input, &mut records, &mut text, lent);
    print_answer(rt, input, answer)?;
    if shown {
        rt.write_all(part(lent, 0, answer.unwrap_or(0)))?;
    }
    Ok(())
}

/// Converts a document, with an output of 65,536 bytes, and prints its line alone.
fn answered(rt: &impl Print, input: &[u8]) -> io::Result<()> {
    document(rt, input, 65536, false)
}

fn names(rt: &impl Print) -> io::Result<()> {
    name(rt, b"MDEntryPx", camel_to_snake)?;
    name(rt, b"orderID", camel_to_snake)?;
    name(rt, b"leg2ID", camel_to_snake)?;
    name(rt, b"MDEntryPx", camel_to_screaming_snake)?;
    name(rt, b"entries", singular_pascal)?;
    name(rt, b"s", singular_pascal)?;
    name(rt, b"ies", singular_pascal)?;
    name(rt, b"class", singular_pascal)
}

fn numbers(rt: &impl Print) -> io::Result<()> {
    document(rt, b"<messageSchema id='+7'/>", 65536, true)?;
    answered(rt, b"<messageSchema id='4294967296'/>")?;
    answered(rt, b"<messageSchema id='+'/>")?;
    answered(rt, b"<messageSchema id='-0'/>")?;
    answered(rt, b"<messageSchema id=' 7'/>")
}

fn markup(rt: &impl Print) -> io::Result<()> {
    answered(rt, b"</>")?;
    answered(rt, b"<")?;
    answered(rt, b"<a b>")?;
    answered(rt, b"<!-->")?;
    answered(rt, b"<a/ >")?;
    answered(rt, b"<a><b></a>")
}

/// The empty document has a source of 108 bytes.
fn lengths(rt: &impl Print) -> io::Result<()> {
    document(rt, b"", 65536, true)?;
    document(rt, b"", 108, false)?;
    document(rt, b"", 107, true)
}

fn arrays(rt: &impl Print) -> io::Result<()> {
    answered(rt, b"<type name='pair' primitiveType='uint16' length='2'/>")?;
    answered(
        rt,
        b"<composite name='messageHeader'><type name='pair' primitiveType='uint16' length='2'/></composite>",
    )?;
    answered(
        rt,
        b"<composite name='Price'><type name='pair' primitiveType='uint16' length='2'/></composite>",
    )
}

fn main(rt: HostRuntime) -> io::Result<()> {
    names(&rt)?;
    numbers(&rt)?;
    markup(&rt)?;
    lengths(&rt)?;
    arrays(&rt)
}
