//! The program's work: a document in, its source or the line of its refusal out.
//!
//! `reply` gives every byte that is printed for a document. `serve` reads the document from any
//! reader and writes the reply to any writer; the program passes in its own. A refusal is one
//! line: `refused`, number, offset and place, separated by tabs.
//!
//! Up to 32,769 bytes are read, one more than a document may have, so that a longer one is
//! refused (1).
#![tactic(auto)]

ghost use Rattle.std.specs.Prelude.{◌≡◌, List, ℕ, OnOk, OnErr};
ghost use Rattle.std.specs.Io.KnownBytes.{Appends};
ghost use Rattle.printing.specs.Decimal.{decimal};
ghost use Rattle.printing.specs.Written.{Wrote};
ghost use Rattle.service.specs.Printed.{figures_line, refusal_line, printed};
ghost use Rattle.service.specs.Served.{Served, CutOff, Front};

use inputs::read_full;
use printing::{Output, Print, finish};
use refusals::Refusal;
use std::io::{self, ErrorKind, Read, Write};
use texts::part;
use xmltoproto::xml_to_proto;

/// Prints `n` in decimal. `Output::decimal` takes a `u32`, whose digits take fewer instructions;
/// offsets and places are `usize`.
fn write_number(out: &mut Output<'_>, n: usize)
    ensures { Wrote out.old out.new (decimal n) }
{
    if n < 10 {
        out.byte(48 + n as u8);
    } else {
        write_number(out, n / 10);
        out.byte(48 + (n % 10) as u8);
    }
}

/// The line of a refusal, by its figures.
#[derive(Clone, Copy)]
struct Line {
    number: u32,
    offset: usize,
    place: usize,
}

impl Print for Line {
    ghost text = { λ l. figures_line l.number l.offset l.place };

    #[tactic(auto, using(printing::proofs::Writing::writing))]
    fn print(&self, out: &mut Output<'_>) {
        out.text(b"refused\t");
        out.decimal(self.number);
        out.text(b"\t");
        write_number(out, self.offset);
        out.text(b"\t");
        write_number(out, self.place);
        out.text(b"\n");
    }
}

/// The line of `refusal`, printed into `output`.
pub fn refusal_line<'a>(refusal: Refusal, output: &'a mut [u8; 65536]) -> &'a [u8]
    ensures { result.now ≡ refusal_line refusal }
{
    let number = refusal.number();
    let offset = refusal.offset();
    let place = refusal.place();
    let line = Line {
        number,
        offset,
        place,
    };
    // `finish` always succeeds: a line is shorter than `output`.
    let n = finish(&line, output).unwrap_or(0);
    part(output, 0, n)
}

/// What the program prints for `document`: the source, or the line of the refusal. What the buffers
/// hold does not matter.
pub fn reply<'a>(
    document: &[u8],
    records: &mut [u32; 16384],
    text: &mut [u8; 65536],
    output: &'a mut [u8; 65536],
) -> &'a [u8]
    ensures { result.now ≡ printed document.now }
{
    match xml_to_proto(document, records, text, output) {
        Ok(n) => part(output, 0, n),
        Err(refusal) => refusal_line(refusal, output),
    }
}

/// How many more writes than a text has bytes `write_whole` makes at most.
const INTERRUPTIONS: usize = 64;

/// Writes all of `text`, or a prefix of it if a write fails. After an interrupted write it goes on,
/// as std's `write_all` does for the standard output, until its writes are used up. A write that
/// takes no bytes fails with `WriteZero`.
fn write_whole<W: Write>(output: &mut W, text: &[u8]) -> io::Result<()>
    ensures all { OnOk result (Appends (W.contents output.old) (W.contents output.new) text.now) }
    ensures front { OnErr result
        ((n : ℕ) × Front (W.contents output.old) (W.contents output.new) text.now n) }
{
    let mut done = 0;
    let mut calls = text.len().saturating_add(INTERRUPTIONS);
    // `while`: a write may take fewer bytes than given, so the step is not 1.
    while done < text.len() {
        if calls == 0 {
            return Err(io::Error::from(ErrorKind::Interrupted));
        }
        calls -= 1;
        match output.write(&text[done..]) {
            Ok(0) => return Err(io::Error::from(ErrorKind::WriteZero)),
            Ok(n) => done += n,
            Err(e) if e.kind() == ErrorKind::Interrupted => {}
            Err(e) => return Err(e),
        }
    }
    Ok(())
}

/// Reads a document from `input`, and writes the reply to `output`. Fails with their first error,
/// but for interrupted writes, of which there may be 64 at least: after an error of `input` nothing
/// is written, after one of `output` a prefix of the reply.
pub fn serve<R: Read, W: Write>(input: &mut R, output: &mut W) -> io::Result<()>
    ensures served { OnOk result (Served (R.remaining input.old) (R.remaining input.new)
        (W.contents output.old) (W.contents output.new)) }
    ensures cut { OnErr result (CutOff (R.remaining input.old) (R.remaining input.new)
        (W.contents output.old) (W.contents output.new)) }
{
    let mut document = [0u8; 32769];
    let mut records = [0u32; 16384];
    let mut text = [0u8; 65536];
    let mut out = [0u8; 65536];
    let n = read_full(input, &mut document)?;
    let told = reply(&document[..n], &mut records, &mut text, &mut out);
    write_whole(output, told)
}
