//! Prints the wire sheets of documents: standard input holds the documents, separated by `%`, and
//! standard output gets the lines of their sheets, one sheet after the other.
//!
//! `stdout` is written by hand from `stdin`, so that the printer is held to what a reader finds. A
//! sheet begins with its `schema` line. A document that is refused gets the line of its refusal
//! instead.
#![tactic(auto)]

use inputs::read_full;
use model::view::View;
use printing::Output;
use refusals::Refusal;
use service::refusal_line;
use std::io;
use test_replaying::written;
use wiresheet::sheet::write_sheet;
use xmlschema::build::read_schema;

fn print_refusal(rt: &impl Print, r: Refusal) -> io::Result<()> {
    let mut line = [0u8; 65536];
    rt.write_all(refusal_line(r, &mut line))
}

fn print_sheet(rt: &impl Print, schema: View<'_>) -> io::Result<()> {
    let mut lines = [0u8; 65536];
    let mut out = Output::new(&mut lines);
    write_sheet(&mut out, schema);
    rt.write_all(written(&out))
}

/// Prints the sheet of a document, or the line of its refusal.
fn print_document(rt: &impl Print, document: &[u8]) -> io::Result<()> {
    let mut records = [0u32; 16384];
    let mut text = [0u8; 65536];
    match read_schema(document, &mut records, &mut text) {
        Err(r) => print_refusal(rt, r),
        Ok(m) => print_sheet(rt, View::new(m, &records, &text)),
    }
}

/// Whether the byte separates two documents; none of them has it.
fn ends_document(b: &u8) -> bool {
    *b == b'%'
}

fn main(rt: HostRuntime) -> io::Result<()> {
    let mut input = [0u8; 65536];
    let n = read_full(&mut rt.stdin(), &mut input)?;
    for document in input[..n].split(ends_document) {
        print_document(&rt, document)?;
    }
    Ok(())
}
