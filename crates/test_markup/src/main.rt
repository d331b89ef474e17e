//! Replays recorded documents: `stdin` holds them, `stdout` the events that the Rust's reader gave.
//!
//! tests/compare makes the sample with the Rust reference alone, without the code under test;
//! `tests/run record` makes it again (tests/README.md). A line of input is the length of a document
//! in four hex digits, a space, and the document in hex. A line of the answer is number, offset,
//! place and n in decimal, then the n bytes of the events in hex, in the form of the crate
//! `test_probe`: all events, or those before the refusal.
#![tactic(auto)]

use printing::Output;
use std::io;
use test_replaying::{document_end, print_answer, replay_lines, write_document, written};
use texts::part;

fn replay(rt: &HostRuntime, line: &[u8]) -> io::Result<()> {
    let mut document = [0u8; 65536];
    let mut out = [0u8; 65536];
    let mut d = Output::new(&mut document);
    write_document(&mut d, line);
    let reading = test_probe::events(written(&d), &mut out);
    print_answer(rt, reading.refusal, reading.n, part(&out, 0, reading.n))
}

fn main(rt: HostRuntime) -> io::Result<()> {
    replay_lines(&rt, document_end, replay)
}
