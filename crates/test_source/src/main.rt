//! Replays recorded conversions: `stdin` holds documents, `stdout` the sources that the Rust made
//! of them.
//!
//! tests/compare makes the sample with the Rust reference alone, without the code under test;
//! `tests/run record` makes it again (tests/README.md). A line of input is the length of a document
//! in four hex digits, a space, and the document in hex. A line of the answer is number, offset,
//! place and n in decimal, then the n bytes of the source in hex: the whole source, or nothing
//! after a refusal.
#![tactic(auto)]

use std::io;
use test_replaying::{document_end, replay_document, replay_lines};
use xmltoproto::xml_to_proto;

fn replay(rt: &HostRuntime, line: &[u8]) -> io::Result<()> {
    replay_document(rt, line, xml_to_proto)
}

fn main(rt: HostRuntime) -> io::Result<()> {
    replay_lines(&rt, document_end, replay)
}
