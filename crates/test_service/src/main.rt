//! Runs the service (`service::serve`) on documents given in shorthand. A line of `stdin` is a
//! name, a count and three texts, tab-separated; its document is the first text, the second one
//! `count` times, and the third. For each line `stdout`, written by hand and not taken from a run,
//! has the name and the document's length, what is printed for it, and how many of its bytes were
//! not read.
//!
//! A read gives at most 1,000 bytes, and a write takes at most 100, as with a pipe; every second
//! write is interrupted. Proved safe and terminating, and no more.
#![tactic(auto)]

use inputs::read_full;
use numbers::number_of;
use printing::Output;
use service::serve;
use std::io::{self, ErrorKind, Read, Write};
use test_replaying::{ends_line, written};

/// A reader over a document that gives at most 1,000 bytes at a time.
#[derive(Clone, Copy)]
struct SlowReader<'a> {
    rest: &'a [u8],
}

impl Read for SlowReader<'_> {
    fn read(&mut self, buf: &mut [u8]) -> io::Result<usize> {
        let most = buf.len().min(1000);
        self.rest.read(&mut buf[..most])
    }
}

/// A writer that takes at most 100 bytes at a time, and whose every second write is interrupted,
/// the first one too.
#[derive(Drop)]
struct SlowWriter<W: Write + Drop> {
    output: W,
    is_interrupted: bool,
}

impl<W: Write + Drop> Write for SlowWriter<W> {
    fn write(&mut self, buf: &[u8]) -> io::Result<usize> {
        self.is_interrupted = !self.is_interrupted;
        if self.is_interrupted {
            return Err(io::Error::from(ErrorKind::Interrupted));
        }
        let most = buf.len().min(100);
        self.output.write(&buf[..most])
    }

    fn flush(&mut self) -> io::Result<()> {
        self.output.flush()
    }
}

fn is_tab(b: &u8) -> bool {
    *b == b'\t'
}

/// Writes the document of a line, and returns its name.
fn write_document<'a>(out: &mut Output<'_>, line: &'a [u8]) -> &'a [u8] {
    let mut parts = line.split(is_tab);
    let name = parts.next().unwrap_or(b"");
    let count = number_of(parts.next().unwrap_or(b"")).unwrap_or(0);
    out.text(parts.next().unwrap_or(b""));
    let again = parts.next().unwrap_or(b"");
    for _ in 0..count {
        out.text(again);
    }
    out.text(parts.next().unwrap_or(b""));
    name
}

fn replay(rt: &HostRuntime, line: &[u8]) -> io::Result<()> {
    let mut buffer = [0u8; 65536];
    let mut out = Output::new(&mut buffer);
    let name = write_document(&mut out, line);
    let document = written(&out);
    rt.write_all(name)?;
    let length = document.len();
    println!(rt; ": {length} bytes")?;
    let mut input = SlowReader { rest: document };
    let mut output = SlowWriter {
        output: rt.stdout(),
        is_interrupted: false,
    };
    serve(&mut input, &mut output)?;
    let left = input.rest.len();
    println!(rt; "left: {left}")
}

fn main(rt: HostRuntime) -> io::Result<()> {
    let mut cases = [0u8; 4096];
    let n = read_full(&mut rt.stdin(), &mut cases)?;
    for line in cases[..n].split(ends_line) {
        replay(&rt, line)?;
    }
    Ok(())
}
