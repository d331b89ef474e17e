//! What the programs that replay recorded answers share (tests/README.md): reading lines, and hex.
//!
//! A line of input has numbers of four hex digits, and bytes in hex. The numbers say where it ends:
//! no line feed is looked for. A line of output is an answer: number, offset, place and n in
//! decimal, then bytes in hex. The contracts promise safety and termination, and little more.
#![tactic(auto)]

ghost use Rattle.std.specs.Prelude.{◌<◌, ◌≤◌};

use escaping::hex_digit;
use inputs::read_full;
use printing::Output;
use refusals::Refusal;
use std::io;
use texts::{byte_at, part};

/// The value of a hex digit in lower case; any other byte counts as 0.
fn digit(b: u8) -> u8
    ensures { result < 16 }
{
    match b {
        b'0'..=b'9' => b - 48,
        b'a'..=b'f' => b - 87,
        _ => 0,
    }
}

fn hex_byte(high: u8, low: u8) -> u8 {
    digit(high) * 16 + digit(low)
}

/// The number that the first four bytes stand for, as hex digits.
pub fn hex_number(s: &[u8]) -> usize
    ensures { result < 65536 }
{
    let high = hex_byte(byte_at(s, 0), byte_at(s, 1));
    let low = hex_byte(byte_at(s, 2), byte_at(s, 3));
    usize::from(high) * 256 + usize::from(low)
}

/// Writes the bytes that `hex` stands for, one for each two digits.
pub fn write_unhexed(out: &mut Output<'_>, hex: &[u8]) {
    for pair in hex.chunks(2) {
        out.byte(hex_byte(byte_at(pair, 0), byte_at(pair, 1)));
    }
}

fn write_hex(out: &mut Output<'_>, s: &[u8]) {
    for b in s {
        out.byte(hex_digit(*b / 16));
        out.byte(hex_digit(*b % 16));
    }
}

/// The bytes written to an output so far.
pub fn written<'a>(out: &'a Output<'_>) -> &'a [u8] {
    part(out.bytes, 0, out.at)
}

/// Prints up to 32,767 bytes in hex, and a line feed.
fn print_hex(rt: &impl Print, s: &[u8]) -> io::Result<()> {
    let mut line = [0u8; 65536];
    let mut out = Output::new(&mut line);
    write_hex(&mut out, s);
    out.byte(b'\n');
    rt.write_all(written(&out))
}

/// Prints an answer: number, offset and place of the refusal, 0 where there is none, `n`, and `s`
/// in hex.
pub fn print_answer(
    rt: &impl Print,
    refusal: Option<Refusal>,
    n: usize,
    s: &[u8],
) -> io::Result<()> {
    let (number, offset, place) = match refusal {
        Some(r) => (r.number(), r.offset(), r.place()),
        None => (0, 0, 0),
    };
    print!(rt; "{number} {offset} {place} {n} ")?;
    print_hex(rt, s)
}

/// Whether the byte ends a line.
pub fn ends_line(b: &u8) -> bool {
    *b == b'\n'
}

/// Calls `replay` at the beginning of each line of standard input, which is read up to 65,536 bytes,
/// on all that is left of it. `end` says where a line's last byte stands.
pub fn replay_lines<E, F>(rt: &HostRuntime, end: E, replay: F) -> io::Result<()>
where
    E: Fn(&[u8]) -> usize,
    F: Fn(&HostRuntime, &[u8]) -> io::Result<()>,
    requires ends { E.IsAlwaysCallable end }
    requires replays { F.IsAlwaysCallable replay }
{
    let mut input = [0u8; 65536];
    let n = read_full(&mut rt.stdin(), &mut input)?;
    let mut rest = &input[..n];
    // `while`: a line tells its own length, so the step is not 1.
    while !rest.is_empty() {
        replay(rt, rest)?;
        let last = end(rest).min(rest.len() - 1);
        rest = &rest[last + 1..];
    }
    Ok(())
}

/// Where the document begins in a line that has nothing else: behind its length in four hex digits
/// and a space.
const DOCUMENT: usize = 5;

/// Where the last byte of such a line stands, right behind the document.
pub fn document_end(line: &[u8]) -> usize
    ensures { result ≤ 131075 }
{
    DOCUMENT + 2 * hex_number(line)
}

/// Writes the document of such a line.
pub fn write_document(out: &mut Output<'_>, line: &[u8]) {
    write_unhexed(out, part(line, DOCUMENT, 2 * hex_number(line)));
}

/// Calls `convert` on the document of such a line, and prints the answer with the bytes that it
/// wrote.
pub fn replay_document<F>(rt: &HostRuntime, line: &[u8], convert: F) -> io::Result<()>
where
    F: Fn(&[u8], &mut [u32], &mut [u8], &mut [u8]) -> Result<usize, Refusal>,
    requires { F.IsAlwaysCallable convert }
{
    let mut document = [0u8; 65536];
    let mut records = [0u32; 16384];
    let mut text = [0u8; 65536];
    let mut out = [0u8; 65536];
    let mut d = Output::new(&mut document);
    write_document(&mut d, line);
    let answer = convert(written(&d), &mut records, &mut text, &mut out);
    let n = answer.unwrap_or(0);
    print_answer(rt, answer.err(), n, part(&out, 0, n))
}
