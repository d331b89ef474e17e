//! Replays recorded name conversions: `stdin` holds the inputs, `stdout` what the Rust answered.
//!
//! tests/compare makes the sample with the Rust reference alone, without the code under test;
//! `tests/run record` makes it again (tests/README.md). A line of input is
//!
//!     C RRRR PPPP VVVV EEEE NAMES
//!
//! C is the conversion: `n` snake, `c` camel, `u` screaming, `p` pascal, `s` singular, `x` and any
//! other byte without the enum's prefix. The four numbers have four hex digits each: the room of the
//! output; how many `_` stand before the name, which keeps the lines of long names short; how many
//! bytes of the name follow them; and the length of the enum's name. NAMES is the bytes of both in
//! hex.
//!
//! A line of the answer is number, offset, place and n in decimal, then the whole output in hex.
//! The output is filled with `#` beforehand, and so shows what a refusal leaves and what stands
//! behind the text.
#![tactic(auto)]

ghost use Rattle.std.specs.Prelude.{◌<◌};

use names::entry::{
    camel_to_screaming_snake, camel_to_snake, screaming_snake_to_pascal, singular_pascal,
    snake_to_camel, strip_enum_prefix,
};
use printing::Output;
use refusals::Refusal;
use std::io;
use test_replaying::{hex_number, print_answer, replay_lines, write_unhexed, written};
use texts::{byte_at, part};

/// Where the four numbers and the names begin in a line.
const ROOM: usize = 2;

const PAD: usize = 7;

const VALUE: usize = 12;

const ENUM: usize = 17;

const NAMES: usize = 22;

/// The conversion that a line asks for.
#[derive(Clone, Copy)]
enum Conversion {
    Snake,
    Camel,
    Screaming,
    Pascal,
    Singular,
    Stripped,
}

impl Conversion {
    /// The conversion that a letter stands for, or any other byte.
    fn of(letter: u8) -> Conversion {
        match letter {
            b'n' => Conversion::Snake,
            b'c' => Conversion::Camel,
            b'u' => Conversion::Screaming,
            b'p' => Conversion::Pascal,
            b's' => Conversion::Singular,
            _ => Conversion::Stripped,
        }
    }

    /// The answer of the entry under test.
    fn convert(self, value: &[u8], enum_name: &[u8], out: &mut [u8]) -> Result<usize, Refusal> {
        match self {
            Conversion::Snake => camel_to_snake(value, out),
            Conversion::Camel => snake_to_camel(value, out),
            Conversion::Screaming => camel_to_screaming_snake(value, out),
            Conversion::Pascal => screaming_snake_to_pascal(value, out),
            Conversion::Singular => singular_pascal(value, out),
            Conversion::Stripped => strip_enum_prefix(value, enum_name, out),
        }
    }
}

/// Converts into `out`, filled with `#` beforehand, and prints the answer and all of `out`.
fn replay(
    rt: &HostRuntime,
    asked: Conversion,
    value: &[u8],
    enum_name: &[u8],
    out: &mut [u8],
) -> io::Result<()> {
    out.fill(b'#');
    let answer = asked.convert(value, enum_name, out);
    print_answer(rt, answer.err(), answer.unwrap_or(0), out)
}

/// Writes the name of a line: as many `_` as it says, then the bytes in `hex`.
fn write_value(out: &mut Output<'_>, line: &[u8], hex: &[u8]) {
    for _ in 0..hex_number(part(line, PAD, 4)) {
        out.byte(b'_');
    }
    write_unhexed(out, hex);
}

/// How many hex digits a name has, by the number at `at` in a line.
fn digits_at(line: &[u8], at: usize) -> usize
    ensures { result < 131072 }
{
    2 * hex_number(part(line, at, 4))
}

/// Where the last byte of a line stands, right behind the names.
fn line_end(line: &[u8]) -> usize {
    NAMES + digits_at(line, VALUE) + digits_at(line, ENUM)
}

/// Replays a line; no line asks for more room than there is.
fn replay_line(rt: &HostRuntime, line: &[u8]) -> io::Result<()> {
    let mut value = [0u8; 65536];
    let mut enum_name = [0u8; 65536];
    let mut out = [0u8; 65536];
    let v = digits_at(line, VALUE);
    let e = digits_at(line, ENUM);
    let mut value_out = Output::new(&mut value);
    write_value(&mut value_out, line, part(line, NAMES, v));
    let mut enum_out = Output::new(&mut enum_name);
    write_unhexed(&mut enum_out, part(line, NAMES + v, e));
    replay(
        rt,
        Conversion::of(byte_at(line, 0)),
        written(&value_out),
        written(&enum_out),
        &mut out[..hex_number(part(line, ROOM, 4))],
    )
}

fn main(rt: HostRuntime) -> io::Result<()> {
    replay_lines(&rt, line_end, replay_line)
}
