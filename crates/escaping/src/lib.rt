//! Debug escaping: a text as Rust's `{:?}` quotes it (`quoted`, specs/Escape.antt).
//!
//! Runs of bytes that stand for themselves are copied whole, and the others escaped one by one. For
//! a long text the lengths of the escapes are noted in a lookup table first.
#![tactic(auto)]

ghost use Rattle.std.specs.Prelude.{◌≡◌, Bool, true, false, [], ◌∷◌, ◌++◌, ℕ};
ghost use Rattle.std.specs.Prelude.{◌+◌, ◌-◌, ◌≤◌, ◌<◌, length, slice_index_or};
ghost use Rattle.texts.specs.Text.{ascii};
ghost use Rattle.texts.specs.Lists.{each};
ghost use Rattle.printing.specs.Printed.{Printed};
ghost use Rattle.printing.specs.Written.{Wrote};
ghost use Rattle.escaping.specs.Escape.{hex_digit, hex, escaped, quoted};
ghost use Rattle.escaping.specs.internal.Escaping.{shown_as, stands, NotesLengths};

use printing::Output;
use texts::part;
use texts::scan::{ByteTest, scan_each};

/// From this length on, in bytes, the lookup table pays for itself.
const LONG: usize = 1024;

/// How a byte is shown.
#[derive(Clone, Copy)]
pub enum Kind {
    /// As it stands.
    Plain,
    /// As a backslash and this letter.
    Letter(u8),
    /// As `\u{..}`, with hexadecimal digits.
    Hex,
}

/// A byte's escape: its kind and its length.
#[derive(Clone, Copy)]
pub struct Escape {
    pub kind: Kind,
    pub len: usize,
}

/// A byte's escape, by ranges of the byte. Everything else goes by this `match`: which bytes make a
/// run, what is written of any other, and how much.
#[tactic(auto, unfolding(crate::specs::Escape::escaped, crate::specs::Escape::hex))]
fn escape_of(b: u8) -> Escape
    ensures kind { shown_as result.kind b ≡ escaped b }
    ensures long { result.len ≡ length (escaped b) }
    ensures most { result.len ≤ 6 }
{
    let (kind, len) = match b {
        0 => (Kind::Letter(b'0'), 2),
        9 => (Kind::Letter(b't'), 2),
        10 => (Kind::Letter(b'n'), 2),
        13 => (Kind::Letter(b'r'), 2),
        34 => (Kind::Letter(b'"'), 2),
        92 => (Kind::Letter(b'\\'), 2),
        1..=15 => (Kind::Hex, 5),
        16..=31 | 127 => (Kind::Hex, 6),
        _ => (Kind::Plain, 1),
    };
    Escape { kind, len }
}

// ---- writing

/// The hexadecimal digit of a number below 16, in lower case.
pub fn hex_digit(d: u8) -> u8
    requires { d < 16 }
    ensures { result ≡ hex_digit d }
{
    if d < 10 { 48 + d } else { 87 + d }
}

/// Writes `\u{..}`, with one digit where the escape has the length 5 and two where it has 6.
#[tactic(auto, unfolding(crate::specs::Escape::hex), using(printing::proofs::Writing::writing))]
fn write_hex(out: &mut Output<'_>, b: u8, len: usize)
    requires { len ≡ 4 + length (hex b) }
    ensures { Wrote out.old out.new (ascii "\\u{" ++ hex b ++ ascii "}") }
{
    // No array of the digits: it would be written byte by byte, then read back as a word, which is
    // waited for.
    if len == 5 {
        out.text_then(b"\\u{", hex_digit(b));
        out.byte(b'}');
    } else {
        out.text_then(b"\\u{", hex_digit(b / 16));
        out.text_then(&[hex_digit(b % 16)], b'}');
    }
}

/// Writes a byte's escape. Where the output is full, as when measuring, its length is counted.
#[tactic(auto, using(printing::proofs::Writing::counted))]
fn write_escaped(out: &mut Output<'_>, b: u8)
    ensures { Wrote out.old out.new (escaped b) }
{
    let Escape { kind, len } = escape_of(b);
    if out.bytes.len() <= out.at {
        out.skip(len);
        return;
    }
    match kind {
        Kind::Plain => out.byte(b),
        Kind::Letter(l) => out.text_then(b"\\", l),
        Kind::Hex => write_hex(out, b, len),
    }
}

// ---- runs: the bytes that stand for themselves, as their escape has the length 1

/// A lookup table of the escapes' lengths: of the 128 ASCII bytes, or empty. A byte beyond it goes
/// by `escape_of`.
#[derive(Clone, Copy)]
struct Lengths<'a> {
    noted: &'a [u8],
    ghost right: { NotesLengths noted.now },
}

#[tactic(auto, unfolding(crate::specs::internal::Escaping::stands))]
impl ByteTest for Lengths<'_> {
    ghost test = { stands };

    fn passes(&self, b: u8) -> bool {
        let i = b as usize;
        if i < self.noted.len() {
            self.noted[i] == 1
        } else {
            escape_of(b).len == 1
        }
    }
}

/// The table of all ASCII bytes; a document has no others.
fn note() -> [u8; 128]
    ensures { NotesLengths result }
{
    let mut noted = [0; 128];
    for i in 0..128 {
        noted[i] = escape_of(i as u8).len as u8;
    }
    noted
}

// ---- texts

/// Stores the escapes of a text: run by run, each followed by the byte that ends it. Returns the
/// next position. A slice and a position, so that the loop has both in registers.
#[tactic(auto, using(crate::proofs::Runs::runs))]
fn store_runs(out: &mut [u8], at: usize, lengths: &Lengths<'_>, s: &[u8]) -> usize
    ensures { Printed out.old at out.new result (each escaped s.now) }
{
    let mut o = Output { bytes: out, at };
    let mut i = 0;
    // `while`: each turn consumes a run, so the step is not 1.
    while i < s.len() {
        let e = scan_each(s, i, lengths);
        o.text(part(s, i, e - i));
        if s.len() <= e {
            return o.at;
        }
        write_escaped(&mut o, s[e]);
        i = e + 1;
    }
    o.at
}

/// Writes the escapes of a text, run by run.
#[tactic(auto, unfolding(printing::specs::Written::written))]
fn write_runs(out: &mut Output<'_>, lengths: &Lengths<'_>, s: &[u8])
    ensures { Wrote out.old out.new (each escaped s.now) }
{
    out.at = store_runs(out.bytes, out.at, lengths, s);
}

/// Writes the escapes of a text, by a lookup table where it is long enough.
fn write_escapes(out: &mut Output<'_>, s: &[u8])
    ensures { Wrote out.old out.new (each escaped s.now) }
{
    if s.len() < LONG {
        write_runs(out, &Lengths { noted: &[] }, s);
    } else {
        let noted = note();
        write_runs(out, &Lengths { noted: &noted }, s);
    }
}

/// Prints a text in double quotes, escaped.
#[tactic(auto, unfolding(crate::specs::Escape::quoted), using(printing::proofs::Writing::writing))]
pub fn write_quoted(out: &mut Output<'_>, s: &[u8])
    ensures { Wrote out.old out.new (quoted s.now) }
{
    out.byte(b'"');
    write_escapes(out, s);
    out.byte(b'"');
}
