//! The six name conversions, for customers' own programs.
//!
//! Each entry takes a name and an output, and answers how many bytes it wrote or a refusal: 1 where
//! the name is longer than 32,768 bytes, 10 where it has a byte of 128 or more, 3 where the output
//! is too short, in this order. The output then begins with the converted name and is otherwise as
//! it was; after a refusal all of it is as it was. `Answers` (specs/Entry.antt) promises both, on
//! all inputs; no entry asks anything of its caller.
#![tactic(auto, unfolding(crate::specs::Converted::converted))]

ghost use Rattle.std.specs.Prelude.{ℕ, ◌≡◌, length};
ghost use Rattle.names.specs.Conversions.{camel_to_snake, snake_to_camel, singular_pascal};
ghost use Rattle.names.specs.Conversions.{camel_to_screaming_snake, screaming_snake_to_pascal};
ghost use Rattle.names.specs.Conversions.{strip_enum_prefix};
ghost use Rattle.printing.specs.Written.{Wrote};
ghost use Rattle.names.specs.Entry.{tested, tested_two, Answers};
ghost use Rattle.names.specs.Converted.{converted};

use crate::camel::{write_camel, write_pascal};
use crate::plurals::write_singular;
use crate::prefix::write_stripped;
use crate::snake::{write_screaming, write_snake};
use printing::{Output, Print, finish};
use refusals::Refusal;

/// The longest name that is taken, in bytes.
const MAX_NAME: usize = 32768;

/// Tests a name: refusal 1, then 10.
#[tactic(auto, using(crate::proofs::Entering::tests))]
fn test(name: &[u8]) -> Result<(), Refusal>
    ensures { result ≡ tested name.now }
{
    if MAX_NAME < name.len() {
        return Err(Refusal::TooLong);
    }
    let at = texts::ascii_end(name);
    if at < name.len() {
        return Err(Refusal::NotAscii { at });
    }
    Ok(())
}

/// Tests a value's name and its enum's: refusal 1 of either, then 10 of either, the value's name
/// first.
#[tactic(auto, using(crate::proofs::Entering::tests))]
fn test_two(value: &[u8], enum_name: &[u8]) -> Result<(), Refusal>
    ensures { result ≡ tested_two value.now enum_name.now }
{
    if MAX_NAME < value.len() {
        return Err(Refusal::TooLong);
    }
    if MAX_NAME < enum_name.len() {
        return Err(Refusal::TooLong);
    }
    let at = texts::ascii_end(value);
    if at < value.len() {
        return Err(Refusal::NotAscii { at });
    }
    let at = texts::ascii_end(enum_name);
    if at < enum_name.len() {
        return Err(Refusal::NotAscii { at });
    }
    Ok(())
}

/// The conversions of a single name. Each has its entry below, written out: no macro may write a
/// function.
#[derive(Clone, Copy)]
enum Conversion {
    Snake,
    Camel,
    Screaming,
    Pascal,
    Singular,
}

/// A name, and the conversion that it is printed in.
#[derive(Clone, Copy)]
struct Converted<'a> {
    to: Conversion,
    name: &'a [u8],
}

impl Print for Converted<'_> {
    ghost text = { λ s. converted s.to s.name.now };

    fn print(&self, out: &mut Output<'_>) {
        match self.to {
            Conversion::Snake => write_snake(out, self.name),
            Conversion::Camel => write_camel(out, self.name),
            Conversion::Screaming => write_screaming(out, self.name),
            Conversion::Pascal => write_pascal(out, self.name),
            Conversion::Singular => write_singular(out, self.name),
        }
    }
}

/// The refusal of the tests; or the name, measured and then written where the output has room for
/// it.
fn answer<P: Print>(tested: Result<(), Refusal>, name: &P, out: &mut [u8]) -> Result<usize, Refusal>
    ensures { Answers tested (P.text name.now) out.old out.new result }
{
    tested?;
    finish(name, out)
}

impl Conversion {
    /// The entry of this conversion.
    fn convert(self, name: &[u8], out: &mut [u8]) -> Result<usize, Refusal>
        ensures { Answers (tested name.now) (converted self name.now) out.old out.new result }
    {
        answer(test(name), &Converted { to: self, name }, out)
    }
}

/// Converts to snake case: `MDEntryPx` becomes `md_entry_px`.
pub fn camel_to_snake(name: &[u8], out: &mut [u8]) -> Result<usize, Refusal>
    ensures { Answers (tested name.now) (camel_to_snake name.now) out.old out.new result }
{
    Conversion::Snake.convert(name, out)
}

/// Converts to camel case: `order_id` becomes `orderId`.
pub fn snake_to_camel(name: &[u8], out: &mut [u8]) -> Result<usize, Refusal>
    ensures { Answers (tested name.now) (snake_to_camel name.now) out.old out.new result }
{
    Conversion::Camel.convert(name, out)
}

/// Converts to screaming snake case: `MDEntryPx` becomes `MDENTRY_PX`.
pub fn camel_to_screaming_snake(name: &[u8], out: &mut [u8]) -> Result<usize, Refusal>
    ensures { Answers (tested name.now) (camel_to_screaming_snake name.now) out.old out.new result }
{
    Conversion::Screaming.convert(name, out)
}

/// Converts to Pascal case: `ORDER_ID` becomes `OrderId`.
pub fn screaming_snake_to_pascal(name: &[u8], out: &mut [u8]) -> Result<usize, Refusal>
    ensures { Answers (tested name.now) (screaming_snake_to_pascal name.now)
        out.old out.new result }
{
    Conversion::Pascal.convert(name, out)
}

/// Converts to the singular, its first letter raised: `entries` becomes `Entry`.
pub fn singular_pascal(name: &[u8], out: &mut [u8]) -> Result<usize, Refusal>
    ensures { Answers (tested name.now) (singular_pascal name.now) out.old out.new result }
{
    Conversion::Singular.convert(name, out)
}

/// A value's name and its enum's, printed as the value's without the enum's prefix.
#[derive(Clone, Copy)]
struct Stripped<'a> {
    value: &'a [u8],
    enum_name: &'a [u8],
}

impl Print for Stripped<'_> {
    ghost text = { λ s. strip_enum_prefix s.value.now s.enum_name.now };

    fn print(&self, out: &mut Output<'_>) {
        write_stripped(out, self.value, self.enum_name);
    }
}

/// Cuts the enum's prefix, and converts what remains to Pascal case: `SIDE_BUY` of `Side` becomes
/// `Buy`. A name without the prefix is converted whole.
pub fn strip_enum_prefix(value: &[u8], enum_name: &[u8], out: &mut [u8]) -> Result<usize, Refusal>
    ensures { Answers (tested_two value.now enum_name.now)
        (strip_enum_prefix value.now enum_name.now) out.old out.new result }
{
    answer(
        test_two(value, enum_name),
        &Stripped { value, enum_name },
        out,
    )
}
