//! The prefix of an enum's value names: the enum's name in screaming snake case and a `_`.
//!
//! The prefix is never written out. The value's name is compared with it position by position, so
//! that no work buffer is needed.
ghost use Rattle.std.specs.Prelude.{◌≡◌, [], ◌∷◌, ◌<◌, length};
ghost use Rattle.printing.specs.Written.{Wrote};
ghost use Rattle.classes.specs.Letters.{raised};
ghost use Rattle.names.specs.Conversions.{cased_at, breaks_screaming, prefix_of};
ghost use Rattle.names.specs.Conversions.{without_prefix, strip_enum_prefix};
ghost use Rattle.names.specs.internal.Prefix.{past_text};

use crate::camel::write_pascal;
use crate::snake::{Case, Screaming};
use printing::Output;

/// The position after `j` if `b` stands at `j`, else `None`.
#[tactic(auto, using(crate::proofs::Cutting::cutting))]
fn past_byte(value: &[u8], j: usize, b: u8) -> Option<usize>
    ensures { result ≡ past_text (b ∷ []) value.now j }
{
    if value.len() <= j {
        return None;
    }
    if value[j] == b { Some(j + 1) } else { None }
}

/// The position after what position `i` of the enum's name gives in screaming snake case, if that
/// stands at `j`; else `None`.
#[tactic(auto, using(crate::proofs::Cutting::cutting))]
fn past_position(
    case: &Screaming,
    value: &[u8],
    j: usize,
    enum_name: &[u8],
    i: usize,
) -> Option<usize>
    requires { i < length enum_name.now }
    ensures { result ≡ past_text (cased_at breaks_screaming raised enum_name.now i) value.now j }
{
    let (breaks, shown) = case.at(enum_name, i);
    if breaks {
        let k = past_byte(value, j, b'_')?;
        return past_byte(value, k, shown);
    }
    past_byte(value, j, shown)
}

/// The position after the prefix if the value's name begins with it, else `None`.
#[tactic(auto, using(crate::proofs::Cutting::cutting))]
fn past_prefix(value: &[u8], enum_name: &[u8]) -> Option<usize>
    ensures { result ≡ past_text (prefix_of enum_name.now) value.now 0 }
{
    let case = Screaming;
    let mut j = 0;
    for i in 0..enum_name.len() {
        j = past_position(&case, value, j, enum_name, i)?;
    }
    past_byte(value, j, b'_')
}

/// The value's name without the prefix, or all of it where it does not begin with it. The result is
/// a part of the value's name, never of the enum's, as its lifetime says.
#[tactic(auto, using(crate::proofs::Cutting::cutting))]
pub fn without_prefix<'a>(value: &'a [u8], enum_name: &[u8]) -> &'a [u8]
    ensures { result.now ≡ without_prefix value.now enum_name.now }
{
    match past_prefix(value, enum_name) {
        Some(k) => texts::part(value, k, value.len()),
        None => value,
    }
}

/// Prints the value's name without the prefix, in Pascal case.
#[tactic(auto, unfolding(crate::specs::Conversions::strip_enum_prefix))]
pub fn write_stripped(out: &mut Output<'_>, value: &[u8], enum_name: &[u8])
    ensures { Wrote out.old out.new (strip_enum_prefix value.now enum_name.now) }
{
    write_pascal(out, without_prefix(value, enum_name));
}
