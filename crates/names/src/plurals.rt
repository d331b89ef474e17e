//! The singular of a plural name, its first letter raised: a last `ies` becomes `y`, and a last `s`
//! goes unless it follows another `s`.
ghost use Rattle.std.specs.Prelude.{◌≡◌};
ghost use Rattle.printing.specs.Written.{Wrote};
ghost use Rattle.names.specs.Conversions.{ends_with, ends_in_ies, ends_in_s};
ghost use Rattle.names.specs.Conversions.{capitalized, singular_pascal};

use classes::raise;
use printing::Output;
use texts::part;

fn ends_with(name: &[u8], end: &[u8]) -> bool
    ensures { result ≡ ends_with end.now name.now }
{
    if name.len() < end.len() {
        return texts::starts_with(name, 0, end);
    }
    texts::starts_with(name, name.len() - end.len(), end)
}

#[tactic(auto, using(crate::proofs::Singular::laws))]
fn write_capitalized(out: &mut Output<'_>, name: &[u8])
    ensures { Wrote out.old out.new (capitalized name.now) }
{
    if name.len() == 0 {
        return;
    }
    out.byte(raise(name[0]));
    out.text(&name[1..]);
}

/// Whether the name ends in `ies` and is longer than that.
#[tactic(auto, unfolding(crate::specs::Conversions::ends_in_ies))]
fn ends_in_ies(name: &[u8]) -> bool
    ensures { result ≡ ends_in_ies name.now }
{
    3 < name.len() && ends_with(name, b"ies")
}

/// Whether the name ends in one `s`, not two, and is longer than that.
#[tactic(auto, unfolding(crate::specs::Conversions::ends_in_s))]
fn ends_in_s(name: &[u8]) -> bool
    ensures { result ≡ ends_in_s name.now }
{
    1 < name.len() && ends_with(name, b"s") && !ends_with(name, b"ss")
}

/// Prints the singular of a name, its first letter raised.
#[tactic(auto, using(crate::proofs::Singular::laws))]
pub fn write_singular(out: &mut Output<'_>, name: &[u8])
    ensures { Wrote out.old out.new (singular_pascal name.now) }
{
    if ends_in_ies(name) {
        write_capitalized(out, part(name, 0, name.len() - 3));
        out.byte(b'y');
    } else if ends_in_s(name) {
        write_capitalized(out, part(name, 0, name.len() - 1));
    } else {
        write_capitalized(out, name);
    }
}
