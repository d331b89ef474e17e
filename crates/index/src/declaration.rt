//! What a type name is declared as.
ghost use Rattle.std.specs.Prelude.{◌≡◌, Option};
ghost use Rattle.index.specs.Declarations.{declares, declaration_of, declaration_code};
ghost use Rattle.index.specs.declared.declaration.Declaration.{Declaration};

use model::view::View;
use model::{COMPOSITE, ENUM, TYPE};

/// Whether items of this kind declare a type name: types, composites and enums do.
#[tactic(auto, unfolding(crate::specs::Declarations::declares))]
pub(crate) fn is_declaring(kind: u32) -> bool
    ensures { result ≡ declares kind }
{
    kind == TYPE || kind == COMPOSITE || kind == ENUM
}

/// What a name is declared as. For a name that is not declared it is the `None` around this.
#[derive(Clone, Copy)]
pub enum Declaration {
    /// An enum or a composite.
    Named,
    /// The type at this position.
    Typed(u32),
}

// Its number in the index: 0 where it is not declared, `NAMED`, or a type's position and `TYPED`.

/// The number of an enum or a composite.
pub(crate) const NAMED: u32 = 1;

/// What is added to the position of a type.
pub(crate) const TYPED: u32 = 2;

/// The declaration of a number.
#[inline(always)]
pub(crate) fn numbered(n: u32) -> Option<Declaration>
    ensures { (d : Option Declaration) → n ≡ declaration_code d → result ≡ d }
{
    match n {
        0 => None,
        NAMED => Some(Declaration::Named),
        _ => Some(Declaration::Typed(n - TYPED)),
    }
}

/// What a name is declared as, by the model's searches alone.
#[inline(never)]
#[tactic(auto, unfolding(crate::specs::Declarations::declaration_of))]
pub fn declaration_in(v: &View<'_>, name: &[u8]) -> Option<Declaration>
    ensures { result ≡ declaration_of v.now name.now }
{
    if v.last_named(ENUM, name).is_some() {
        return Some(Declaration::Named);
    }
    if v.last_named(COMPOSITE, name).is_some() {
        return Some(Declaration::Named);
    }
    match v.last_named(TYPE, name) {
        Some(i) => Some(Declaration::Typed(i)),
        None => None,
    }
}
