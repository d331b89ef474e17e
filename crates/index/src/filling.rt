//! Fills the index of a schema: the hash chains from the first item on, then links
//! and type names from the last item back.
ghost use Rattle.std.specs.Prelude.{◌≡◌, ◌+◌, ◌≤◌, ◌<◌, IfSome, length};
ghost use Rattle.texts.specs.Choice.{pick};
ghost use Rattle.index.specs.Blank.{Blank};
ghost use Rattle.index.specs.internal.Index.{Chained, Naming, Next, Numbers, Settling};

use crate::declaration::{NAMED, is_declaring};
use crate::sorted::{Names, Slots};
use crate::{CHAIN, EACH, FIRST, LAST_KIND, STEPS, declared_so_far, head_of, number_at, put_front};
use model::FIELD;
use model::view::View;

/// Pushes item `i`, if it declares a name, to the front of the chain of its hash.
fn name_item(v: &View<'_>, i: u32, ix: &mut [u16])
    requires { Naming v.now i ix.old × (i < length v.now.items) }
    ensures { Naming v.now (i + 1) ix.new }
{
    if is_declaring(v.kind(i)) {
        let head = head_of(v, v.name(i));
        let at = EACH * (i as usize) + CHAIN;
        put_front(ix, head, at, i);
    }
}

/// Chains the names that all items declare.
pub(crate) fn put_names(v: &View<'_>, ix: &mut [u16])
    requires { Blank v.now ix.old }
    ensures { Naming v.now (length v.now.items) ix.new }
{
    for i in 0..v.count() {
        name_item(v, i, ix);
    }
}

/// Pushes item `i` to the front of its owner's list for its kind. There is none for a kind
/// past the last or for an owner that is no item.
fn link_item(v: &View<'_>, i: u32, ix: &mut [u16])
    requires { Settling v.now (i + 1) i ix.old × (i < length v.now.items) }
    ensures { Settling v.now i i ix.new }
{
    let kind = v.kind(i);
    if LAST_KIND < kind {
        return;
    }
    let owner = v.owner(i);
    if v.count() <= owner {
        return;
    }
    let head = EACH * (owner as usize) + FIRST + kind as usize;
    let at = EACH * (i as usize);
    put_front(ix, head, at, i);
}

/// What a name is declared as, as a number, by the chain of its hash; `None` where `STEPS`
/// items do not settle it. An enum or composite settles it, or the end of the chain; of types
/// the first met, which is the last declared, counts.
fn resolved(v: &View<'_>, ix: &[u16], name: &[u8]) -> Option<u32>
    requires { Chained v.now (length v.now.items) ix.now }
    ensures { IfSome result (Numbers v.now name.now) }
{
    let mut kept = 0;
    let mut p = number_at(ix, head_of(v, name));
    for _ in 0..STEPS {
        if p == 0 {
            return Some(kept);
        }
        let i = p - 1;
        kept = declared_so_far(v, i, name, kept);
        let settled = kept == NAMED;
        if settled {
            return Some(kept);
        }
        p = number_at(ix, EACH * (i as usize) + CHAIN);
    }
    if p == 0 { Some(kept) } else { None }
}

/// Stores what the type name of item `i` is declared as, if it is a field. Returns false, and
/// stores nothing, where its chain is too long.
fn resolve_item(v: &View<'_>, i: u32, ix: &mut [u16]) -> bool
    requires { Next v.now i ix.old }
    ensures { Settling v.now (i + 1) (pick result i (i + 1)) ix.new }
{
    if v.kind(i) == FIELD {
        let Some(d) = resolved(v, ix, v.second(i)) else {
            return false;
        };
        let at = EACH * (i as usize) + CHAIN;
        ix[at] = d as u16;
    }
    true
}

/// The same from the sorted names, for a chain of any length.
fn order_item(v: &View<'_>, names: &Names<'_>, i: u32, ix: &mut [u16])
    requires { Next v.now i ix.old × (names.now ≡ v.now) }
    ensures { Settling v.now (i + 1) i ix.new }
{
    if v.kind(i) == FIELD {
        let d = names.code_of(v.second(i));
        let at = EACH * (i as usize) + CHAIN;
        ix[at] = d as u16;
    }
}

/// Links the items before `from`, and stores what their type names are declared as from the
/// sorted names.
fn put_rest(v: &View<'_>, from: u32, ix: &mut [u16])
    requires { Settling v.now from from ix.old × (from ≤ length v.now.items) }
    ensures { Settling v.now 0 0 ix.new }
{
    let slots = Slots::of(v);
    let names = Names::of(v, &slots);
    for i in (0..from).rev() {
        order_item(v, &names, i, ix);
        link_item(v, i, ix);
    }
}

/// Links the items and stores what their type names are declared as, from the last item back:
/// by the chains, and once a chain is too long, by the sorted names.
pub(crate) fn put_settled(v: &View<'_>, ix: &mut [u16])
    requires { Naming v.now (length v.now.items) ix.old }
    ensures { Settling v.now 0 0 ix.new }
{
    for i in (0..v.count()).rev() {
        let settled = resolve_item(v, i, ix);
        if !settled {
            put_rest(v, i + 1, ix);
            return;
        }
        link_item(v, i, ix);
    }
}
