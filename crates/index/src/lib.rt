//! An index over a schema: children by links, declarations by hash chains.
//!
//! `Index::of` fills a lent array in two passes over the items of any schema. `children` then gives
//! what the model's `under` does, and `declared` what its `last_named` says of a field's type name,
//! without a walk over all items. A chain that eight items do not settle, as with names made
//! to collide, is left to the sorted names.
#![tactic(auto)]

pub mod declaration;
mod filling;
pub mod seen;
mod sorted;

ghost use Rattle.std.specs.Prelude.{◌≡◌, ◌+◌, ◌≤◌, ◌<◌, length, get_or};
ghost use Rattle.std.specs.Int.Bits.{bit_and};
ghost use Rattle.model.specs.Schema.{item_at};
ghost use Rattle.index.specs.Blank.{mask_of, Blank};
ghost use Rattle.index.specs.internal.Index.{so_far_by, fronted, short_word, mix, long_word, narrowed, HashOf, HeadOf, Indexed};

use crate::declaration::{NAMED, TYPED};
use crate::filling::{put_names, put_settled};
use model::view::View;
use model::{FIELD, MOST_ITEMS, TYPE};
use swar::{half_at, same_name, word_at};

// The array has `EACH` numbers for each item, then the head of each hash chain. A position is
// stored plus 1; 0 is none.

/// The last of the kinds.
const LAST_KIND: u32 = FIELD;

/// The first of an item's numbers links to the next item of the same kind and owner. The second:
/// the item before it in its chain, or, of a field, what its type name is declared as.
const CHAIN: usize = 1;

/// From the third on: for each kind from 0 on, the first item under this one.
const FIRST: usize = 2;

/// Numbers of an item.
const EACH: usize = FIRST + LAST_KIND as usize + 1;

/// Hash chains of an index of more than 128 items.
const CHAINS: usize = 1024;

/// Hash chains of an index of at most 128 items.
const FEW_CHAINS: usize = 128;

// The array is zeroed whole for each schema, and small documents would notice the largest one: so
// there are four sizes, by the most items that they hold.

/// The most items of a schema of middle size.
pub const ITEMS_384: u32 = 384;

/// The most items of a small schema, for which 128 chains do instead of 1,024.
pub const ITEMS_128: u32 = 128;

/// The most items of a tiny schema.
pub const ITEMS_16: u32 = 16;

/// The array's length for as many items as a model may have.
pub const LINKS_1024: usize = EACH * MOST_ITEMS as usize + CHAINS;

/// The array's length for `ITEMS_384` items.
pub const LINKS_384: usize = EACH * ITEMS_384 as usize + CHAINS;

/// The array's length for `ITEMS_128` items.
pub const LINKS_128: usize = EACH * ITEMS_128 as usize + FEW_CHAINS;

/// The array's length for `ITEMS_16` items.
pub const LINKS_16: usize = EACH * ITEMS_16 as usize + FEW_CHAINS;

/// How many items of a chain are looked at before the sorted names are used.
const STEPS: u32 = 8;

/// A name of less than 8 bytes as a number: its two overlapping halves, or, below 4 bytes, the
/// first, middle and last byte and the length.
#[tactic(auto, using(crate::proofs::Laws::hashing))]
fn short_word(name: &[u8]) -> u64
    ensures { result ≡ short_word name.now }
{
    let n = name.len();
    if 4 <= n {
        return half_at(name, 0) + half_at(name, n - 4) * 4294967296;
    }
    if n == 0 {
        return 0;
    }
    let first = name[0] as u64;
    let middle = name[n / 2] as u64;
    let last = name[n - 1] as u64;
    first + middle * 256 + last * 65536 + (n as u64) * 16777216
}

/// Mixes the word `w` into `h`, whose top four bits are dropped so that the product fits.
#[tactic(auto, using(crate::proofs::Laws::hashing))]
fn mixed(h: u64, w: u64) -> u64
    ensures { result ≡ mix h w }
{
    (h % 1152921504606846976 * 9) ^ w
}

/// A name of 8 bytes or more as a number: all its words are mixed, the last one ending with the
/// name.
#[tactic(auto, using(crate::proofs::Laws::hashing))]
#[inline(always)]
fn long_word(name: &[u8]) -> u64
    requires { 8 ≤ length name.now }
    ensures { result ≡ long_word name.now }
{
    let n = name.len();
    // Mixed before the test: after it, the compiler would load the word byte by byte.
    let mut h = mixed(n as u64, word_at(name, 0));
    if n == 8 {
        return h;
    }
    let last = n - 8;
    let mut i = 8;
    // `while`, not `step_by`, which counts its steps first: most names have one word or two.
    while i < last {
        h = mixed(h, word_at(name, i));
        i += 8;
    }
    mixed(h, word_at(name, last))
}

/// Folds a number to ten bits by multiply-shift of both halves: each byte reaches the result.
#[tactic(auto, using(crate::proofs::Laws::hashing))]
fn narrow(w: u64) -> usize
    ensures { (result ≡ narrowed w) × (result < 1024) }
{
    ((w % 4294967296 * 1981491285 + w / 4294967296 * 1113222403) / 1073741824 % 1024) as usize
}

/// The hash of a name, below 1,024.
#[tactic(auto, using(crate::proofs::Laws::hashing))]
#[inline(always)]
fn hash_of(name: &[u8]) -> usize
    ensures { HashOf name.now result }
{
    if name.len() < 8 {
        return narrow(short_word(name));
    }
    narrow(long_word(name))
}

/// The chain of a hash: one of 1,024, or of 128 where there are few items.
fn masked(h: usize, n: u32) -> usize
    ensures { (result ≡ bit_and h (mask_of n)) × (result ≤ h) }
{
    if ITEMS_128 < n {
        return h & 1023;
    }
    h & 127
}

/// Where the head of a name's chain stands in the index.
#[tactic(auto, using(crate::proofs::Laws::hashing))]
#[inline(always)]
fn head_of(v: &View<'_>, name: &[u8]) -> usize
    ensures { HeadOf v.now name.now result }
{
    let n = v.count();
    EACH * (n as usize) + masked(hash_of(name), n)
}

/// Pushes item `i` to the front of a list whose head stands at `head`; its own link goes to `at`.
fn put_front(ix: &mut [u16], head: usize, at: usize, i: u32)
    requires { (head < length ix.old) × (at < length ix.old) × (i < 1024) }
    ensures { ix.new ≡ fronted ix.old head at i }
{
    ix[at] = ix[head];
    let n = i + 1;
    ix[head] = n as u16;
}

/// Number `k` of the index, or 0 past its end.
#[tactic(auto, using(crate::proofs::Laws::hashing))]
fn number_at(ix: &[u16], k: usize) -> u32
    ensures { result ≡ get_or ix.now k 0 }
{
    if k < ix.len() { ix[k] as u32 } else { 0 }
}

/// One step of a walk along a chain, which begins with its last item: what `name` is declared as by
/// item `i` and those passed so far, which say `kept`, as a declaration's number; 0 is nothing yet.
/// An enum or composite wins over types, and of types the first met, declared last.
fn declared_so_far(v: &View<'_>, i: u32, name: &[u8], kept: u32) -> u32
    requires { (i < 1024) × (kept < 1026) }
    ensures { (result ≡ so_far_by (item_at v.now i) i name.now kept) × (result < 1026) }
{
    if v.kind(i) == TYPE {
        if 0 < kept {
            return kept;
        }
        if same_name(v.name(i), name) {
            return i + TYPED;
        }
        return 0;
    }
    if same_name(v.name(i), name) {
        return NAMED;
    }
    kept
}

/// Fills `ix`, all zeros, with the index.
fn build(v: &View<'_>, ix: &mut [u16])
    requires { Blank v.now ix.old }
    ensures { Indexed v.now ix.new }
{
    put_names(v, ix);
    put_settled(v, ix);
}
