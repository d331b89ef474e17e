//! How many items there may be, how many elements may be open, how long a document may be, and how
//! long the two buffers for its model have to be.
ghost use Rattle.std.specs.Prelude.{◌≡◌};
ghost use Rattle.builder.specs.Limits.{highest};

use std::marker::Model;

const MAX_ITEMS: u32 = 1024;

const MAX_DEPTH: usize = 64;

/// The longest document that is read, in bytes.
pub const MAX_DOCUMENT: usize = 32768;

/// How long the record buffer has to be, in numbers of 32 bits.
pub const MIN_RECORDS: usize = 16384;

/// How long the text buffer has to be, in bytes.
pub const MIN_TEXT: usize = 65536;

/// Where the stack of open names begins in the records: behind the items, of 15 numbers each.
pub(crate) const NAMES_FROM: usize = 15 * MAX_ITEMS as usize;

/// Limits, never above `MAX_ITEMS` and `MAX_DEPTH`. Contracts see them as two numbers.
#[derive(Clone, Copy)]
pub struct Limits {
    pub(crate) items: u32,
    pub(crate) depth: usize,
}

impl Model for Limits {
    ghost use Rattle.std.specs.Prelude.{◌≤◌};
    ghost use Rattle.builder.specs.Limits.{Limits, max_items, max_depth};

    ghost Value = { Limits };

    ghost view = { λ l. record { items = l.items; depth = l.depth } };

    ghost inverse = { λ l. record { items = l.items; depth = l.depth } };

    ghost invariant = { λ l. (l.items ≤ max_items) × (l.depth ≤ max_depth) };
}

impl Limits {
    /// The highest that there are.
    pub fn highest() -> Limits
        ensures { result ≡ highest }
    {
        Limits {
            items: MAX_ITEMS,
            depth: MAX_DEPTH,
        }
    }
}
