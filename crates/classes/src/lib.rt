//! Byte classes: space, tag-name end, attribute-name end, upper case, lower case; and a letter in
//! the other case.
//!
//! One table of 256 class numbers decides them all, and its rule is proved over the whole table
//! (proofs/Ruled.antt). The reader and the name conversions take every class from here.
#![tactic(auto)]

ghost use Rattle.std.specs.Prelude.{◌≡◌};
ghost use Rattle.classes.specs.Class.{is_space, is_tag_name_end, is_attribute_name_end};
ghost use Rattle.classes.specs.Class.{is_upper, is_lower};
ghost use Rattle.classes.specs.Table.{is_name_stop, ClassOf};
ghost use Rattle.classes.specs.Letters.{lowered, raised};

/// The class number of each byte: 15 space, 7 '>' and '/', 2 ':', 1 '=', 16 upper case, 32 lower
/// case, 0 any other. Each test is one comparison with the number or with one bit of it: bit 0 ends
/// an attribute's name, bit 1 a raw tag name or its prefix, bit 2 a tag's name.
///
/// A `static`: a `const` array would be stored anew at each use.
static CLASSES: [u8; 256] = [
    0, 0, 0, 0, 0, 0, 0, 0, 0, 15, 15, 0, 0, 15, 0, 0, 0, 0, 0, 0, 0, 0, 0, 0, 0, 0, 0, 0, 0, 0, 0,
    0, 15, 0, 0, 0, 0, 0, 0, 0, 0, 0, 0, 0, 0, 0, 0, 7, 0, 0, 0, 0, 0, 0, 0, 0, 0, 0, 2, 0, 0, 1,
    7, 0, 0, 16, 16, 16, 16, 16, 16, 16, 16, 16, 16, 16, 16, 16, 16, 16, 16, 16, 16, 16, 16, 16,
    16, 16, 16, 16, 16, 0, 0, 0, 0, 0, 0, 32, 32, 32, 32, 32, 32, 32, 32, 32, 32, 32, 32, 32, 32,
    32, 32, 32, 32, 32, 32, 32, 32, 32, 32, 32, 32, 0, 0, 0, 0, 0, 0, 0, 0, 0, 0, 0, 0, 0, 0, 0, 0,
    0, 0, 0, 0, 0, 0, 0, 0, 0, 0, 0, 0, 0, 0, 0, 0, 0, 0, 0, 0, 0, 0, 0, 0, 0, 0, 0, 0, 0, 0, 0, 0,
    0, 0, 0, 0, 0, 0, 0, 0, 0, 0, 0, 0, 0, 0, 0, 0, 0, 0, 0, 0, 0, 0, 0, 0, 0, 0, 0, 0, 0, 0, 0, 0,
    0, 0, 0, 0, 0, 0, 0, 0, 0, 0, 0, 0, 0, 0, 0, 0, 0, 0, 0, 0, 0, 0, 0, 0, 0, 0, 0, 0, 0, 0, 0, 0,
    0, 0, 0, 0, 0, 0, 0, 0, 0, 0, 0, 0, 0, 0, 0, 0, 0, 0, 0, 0, 0,
];

/// The class number of a byte.
fn class_of(b: u8) -> u8
    ensures { ClassOf b result }
{
    CLASSES[b as usize]
}

/// 'A' to 'Z'.
pub fn is_upper(b: u8) -> bool
    ensures { result ≡ is_upper b }
{
    class_of(b) == 16
}

/// 'a' to 'z'.
pub fn is_lower(b: u8) -> bool
    ensures { result ≡ is_lower b }
{
    class_of(b) == 32
}

/// Space, tab, line feed or carriage return.
pub fn is_space(b: u8) -> bool
    ensures { result ≡ is_space b }
{
    class_of(b) == 15
}

/// What ends a tag's name: a space, '>' or '/'.
pub fn is_tag_name_end(b: u8) -> bool
    ensures { result ≡ is_tag_name_end b }
{
    class_of(b) & 4 != 0
}

/// What ends a raw tag name or its prefix: a space, '>', '/' or ':'.
pub fn is_name_stop(b: u8) -> bool
    ensures { result ≡ is_name_stop b }
{
    class_of(b) & 2 != 0
}

/// What ends an attribute's name: a space, '>', '/' or '='.
pub fn is_attribute_name_end(b: u8) -> bool
    ensures { result ≡ is_attribute_name_end b }
{
    class_of(b) & 1 != 0
}

/// An upper-case letter in lower case; any other byte as it is.
#[tactic(auto, unfolding(crate::specs::Letters::lowered, crate::specs::Class::is_upper))]
pub fn lower(b: u8) -> u8
    ensures { result ≡ lowered b }
{
    if is_upper(b) { b + 32 } else { b }
}

/// A lower-case letter in upper case; any other byte as it is.
#[tactic(auto, unfolding(crate::specs::Letters::raised, crate::specs::Class::is_lower))]
pub fn raise(b: u8) -> u8
    ensures { result ≡ raised b }
{
    if is_lower(b) { b - 32 } else { b }
}
