//! How a type prints, and which names are built-ins.
#![tactic(auto, unfolding(crate::proofs::Opened::on_types))]

ghost use Rattle.std.specs.Prelude.{◌≡◌, List, [], ℕ, map};
ghost use Rattle.texts.specs.Choice.{◌or◌};
ghost use Rattle.texts.specs.Lists.{among};
ghost use Rattle.xmltoproto.specs.Types.{form, built_ins, is_char, is_byte, is_raw, chars};
ghost use Rattle.xmltoproto.specs.Types.{as_primitive};
ghost use Rattle.xmltoproto.specs.internal.Shapes.{proto_in, Prints};

use charsets::is_compatible;
use swar::same_name;

/// How a type prints. A number is the length in its option.
#[derive(Clone, Copy)]
pub enum Shape {
    /// `string`.
    Text(u32),
    /// `bytes`, for text in an encoding that is not UTF-8 compatible.
    Foreign(u32),
    /// `bytes`, for uint8 or int8 of a length above 1.
    Raw(u32),
    /// `int32`, with the narrower primitive in its option.
    Signed,
    /// `uint32`, with the narrower primitive in its option.
    Unsigned,
    /// The primitive or name as it stands.
    Plain,
}

/// The length of a char: absent or 0 is 1.
pub fn chars_in(size: u32) -> u32
    ensures { result ≡ chars (form [] size []) }
{
    if 0 < size { size } else { 1 }
}

/// The primitives that print as bytes where they have a length above 1.
const BYTES: [&[u8]; 2] = [b"uint8", b"int8"];

/// The primitives that print as `int32`.
const NARROW_SIGNED: [&[u8]; 2] = [b"int8", b"int16"];

/// The primitives that print as `uint32`.
const NARROW_UNSIGNED: [&[u8]; 2] = [b"uint8", b"uint16"];

/// The type names that need no declaration.
const BUILT_INS: [&[u8]; 11] = [
    b"int8", b"int16", b"int32", b"int64", b"uint8", b"uint16", b"uint32", b"uint64", b"float",
    b"double", b"char",
];

/// Whether `s` is one of `texts`. Inlined, it compares with each literal by a word or two.
#[inline(always)]
fn is_among(s: &[u8], texts: &[&[u8]]) -> bool
    ensures { result ≡ among s.now (map (λ t. t.now) texts.now) }
{
    for text in texts {
        if same_name(s, text) {
            return true;
        }
    }
    false
}

/// Whether the primitive is uint8 or int8.
fn is_byte(primitive: &[u8]) -> bool
    ensures { result ≡ is_byte (form primitive.now 0 []) }
{
    is_among(primitive, &BYTES)
}

/// Whether this is uint8 or int8 of a length above 1.
pub fn is_raw(primitive: &[u8], size: u32) -> bool
    ensures { result ≡ is_raw (form primitive.now size []) }
{
    if 1 < size {
        return is_byte(primitive);
    }
    false
}

/// Whether the primitive is char, uint8 or int8: those of which a proto field represents more than
/// one.
pub fn is_char_or_byte(primitive: &[u8]) -> bool
    ensures { result ≡ (is_char (form primitive.now 0 []) or is_byte (form primitive.now 0 [])) }
{
    if same_name(primitive, b"char") {
        return true;
    }
    is_byte(primitive)
}

/// The shape of a single primitive but char.
fn primitive_shape(p: &[u8]) -> Shape
    ensures { (e : List ℕ) → proto_in result p.now e ≡ as_primitive p.now }
{
    if is_among(p, &NARROW_SIGNED) {
        return Shape::Signed;
    }
    if is_among(p, &NARROW_UNSIGNED) {
        return Shape::Unsigned;
    }
    Shape::Plain
}

/// The shape of a primitive with a length, 0 if absent, and an encoding.
#[inline(always)]
pub fn shape_of(primitive: &[u8], size: u32, encoding: &[u8]) -> Shape
    ensures { Prints result (form primitive.now size encoding.now) }
{
    if same_name(primitive, b"char") {
        let n = chars_in(size);
        if is_compatible(encoding) {
            return Shape::Text(n);
        }
        return Shape::Foreign(n);
    }
    if is_raw(primitive, size) {
        return Shape::Raw(size);
    }
    primitive_shape(primitive)
}

/// Whether the name is one of the built-ins.
pub fn is_built_in(name: &[u8]) -> bool
    ensures { result ≡ among name.now built_ins }
{
    is_among(name, &BUILT_INS)
}
