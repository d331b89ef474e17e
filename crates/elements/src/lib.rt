//! The elements that the builder knows, by name (specs/Elements.antt), and the names whose values
//! are noted of its tag (specs/Keys.antt).
#![tactic(auto, using(crate::proofs::Laws::laws))]

ghost use Rattle.std.specs.Prelude.{◌≡◌};
ghost use Rattle.elements.specs.Elements.{element_of, other_element_of};

use texts::equal;

/// An element that the builder knows; `Other` is every other.
#[derive(Clone, Copy)]
pub enum Element {
    MessageSchema,
    Type,
    Ref,
    Composite,
    Enum,
    ValidValue,
    Message,
    Group,
    Field,
    Other,
}

/// The element of a name that is none of the first five; split off as in the definition.
fn other_element_of(name: &[u8]) -> Element
    ensures { result ≡ other_element_of name.now }
{
    if equal(name, b"validValue") {
        Element::ValidValue
    } else if equal(name, b"message") {
        Element::Message
    } else if equal(name, b"group") {
        Element::Group
    } else if equal(name, b"field") {
        Element::Field
    } else {
        Element::Other
    }
}

/// The element of a local name; `Other` for a name of no other one.
pub fn element_of(name: &[u8]) -> Element
    ensures { result ≡ element_of name.now }
{
    // An `if` chain, not a `match` of byte strings: the proof of its last arm would know lengths
    // only.
    if equal(name, b"messageSchema") {
        Element::MessageSchema
    } else if equal(name, b"type") {
        Element::Type
    } else if equal(name, b"ref") {
        Element::Ref
    } else if equal(name, b"composite") {
        Element::Composite
    } else if equal(name, b"enum") {
        Element::Enum
    } else {
        other_element_of(name)
    }
}
