//! A theorem on the definitions, as the contract of a function that does nothing.

ghost use Rattle.saxlite.specs.Fuel.{EventsEnd, TagsEnd};

/// The definitions of a document's events and of a tag never run out of fuel.
pub fn reading_ends()
    ensures events { EventsEnd }
    ensures tags { TagsEnd }
{}
