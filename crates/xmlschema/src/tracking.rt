//! Theorems on the definitions, as the contract of a function that does nothing.

ghost use Rattle.xmlschema.specs.Tracking.{ValuesFound, AcceptedReached, ReachedOn};

/// A validValue that closes while an enum is current finds a value of that enum, in every builder
/// that a document's events lead to. What reading a document accepts is the schema of one.
pub fn values_found()
    ensures found { ValuesFound }
    ensures accepted { AcceptedReached }
    ensures reached { ReachedOn }
{}
