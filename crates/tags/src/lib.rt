//! Tags of a document, by position: names, attributes, and a whole tag up to its end.
//!
//! `part::tag_part` reads one part of a tag: an attribute, the tag's end, or a refusal (16 to 20).
//! `tag::attribute` looks one name up, and `tag::tag_noting` reads a tag to its end and notes the
//! values that its element looks up. `scan` skips spaces and names and searches. `known` and
//! `beginning` are the fast paths: they find names that nearly every schema has by comparing eight
//! bytes at once (SWAR), and leave all others to the general way. `namespaces` skips attributes
//! that declare a namespace.
//!
//! `tag_part` and `attribute` require nothing of a caller, and equal definitions on all inputs:
//! specs/Find.antt, Names.antt, Attributes.antt; for what is noted, Noting.antt. The values of a
//! tag lie within it and do not overlap (proofs/Ranges.antt).
//!
//! A document and a position are two parameters, not a struct: a caller goes on from the position,
//! so that the struct would be built at each call and taken apart at once.
#![tactic(auto)]

pub mod beginning;
mod known;
mod namespaces;
pub mod noting;
pub mod part;
pub mod scan;
pub mod tag;
