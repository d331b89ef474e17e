//! A reader of markup: the events of a document, one at a time.
//!
//! `reader::Reader` holds the document and where it stands. `next` yields text, an open tag with
//! the values that its element looks up, or a close tag; a self-closed tag is an open, then a
//! close. `passing` skips comments, instructions and declarations, which are no events, up to where
//! `ends` finds that they end; `markup`
//! reads what stands at a position; `event` has the types.
//!
//! A reader requires nothing of its caller. On all inputs, what `next` answers, before what is
//! still to come, is what was to come (`Yields`, specs/Reader.antt) of the document's events
//! (specs/Event.antt, Events.antt). `fuel` states that these never run out of fuel.
#![tactic(auto)]

mod ends;
pub mod event;
pub mod fuel;
mod markup;
mod passing;
pub mod reader;
