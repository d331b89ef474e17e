//! The builder: takes the reader's events into the model of a schema, one at a time.
//!
//! `state::State` is its state by value, and `work::Work` borrows the document and the two buffers;
//! specs/internal/Layout.antt says how the builder lies in both. Opening, closing and text (`open`,
//! `close`) each promise one equation with the definition of the same thing (specs/Builder.antt),
//! refusals 30 and 32 to 35 included, and keep what the next step asks. Each requires that the
//! state is intact and that the event's texts have room, which the crate above ensures. Where the
//! document is not too long, each leaves a state that is sound.
//!
//! State and work are two parameters: what steps keep (`Intact`, and `Sound`) is a fact about both,
//! which no type's invariant can say.
#![tactic(auto)]

pub mod close;
mod items;
pub mod limits;
pub mod open;
pub mod state;
mod take;
pub mod work;
