//! Reads a whole document into the model of a schema, in two buffers of the caller's.
//!
//! `build::read_schema` reads. Its answer, and the model that it leaves, equal `answer_of` of
//! specs/Whole.antt on all inputs, whatever the buffers held before; if one is too short, both hold
//! that still. The model is seen through the accessors of `model` alone. `tracking` states
//! theorems on the definitions.
#![tactic(auto)]

pub mod build;
pub mod tracking;
