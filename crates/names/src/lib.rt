//! The six name conversions.
//!
//! Each is a printing step that prints its converted name (specs/Conversions.antt) to an `Output`
//! and promises every byte of it, on all inputs (`Wrote`, crate `printing`); none of these refuses
//! a name or needs a work buffer, and the generator calls them as they are. Module `entry` makes
//! entries of them for customers' own programs, with limits and refusals.
#![tactic(auto)]

pub mod camel;
pub mod entry;
pub mod plurals;
pub mod prefix;
pub mod snake;
