//! Finds rows that have the key of an earlier row, in one pass over the rows of a table.
#![tactic(auto)]

mod code_map;
mod codes;
mod keys;

pub use keys::{KeyIndex, earlier_twin};
