//! The let form of a shredded form: each parent of strands is named once.
#![tactic(auto)]

mod form;
mod lets;
mod order;
mod parts;

pub use form::insert_lets;
