//! Whether an SQL tree is well scoped over a schema, with the types of its columns, or the first
//! broken rule.
#![tactic(auto)]

mod aliases;
mod base;
mod fault;
mod found;
mod names;
mod place;
mod rules;
mod tables;
mod text;
mod walk;

pub use fault::ScopeFault;
pub use found::{Found, found_parts};
pub use text::scope;
