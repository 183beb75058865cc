//! The type checker: a program's type, or the first typing rule that it breaks.
#![tactic(auto)]

mod base;
mod fault;
mod fields;
mod found;
mod program;
mod rules;
mod scope;
mod tables;
mod text;
mod walk;

pub use fault::CheckFault;
pub use found::found_types;
pub use program::check;
pub use text::write_type;
