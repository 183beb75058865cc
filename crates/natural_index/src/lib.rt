//! SQL texts of a normal form without WITH and ROW_NUMBER, whose indexes are keys.
#![tactic(auto)]

mod exprs;
mod fault;
mod items;
mod keyless;
mod select;
mod texts;

pub use fault::NaturalFault;
pub use texts::{Natural, natural_texts};
