//! The traced meaning: what a term means, each element with the table rows that made it.
#![tactic(auto)]

mod laws;

pub use laws::{element_laws, trace_laws};
