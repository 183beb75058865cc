//! Index schemes, and stitching: how flat answers give one nested value.
#![tactic(auto)]

mod flat;
mod groups;
mod laws;
mod nested;
mod scheme;
mod source;
mod spans;
mod walk;

pub use flat::FlatNumbers;
pub use laws::{flat_laws, linked_law, reading_law};
pub use nested::stitch;
pub use scheme::IndexScheme;
