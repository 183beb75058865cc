//! The paths of a type, and the columns of the flat answers at a path.
#![tactic(auto)]

mod columns;
mod laws;
mod walk;

pub use columns::{columns_at, element_at};
pub use laws::path_laws;
pub use walk::paths;
