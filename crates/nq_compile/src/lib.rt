//! All passes in a row: from a query or a normal form to the SQL texts that shred it.
#![tactic(auto)]

mod compiled;
mod normal;
mod query;

pub use compiled::Compiled;
pub use normal::compile_normal;
pub use query::compile;
