//! What is worked out from a size: a schema, a nested query over it, and the rows of each table.
#![tactic(auto)]

mod query;
mod schema;
mod size;
mod tables;

pub use query::generated_query;
pub use schema::generated_schema;
pub use size::size_of;
pub use tables::generated_tables;
