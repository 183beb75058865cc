//! From a query to the SQL texts of its lineage, over tables whose rows have their numbers.
#![tactic(auto)]

mod compiled;
mod numbers;
mod query;

pub use compiled::TracedTexts;
pub use numbers::number_tables;
pub use query::compile_lineage;
