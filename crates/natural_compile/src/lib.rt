//! From a query to the SQL texts in which a bag is named by the keys of the rows around it.
#![tactic(auto)]

mod compiled;
mod normal;
mod query;

pub use compiled::KeyedTexts;
pub use query::compile_by_keys;
