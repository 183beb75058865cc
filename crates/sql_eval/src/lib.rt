//! An evaluator of SQL trees over held tables: the rows of queries, with their numbers, the WITH
//! queries, and whole texts. Its contract is the relation of allowed answers.
#![tactic(auto)]

mod answers;
mod projection;
mod row_numbers;

pub use answers::evaluate;
pub use sql_joins::{Arrangement, Joining};
