//! A plain evaluator of SQL trees, for tests: nested loops over copies of the tables. Its contract
//! is the relation of allowed answers.
#![tactic(auto)]

mod answer;
mod evaluate;
mod key_order;
mod number;
mod scope;
mod totals;
mod values;

pub use evaluate::evaluate_text;
pub use number::Ties;
