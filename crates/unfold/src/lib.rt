//! Unfolding: functions, `let` and fields of records are removed from a term.
#![tactic(auto)]

mod answer;
mod built;
mod counts;
mod field;
mod forms;
mod fuel;
mod laws;
mod raise;
mod scope;
mod shapes;
mod slot;
mod stack;
mod substitute;
mod uses;
mod walk;

pub use answer::{DEEPEST, unfold};
pub use laws::{query_meanings, unfolding_ends, unfolding_is_confluent};
