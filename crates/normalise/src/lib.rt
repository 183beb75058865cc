//! Normal forms: a plain term becomes a union of comprehensions over tables.
#![tactic(auto)]

mod answer;
mod choice;
mod comps;
mod depth;
mod fields;
mod forms;
mod moved;
mod moved_body;
mod number_base;
mod number_body;
mod numbers;
mod raw;
mod raw_copy;
mod scope;
mod table;
mod tests;
mod totals;
mod types;
mod walk;

pub use answer::normalise;
