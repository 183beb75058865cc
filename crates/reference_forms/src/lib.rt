//! A plain, slow program beside the definition of what a normal form means: it evaluates the form
//! over tables, and the definition is its contract. Tests compare quicker programs with it.
#![tactic(auto)]

mod bodies;
mod choices;
mod evaluator;
mod named;
mod values;

pub use evaluator::evaluate;
