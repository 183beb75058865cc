//! Plain, slow programs beside definitions of nq_model: what a term means, and the steps of
//! unfolding, each with the definition as its contract. Tests compare quicker programs with them.
#![tactic(auto)]

mod cells;
mod contraction;
mod elements;
mod evaluator;
mod records;
mod scope;
mod shift;
mod stepper;
mod subst;
mod tables;
mod totals;

pub use contraction::Stepped;
pub use evaluator::evaluate;
pub use scope::Scope;
pub use stepper::{step, unfold_by_steps};
