//! The shredded forms at the paths of a normal form.
#![tactic(auto)]

mod all;
mod around;
mod at_path;
mod levels;
mod nodes;
mod order;
mod shape;
mod walk;

pub use all::shred_all;
pub use at_path::shred;
