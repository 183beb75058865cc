//! What several crates of tests share: types and answers from short descriptions, and answers with
//! the canonical texts of what they stitch to, worked out by hand.
#![tactic(auto)]

mod cases;
mod described;

pub use cases::{CASES, Case, children};
pub use described::{Listed, Shape, answers_of, bag_type, type_of};
