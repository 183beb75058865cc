//! Plain programs on stitching, for tests: whether answers are such as stitching asks for, and
//! stitching by the definition, which looks at all rows for each bag. Their contracts are the
//! definitions of stitcher.
#![tactic(auto)]

mod condition;
mod counts;
mod place;
mod search;

pub use condition::are_answers;
pub use search::stitch_by_search;
