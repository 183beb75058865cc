//! Answers with the nested values that they are stitched to or with their faults, and values with their canonical texts,
//! worked out by hand: tests alone, over the calls that are checked elsewhere.
#![tactic(auto)]

#[cfg(test)]
mod canonical;
#[cfg(test)]
mod linked;
#[cfg(test)]
mod stitched;
