//! Worked queries with their lineage: tests alone, over the calls that are checked elsewhere.
#![tactic(auto)]

#[cfg(test)]
mod answers;
#[cfg(test)]
mod told;
#[cfg(test)]
mod worked;
