//! Worked normal forms, with the strands and the lets at each path of their types: tests alone, over the calls that
//! are checked elsewhere.
#![tactic(auto)]

#[cfg(test)]
mod made;
#[cfg(test)]
mod paths;
#[cfg(test)]
mod told;
