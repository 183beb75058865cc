//! Worked SQL trees, also those of let forms, with the rows that they give over tables, and answers with their misfits:
//! tests alone, over the calls that are checked elsewhere.
#![tactic(auto)]

#[cfg(test)]
mod built;
#[cfg(test)]
mod flattened;
#[cfg(test)]
mod forms;
#[cfg(test)]
mod given;
#[cfg(test)]
mod held;
#[cfg(test)]
mod misfits;
#[cfg(test)]
mod told;
