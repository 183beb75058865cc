//! Worked schema texts, table texts, query texts and programs, with what they are read as: tests alone, over the calls
//! that are checked elsewhere.
#![tactic(auto)]

#[cfg(test)]
mod programs;
#[cfg(test)]
mod queries;
#[cfg(test)]
mod schemas;
#[cfg(test)]
mod syntax;
#[cfg(test)]
mod tables;
