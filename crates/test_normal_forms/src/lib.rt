//! Worked queries with their normal forms: tests alone, over the calls that are checked elsewhere.
#![tactic(auto)]

#[cfg(test)]
mod alike;
#[cfg(test)]
mod chains;
#[cfg(test)]
mod deep;
#[cfg(test)]
mod forms;
#[cfg(test)]
mod printed;
#[cfg(test)]
mod told;
