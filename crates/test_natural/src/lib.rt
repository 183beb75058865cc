//! Worked queries with their natural texts: tests alone, over the calls that are checked elsewhere.
#![tactic(auto)]

#[cfg(test)]
mod indexes;
#[cfg(test)]
mod schemas;
#[cfg(test)]
mod shown;
#[cfg(test)]
mod texts;
