//! Worked scripts for psql and sqlite3: tests alone, over the calls that are checked elsewhere.
#![tactic(auto)]

#[cfg(test)]
mod asks;
#[cfg(test)]
mod loads;
