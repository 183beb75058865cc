//! Worked places, excerpts and texts on rules: tests alone, over calls that are checked elsewhere.
#![tactic(auto)]

#[cfg(test)]
mod excerpts;
#[cfg(test)]
mod expected;
#[cfg(test)]
mod explained;
#[cfg(test)]
mod explained_sql;
#[cfg(test)]
mod explained_tables;
#[cfg(test)]
mod places;
#[cfg(test)]
mod rules;
