//! Worked JSON values, with the values that they are the forms of, worked JSON tables, with the rows
//! that they give, and rows with their JSON: tests alone, over the calls that are checked elsewhere.
#![tactic(auto)]

#[cfg(test)]
mod row_arrays;
#[cfg(test)]
mod tables;
#[cfg(test)]
mod values;
