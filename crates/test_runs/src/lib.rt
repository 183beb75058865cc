//! Whole runs of the program over inputs and outputs in memory, with outputs worked out by hand:
//! tests alone, over the calls that are checked elsewhere.
#![tactic(auto)]

#[cfg(test)]
mod answers;
#[cfg(test)]
mod cases;
#[cfg(test)]
mod dropped;
#[cfg(test)]
mod examples;
#[cfg(test)]
mod explained;
#[cfg(test)]
mod explained_files;
#[cfg(test)]
mod first_tries;
#[cfg(test)]
mod generated;
#[cfg(test)]
mod hostile;
#[cfg(test)]
mod json_texts;
#[cfg(test)]
mod natural;
#[cfg(test)]
mod nested;
#[cfg(test)]
mod queries;
#[cfg(test)]
mod runs;
#[cfg(test)]
mod servers;
#[cfg(test)]
mod shown;
#[cfg(test)]
mod sql_texts;
#[cfg(test)]
mod stitched;
#[cfg(test)]
mod totals;
#[cfg(test)]
mod traced;
