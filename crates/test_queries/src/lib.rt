//! Worked queries, with the terms to which they unfold and with what they mean over tables: tests alone, over the calls
//! that are checked elsewhere.
#![tactic(auto)]

#[cfg(test)]
mod asked;
#[cfg(test)]
mod deep;
#[cfg(test)]
mod generated;
#[cfg(test)]
mod made_tables;
#[cfg(test)]
mod shown;
#[cfg(test)]
mod terms;
#[cfg(test)]
mod values;
