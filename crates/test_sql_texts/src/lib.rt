//! Worked SQL texts with what they are read as, what is printed of them, the types of their columns, or their fault:
//! tests alone, over the calls that are checked elsewhere.
#![tactic(auto)]

#[cfg(test)]
mod long;
#[cfg(test)]
mod printed;
#[cfg(test)]
mod refused;
#[cfg(test)]
mod shown;
#[cfg(test)]
mod statements;
#[cfg(test)]
mod wide;
