//! Texts that are written straight from answers: against those of the value that is stitched and
//! sorted, over answers that seeds make, and against texts worked out by hand. Tests alone, over
//! the calls that are checked elsewhere.
#![tactic(auto)]

#[cfg(test)]
mod alike;
#[cfg(test)]
mod made;
#[cfg(test)]
mod random;
#[cfg(test)]
mod texts;
#[cfg(test)]
mod ways;
#[cfg(test)]
mod worked;
