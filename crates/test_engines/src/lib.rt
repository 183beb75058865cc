//! SQL texts with the answers of the servers, worked out by hand: tests alone, over the calls that are checked
//! elsewhere.
#![tactic(auto)]

#[cfg(test)]
mod asked;
#[cfg(test)]
mod failing;
#[cfg(test)]
mod honest;
#[cfg(test)]
mod large;
#[cfg(test)]
mod loading;
#[cfg(test)]
mod long;
#[cfg(test)]
mod scripted;
#[cfg(test)]
mod tables;
