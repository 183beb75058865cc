//! The order of rows by their cells under some columns.
#![tactic(auto)]

mod frames;
mod heads;
mod keys;
mod places;
mod ranks;
mod runs;

pub use places::{order, order_places};
