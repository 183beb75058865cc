//! What is read and what is written, as two traits, with fakes in memory and adapters over files
//! and writers.
#![tactic(auto)]

mod file_inputs;
mod held_inputs;
mod held_sink;
mod inputs;
mod line;
mod sink;
mod std_sink;

pub use file_inputs::FileInputs;
pub use held_inputs::HeldInputs;
pub use held_sink::HeldSink;
pub use inputs::{FetchFault, Inputs};
pub use line::{
    put_eight, put_five, put_four, put_nine, put_one, put_seven, put_six, put_three, put_two,
};
pub use sink::{PutFault, Sink};
pub use std_sink::StdSink;

#[cfg(test)]
mod tests;
