//! Answers that were made elsewhere: reads them from texts, and judges whether they are linked.
#![tactic(auto)]

mod columns;
mod faults;
mod given;
mod homes;
mod judge;
mod linked;
mod names;
mod read;

pub use faults::{AnswerFault, LinkFault};
pub use linked::links;
pub use read::read_answer;
