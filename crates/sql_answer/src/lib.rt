//! Answers an SQL text over the tables that a server holds: reads the text, and evaluates its tree
//! over them.
#![tactic(auto)]

mod answering;

pub use answering::answer_text;
