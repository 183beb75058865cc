//! SQL trees as text: keywords in capitals, names in double quotes, each operation in parentheses.
#![tactic(auto)]

mod expr;
mod from;
mod literal;
mod query;
mod text;

pub use text::print;
