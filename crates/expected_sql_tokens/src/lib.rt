//! The kinds of tokens with which an SQL text could have gone on where it ceases to be one.
#![tactic(auto)]

mod expected;
mod kinds;
mod samples;
mod token_kinds;

pub use expected::expected_sql_kinds;
pub use kinds::{KINDS, SqlTokenKind};
pub use token_kinds::kind_of;
