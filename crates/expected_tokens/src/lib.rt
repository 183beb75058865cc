//! The kinds of tokens with which a query could have gone on where it ceases to be one.
#![tactic(auto)]

mod expected;
mod kinds;
mod samples;

pub use expected::expected_kinds;
pub use kinds::{KINDS, TokenKind};
