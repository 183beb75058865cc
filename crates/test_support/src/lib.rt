//! What several crates of tests share: queries over an organisation, and texts that are put together.
#![tactic(auto)]

mod page;
mod queries;

pub use page::Page;
pub use queries::{org, plain};
