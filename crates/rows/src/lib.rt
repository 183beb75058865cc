//! Rows of cells in little memory, which contracts see as lists, and tables of them.
#![tactic(auto)]

mod cells;
mod column;
mod integers;
mod rows;
mod table;
mod texts;

pub use column::Column;
pub use rows::Rows;
pub use table::Table;
