//! Explanations of faults of table texts: the line of the file with a caret under the cell, the
//! row, the name of the column and the cell.
#![tactic(auto)]

mod cells;
mod faults;
mod laws;
mod lines;
mod places;
mod sentences;

pub use faults::explain_table;
pub use laws::walk_laws;
