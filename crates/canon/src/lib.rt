//! The canonical order of values, their canonical form, its text and the pieces of it, and the order
//! and the text of rows.
#![tactic(auto)]

mod laws;
mod order;
mod pieces;
mod row_lines;
mod sort;
mod sorted_rows;
mod text;

pub use laws::{form_laws, row_laws, text_laws};
pub use order::compare;
pub use pieces::{write_cell, write_separator};
pub use row_lines::write_row_lines;
pub use sort::sort_deep;
pub use sorted_rows::row_places;
pub use text::write;
