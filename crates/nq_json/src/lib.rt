//! Values and rows as JSON, and JSON as values and tables: the JSON form of a value or of rows and
//! its text, the value of a type that a JSON value is the form of, and the rows of a JSON table.
#![tactic(auto)]

mod form;
mod laws;
mod row_arrays;
mod shape;
mod tables;

pub use form::{json_of, write_json, write_line};
pub use laws::{form_laws, json_table_laws};
pub use row_arrays::write_json_rows;
pub use shape::{JsonFault, value_of};
pub use tables::{JsonTableFault, read_json_table};
