// Tables as their rows.
use crate::rows::Rows;

/// The rows of a table, each with its cells in the order of the columns.
#[derive(Drop)]
pub struct Table {
    pub rows: Rows,
}
