// Rows as texts.
use nq_model::{Cell, List, Memory};
use rows::Rows;
use std::alloc::Global;

/// A row, each cell with a blank behind it.
pub fn line(alloc: Global, row: &List<Cell>) -> Result<String, Memory> {
    let mut text = String::new(alloc);
    for cell in row.as_slice() {
        match cell {
            Cell::Int(number) => write!(text, "{number} ")?,
            Cell::Bool(truth) => write!(text, "{truth} ")?,
            Cell::Text(word) => write!(text, "{} ", word.as_str())?,
        }
    }
    Ok(text)
}

/// The rows one by one.
pub fn listed(alloc: Global, rows: &Rows) -> Result<Vec<List<Cell>>, Memory> {
    let mut list = Vec::new(alloc);
    for row in 0..rows.len() {
        list.push(rows.row(alloc, row)?)?;
    }
    Ok(list)
}
