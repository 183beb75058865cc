// Rows in the order of their cells.
ghost use Rattle.std.specs.Prelude.{◌≡◌, All, IfOk, length};
ghost use Rattle.std.specs.List.Sorted.{IsPermutation};
ghost use Rattle.nq_model.specs.Cells.{RowFits};
ghost use Rattle.nq_model.specs.Numberings.{count_from};
ghost use Rattle.rows.specs.Places.{rows_at};
ghost use Rattle.canon.specs.RowTexts.{sorted_rows};

use nq_model::{ColumnType, Memory};
use row_order::order;
use rows::Rows;
use std::alloc::Global;

// The places of so many columns.
fn columns_of(alloc: Global, count: usize) -> Result<Vec<usize>, Memory>
    ensures { IfOk result (λ columns. columns.items ≡ count_from 0 count) }
{
    let mut columns = Vec::with_capacity(alloc, count)?;
    for column in 0..count {
        columns.push(column)?;
    }
    Ok(columns)
}

/// The places of all rows, counted from 0, in the order of the rows' cells from the left: by the
/// first cell that differs. Equal rows stand in any order. The types are those of the cells. Fails
/// only if memory runs out.
pub fn row_places(alloc: Global, rows: &Rows, types: &[ColumnType]) -> Result<Vec<u32>, Memory>
    requires { All (RowFits types.now) rows.now }
    ensures places { IfOk result
        (λ places. IsPermutation (count_from 0 (length rows.now)) places.items) }
    ensures order { IfOk result (λ places. rows_at rows.now places.items ≡ sorted_rows rows.now) }
{
    let columns = columns_of(alloc, types.len())?;
    let places = order(alloc, rows, columns.as_slice())?;
    Ok(places)
}
