// What stands in rows.
ghost use Rattle.std.specs.Prelude.{◌≡◌, ◌+◌};
ghost use Rattle.nq_model.specs.CellRefs.{cell_seen};
ghost use Rattle.rows.specs.Places.{row_at};
ghost use Rattle.row_order.specs.Keys.{cell_at};
ghost use Rattle.stitcher.specs.FlatNumbers.{int_at, index_at};

use nq_model::CellRef;
use rows::Rows;

/// The cell of a row under a column, and FALSE where it has none.
#[inline(always)]
pub(crate) fn cell_at(rows: &Rows, row: usize, column: usize) -> CellRef<'_>
    ensures { cell_seen result ≡ cell_at column (row_at rows.now row) }
{
    if column >= rows.width(row) {
        return CellRef::Bool(false);
    }
    rows.cell(row, column)
}

/// The integer under a column, and 0 where none stands.
pub(crate) fn int_at(rows: &Rows, row: usize, column: usize) -> i64
    ensures { result ≡ int_at (row_at rows.now row) column }
{
    match cell_at(rows, row, column) {
        CellRef::Int(number) => number,
        CellRef::Bool(_) | CellRef::Text(_) => 0,
    }
}

// The integer after a column.
fn int_after(rows: &Rows, row: usize, column: usize) -> i64
    ensures { result ≡ int_at (row_at rows.now row) (column + 1) }
{
    if column >= rows.width(row) {
        return 0;
    }
    int_at(rows, row, column + 1)
}

/// The index whose tag stands under a column, its number beside it.
pub(crate) fn index_at(rows: &Rows, row: usize, column: usize) -> (i64, i64)
    ensures { result ≡ index_at (row_at rows.now row) column }
{
    (int_at(rows, row, column), int_after(rows, row, column))
}
