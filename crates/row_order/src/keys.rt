// The cells of rows, and how rows compare by their keys.
ghost use Rattle.std.specs.Prelude.{◌≡◌, ◌∷◌};
ghost use Rattle.std.specs.Cmp.Lexicographic.{slice_cmp};
ghost use Rattle.nq_model.specs.CellRefs.{cell_seen};
ghost use Rattle.nq_model.specs.Cells.{cell_cmp};
ghost use Rattle.rows.specs.Places.{row_at};
ghost use Rattle.row_order.specs.Keys.{cell_at, key_of};

use nq_model::CellRef;
use rows::Rows;
use std::cmp::Ordering;

// The cell of a row under a column, and FALSE where it has none.
pub(crate) fn cell_at(rows: &Rows, place: u32, column: usize) -> CellRef<'_>
    ensures { cell_seen result ≡ cell_at column (row_at rows.now place) }
{
    let row = place as usize;
    if column >= rows.width(row) {
        return CellRef::Bool(false);
    }
    rows.cell(row, column)
}

// Compares two rows column by column.
fn compare_columns(rows: &Rows, columns: &[usize], left: u32, right: u32) -> Ordering
    ensures { result ≡ slice_cmp cell_cmp (key_of columns.now (row_at rows.now left))
        (key_of columns.now (row_at rows.now right)) }
{
    for column in columns {
        let order = cell_at(rows, left, *column).cmp(&cell_at(rows, right, *column));
        if order != Ordering::Equal {
            return order;
        }
    }
    Ordering::Equal
}

// Compares two rows by a column and then by later ones.
pub(crate) fn compare_keys(
    rows: &Rows,
    column: usize,
    later: &[usize],
    left: u32,
    right: u32,
) -> Ordering
    ensures { result ≡ slice_cmp cell_cmp (key_of (column ∷ later.now) (row_at rows.now left))
        (key_of (column ∷ later.now) (row_at rows.now right)) }
{
    match cell_at(rows, left, column).cmp(&cell_at(rows, right, column)) {
        Ordering::Equal => compare_columns(rows, later, left, right),
        other => other,
    }
}
