// Answers, and where they do not fit the types of their columns.
ghost use Rattle.std.specs.Prelude.{◌≡◌, ◌↔◌, List, All, IsTrue, OnOk, IfErr, MatchOption, [], map, slice_get, slice_index_or};
ghost use Rattle.nq_model.specs.Cells.{RowFits, column_type_of};
ghost use Rattle.nq_model.specs.declared.table.Cell.{Cell};
ghost use Rattle.nq_model.specs.declared.table.ColumnType.{ColumnType};
ghost use Rattle.sql_profile.specs.declared.answer.Misfit.{Misfit};
ghost use Rattle.sql_profile.specs.Fits.{DiffersFirstAt, IsFirstMisfit};

use nq_model::ColumnType;
use rows::Rows;

/// The rows with which a server answers a text.
#[derive(Drop)]
pub struct Answer {
    pub rows: Rows,
}

/// The first place where an answer does not fit its columns, counted from 1.
#[derive(Clone, Copy, Debug, PartialEq, Eq)]
pub struct Misfit {
    pub row: u64,
    pub column: u64,
}

// The type of the cell at a place of a row, if there is one.
fn type_at(rows: &Rows, row: usize, place: usize) -> Option<ColumnType>
    ensures { result ≡ slice_get (map column_type_of (slice_index_or rows.now row [])) place }
{
    if place >= rows.width(row) {
        return None;
    }
    Some(rows.cell(row, place).column_type())
}

// Whether the cell at a place is of the type of the column there, or neither is there.
fn agrees_at(rows: &Rows, row: usize, columns: &[ColumnType], place: usize) -> bool
    ensures { IsTrue result ↔ (slice_get (map column_type_of (slice_index_or rows.now row [])) place
        ≡ slice_get columns.now place) }
{
    type_at(rows, row, place) == columns.get(place).copied()
}

// The first place, counted from 0, where a cell is missing, of another type, or beyond the last
// column.
#[tactic(auto, using(crate::proofs::Misfits::take_more_got))]
fn first_difference(rows: &Rows, row: usize, columns: &[ColumnType]) -> Option<usize>
    ensures { MatchOption result (RowFits columns.now (slice_index_or rows.now row []))
        (DiffersFirstAt columns.now (slice_index_or rows.now row [])) }
{
    for place in 0..rows.width(row).max(columns.len()) {
        if !agrees_at(rows, row, columns, place) {
            return Some(place);
        }
    }
    None
}

/// An answer that fits has no first misfit, and every answer has at most one.
pub fn misfit_laws()
    ensures fitting { (rows : List (List Cell)) (types : List ColumnType) (misfit : Misfit)
        → All (RowFits types) rows → IsFirstMisfit rows types misfit → ⊥ }
    ensures at_most_one { (rows : List (List Cell)) (types : List ColumnType)
        (misfit other : Misfit)
        → IsFirstMisfit rows types misfit → IsFirstMisfit rows types other → misfit ≡ other }
{}

/// Whether each row of the answer has a cell of each column's type, and no more. The error names
/// the first row, and in it the first column, where a cell is missing, of another type, or beyond
/// the last column.
#[tactic(auto, using(crate::proofs::Misfits::first_misfit))]
pub fn fits(answer: &Answer, columns: &[ColumnType]) -> Result<(), Misfit>
    ensures ok { OnOk result (All (RowFits columns.now) answer.now.rows) }
    ensures err { IfErr result (IsFirstMisfit answer.now.rows columns.now) }
{
    for index in 0..answer.rows.len() {
        if let Some(place) = first_difference(&answer.rows, index, columns) {
            return Err(Misfit {
                row: index as u64 + 1,
                column: place as u64 + 1,
            });
        }
    }
    Ok(())
}
