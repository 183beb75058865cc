// Rows of cells that take little memory: they stand column by column.
ghost use Rattle.std.specs.Prelude.{◌≡◌, ◌↔◌, ◌+◌, ◌<◌, ◌++◌, ℕ, []};
ghost use Rattle.std.specs.Prelude.{◌∷◌, IsTrue, IsFalse, IfOk, IfSome, OnErr, OnOk, false};
ghost use Rattle.std.specs.Prelude.{length, map, pos, slice_index_or};
ghost use Rattle.nq_model.specs.CellRefs.{cell_seen};
ghost use Rattle.rows.specs.Columns.{rows_over, EndBehind, HaveRows, widened};
ghost use Rattle.rows.specs.Places.{row_at};
ghost use Rattle.nq_model.specs.declared.table.Cell.TheVariants as cell;

use crate::column::{Column, are_below};
use nq_model::{Cell, CellRef, List, Memory};
use std::alloc::Global;
use std::marker::Model;

/// Rows of cells, which contracts see as the list of them. Where the rows have one width and each
/// column one type, an integer takes one, four or eight bytes, and none while its column has only
/// one; a truth value takes one; and a text four beside its own.
#[derive(Drop)]
pub struct Rows {
    alloc: Global,
    // The cells of the first rows.
    columns: Vec<Column>,
    // How many rows stand in the columns.
    in_columns: usize,
    // Whether the next row may stand there: all rows do, and no column goes on behind the last.
    is_open: bool,
    // The rows behind those: all from the first of another width.
    behind: List<List<Cell>>,
    len: usize,
}

impl Model for Rows {
    ghost use Rattle.std.specs.Prelude.{◌≡◌, ◌+◌, ◌++◌, [], List, IsTrue, length};
    ghost use Rattle.nq_model.specs.declared.table.Cell.{Cell};

    ghost Value = { List (List Cell) };

    ghost use Rattle.rows.specs.Columns.{rows_over, HaveRows, EndBehind};

    ghost view = { λ rows. rows_over rows.columns.items rows.in_columns ++ rows.behind };

    ghost invariant = { λ rows. HaveRows rows.columns.items rows.in_columns
        × (rows.len ≡ rows.in_columns + length rows.behind)
        × (IsTrue rows.is_open
        → EndBehind rows.columns.items rows.in_columns × (rows.behind ≡ [])) };
}

// Columns without cells, one for each cell of a row.
fn columns_for(alloc: Global, row: &[CellRef<'_>]) -> Result<Vec<Column>, Memory>
    ensures { IfOk result (λ columns. columns.items ≡ map (λ _. []) row.now) }
{
    let mut columns = Vec::with_capacity(alloc, row.len())?;
    for _ in row {
        columns.push(Column::new(alloc))?;
    }
    Ok(columns)
}

// Puts each cell of a row at the end of its column. If memory runs out, some cells may be put; the
// rows that stand in the columns stay.
fn push_each(columns: &mut Vec<Column>, row: &[CellRef<'_>]) -> Result<(), Memory>
    requires { length columns.old.items ≡ length row.now }
    ensures ok { OnOk result (columns.new.items
        ≡ widened columns.old.items (map cell_seen row.now)) }
    ensures rows { (count : ℕ) → HaveRows columns.old.items count
        → HaveRows columns.new.items count
        × (rows_over columns.new.items count ≡ rows_over columns.old.items count) }
{
    for at in 0..row.len() {
        columns[at].push(&row[at])?;
    }
    Ok(())
}

// The same columns, of which the cells can be shared.
fn shared(alloc: Global, columns: Vec<Column>) -> Result<Vec<Column>, Memory>
    ensures { IfOk result (λ shared. shared.items ≡ columns.items) }
{
    let mut shared = Vec::with_capacity(alloc, columns.len())?;
    for column in columns {
        shared.push(column.shared()?)?;
    }
    Ok(shared)
}

// A copy of a row.
fn copy_of(alloc: Global, row: &[CellRef<'_>]) -> Result<List<Cell>, Memory>
    ensures { IfOk result (λ copy. copy ≡ map cell_seen row.now) }
{
    let mut copy = List::with_capacity(alloc, row.len())?;
    for cell in row {
        copy.push(cell.copy(alloc)?)?;
    }
    Ok(copy)
}

impl Rows {
    /// No rows, which take no memory.
    pub fn new(alloc: Global) -> Rows
        ensures { result ≡ [] }
    {
        Rows {
            alloc,
            columns: Vec::new(alloc),
            in_columns: 0,
            is_open: true,
            behind: List::new(alloc),
            len: 0,
        }
    }

    /// The rows over columns of so many cells each.
    pub fn over(alloc: Global, columns: Vec<Column>, len: usize) -> Rows
        requires { EndBehind columns.items len }
        ensures { result ≡ rows_over columns.items len }
    {
        Rows {
            alloc,
            columns,
            in_columns: len,
            is_open: true,
            behind: List::new(alloc),
            len,
        }
    }

    /// The same rows, of whose columns the cells can be shared.
    pub fn shared(self) -> Result<Rows, Memory>
        ensures { IfOk result (λ rows. rows ≡ self) }
    {
        let Rows {
            alloc,
            columns,
            in_columns,
            is_open,
            behind,
            len,
        } = self;
        let columns = shared(alloc, columns)?;
        Ok(Rows {
            alloc,
            columns,
            in_columns,
            is_open,
            behind,
            len,
        })
    }

    /// The cells of a column at rows, both counted from 0, if they can be shared; none where they
    /// would be copied, or where one is not there.
    pub fn cells_at(&self, column: usize, rows: Vec<u32>) -> Result<Option<Column>, Memory>
        ensures { IfOk result (λ found. IfSome found (λ cells. cells ≡ map
            (λ row. slice_index_or (row_at self.now row) column (cell.Bool false))
            rows.items)) }
    {
        if column >= self.columns.len() || !are_below(rows.as_slice(), self.in_columns) {
            return Ok(None);
        }
        self.columns[column].at(rows)
    }

    /// How many rows there are.
    pub fn len(&self) -> usize
        ensures { result ≡ length self.now }
    {
        self.len
    }

    /// Whether there is none.
    pub fn is_empty(&self) -> bool
        ensures { IsTrue result ↔ (self.now ≡ []) }
    {
        self.len() == 0
    }

    /// How many cells a row has, and none past the last row. Rows are counted from 0.
    pub fn width(&self, row: usize) -> usize
        ensures { result ≡ length (slice_index_or self.now row []) }
    {
        if row < self.in_columns {
            return self.columns.len();
        }
        let at = row - self.in_columns;
        if at >= self.behind.len() {
            return 0;
        }
        self.behind.as_slice()[at].len()
    }

    /// The cell at a row and a column, both counted from 0.
    // Inlined: runs look up cells more than they do anything else, and a cell that is given back
    // through memory is copied there, which waits for whatever was read before it.
    #[inline(always)]
    pub fn cell(&self, row: usize, column: usize) -> CellRef<'_>
        requires { column < length (slice_index_or self.now row []) }
        ensures { cell_seen result
            ≡ slice_index_or (slice_index_or self.now row []) column (cell.Int (pos 0)) }
    {
        if row < self.in_columns {
            return self.columns[column].get(row);
        }
        self.behind.as_slice()[row - self.in_columns].as_slice()[column].as_ref()
    }

    /// A copy of a row, and an empty one past the last row.
    pub fn row(&self, alloc: Global, row: usize) -> Result<List<Cell>, Memory>
        ensures { IfOk result (λ copy. copy ≡ slice_index_or self.now row []) }
    {
        let mut copy = List::with_capacity(alloc, self.width(row))?;
        for column in 0..self.width(row) {
            copy.push(self.cell(row, column).copy(alloc)?)?;
        }
        Ok(copy)
    }

    // The cells of a row, lent to be read; none past the last row.
    fn lent_row(&self, alloc: Global, row: usize) -> Result<Vec<CellRef<'_>>, Memory>
        ensures { IfOk result (λ lent. map cell_seen lent.items ≡ slice_index_or self.now row []) }
    {
        let mut lent = Vec::with_capacity(alloc, self.width(row))?;
        for column in 0..self.width(row) {
            lent.push(self.cell(row, column))?;
        }
        Ok(lent)
    }

    /// A copy of the rows.
    pub fn copy(&self, alloc: Global) -> Result<Rows, Memory>
        ensures { IfOk result (λ copy. copy ≡ self.now) }
    {
        let mut copy = Rows::new(alloc);
        for row in 0..self.len() {
            let lent = self.lent_row(alloc, row)?;
            copy.push_lent(lent.as_slice())?;
        }
        Ok(copy)
    }

    // Makes the columns for rows like this one, where there is no row yet. The rows stay.
    fn make_columns(&mut self, row: &[CellRef<'_>]) -> Result<(), Memory>
        ensures { self.new ≡ self.old }
    {
        if self.len > 0 {
            return Ok(());
        }
        self.columns = columns_for(self.alloc, row)?;
        self.is_open = true;
        Ok(())
    }

    // Puts a row in the columns, so that there are so many, if it may stand there. If memory runs
    // out, the rows stay.
    fn push_in_columns(&mut self, row: &[CellRef<'_>], len: usize) -> Result<bool, Memory>
        requires { len ≡ length self.old + 1 }
        ensures put { IfOk result
            (λ put. IsTrue put → (self.new ≡ self.old ++ map cell_seen row.now ∷ [])) }
        ensures stays { IfOk result (λ put. IsFalse put → (self.new ≡ self.old)) }
        ensures err { OnErr result (self.new ≡ self.old) }
    {
        if !self.is_open || row.len() != self.columns.len() {
            return Ok(false);
        }
        self.is_open = false;
        push_each(&mut self.columns, row)?;
        self.is_open = true;
        self.in_columns = len;
        self.len = len;
        Ok(true)
    }

    // Puts a row behind those in the columns, so that there are so many. If memory runs out, the
    // rows stay.
    fn push_behind(&mut self, row: &[CellRef<'_>], len: usize) -> Result<(), Memory>
        requires { len ≡ length self.old + 1 }
        ensures ok { OnOk result (self.new ≡ self.old ++ map cell_seen row.now ∷ []) }
        ensures err { OnErr result (self.new ≡ self.old) }
    {
        self.behind.push(copy_of(self.alloc, row)?)?;
        self.is_open = false;
        self.len = len;
        Ok(())
    }

    /// Puts a row of lent cells at the end. If memory runs out, the rows stay.
    pub fn push_lent(&mut self, row: &[CellRef<'_>]) -> Result<(), Memory>
        ensures ok { OnOk result (self.new ≡ self.old ++ map cell_seen row.now ∷ []) }
        ensures err { OnErr result (self.new ≡ self.old) }
    {
        let Some(len) = self.len().checked_add(1) else {
            return Err(Memory);
        };
        self.make_columns(row)?;
        if self.push_in_columns(row, len)? {
            return Ok(());
        }
        self.push_behind(row, len)
    }

    /// Puts a row at the end. If memory runs out, the rows stay.
    pub fn push(&mut self, row: &[Cell]) -> Result<(), Memory>
        ensures ok { OnOk result (self.new ≡ self.old ++ row.now ∷ []) }
        ensures err { OnErr result (self.new ≡ self.old) }
    {
        let mut lent = Vec::with_capacity(self.alloc, row.len())?;
        for cell in row {
            lent.push(cell.as_ref())?;
        }
        self.push_lent(lent.as_slice())
    }
}
