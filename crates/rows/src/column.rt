// Columns of rows, which may share their cells.
ghost use Rattle.std.specs.Prelude.{◌≡◌, ◌<◌, ◌↔◌, ◌+◌, ◌++◌, []};
ghost use Rattle.std.specs.Prelude.{◌∷◌, All, IfOk, IfSome, IsTrue, OnErr, OnOk, length, map};
ghost use Rattle.std.specs.Prelude.{pos, replicate, slice_index_or};
ghost use Rattle.nq_model.specs.CellRefs.{cell_seen};
ghost use Rattle.nq_model.specs.declared.table.Cell.TheVariants as cell;
ghost use Rattle.rows.specs.Held.{ArePlacesIn, cells_at, held_cells, number_cells};

use crate::cells::Cells;
use nq_model::{Cell, CellRef, Memory};
use std::alloc::Global;
use std::marker::Model;
use std::rc::Rc;

// Where the cells of a column are.
#[derive(Drop)]
pub(crate) enum Held {
    // In the column alone, which may get more.
    Own(Cells),
    // In memory that columns share.
    Shared(Rc<Cells>),
    // There too, at these places.
    Placed { cells: Rc<Cells>, places: Vec<u32> },
    // Once, for so many.
    Repeated { cell: Cell, count: usize },
    // As numbers.
    Numbers(Vec<u32>),
}

/// A column of rows, which contracts see as the list of its cells. Columns may share the cells of
/// one, all of them or those at places, so that no cell is copied; a cell that is repeated is held
/// once, and numbers take four bytes each.
#[derive(Drop)]
pub struct Column {
    alloc: Global,
    held: Held,
    len: usize,
}

impl Model for Column {
    ghost use Rattle.std.specs.Prelude.{◌≡◌, List, length};
    ghost use Rattle.nq_model.specs.declared.table.Cell.{Cell};

    ghost Value = { List Cell };

    ghost use Rattle.rows.specs.Held.{IsHeld, held_cells};

    ghost view = { λ column. held_cells column.held };

    ghost invariant = { λ column. (column.len ≡ length (held_cells column.held))
        × IsHeld column.held };
}

// Whether all places are below an end.
pub(crate) fn are_below(places: &[u32], end: usize) -> bool
    ensures { IsTrue result → All (λ place. place < end) places.now }
{
    for place in places {
        if *place as usize >= end {
            return false;
        }
    }
    true
}

// The places at these places of others.
fn composed(places: &[u32], mut at: Vec<u32>) -> Vec<u32>
    requires { All (λ place. place < length places.now) at.items }
    ensures { result.items ≡ map (λ place. slice_index_or places.now place 0) at.items }
{
    for index in 0..at.len() {
        at[index] = places[at[index] as usize];
    }
    at
}

// The column of shared cells at places.
fn placed(alloc: Global, cells: &Rc<Cells>, places: Vec<u32>) -> Result<Column, Memory>
    requires { ArePlacesIn cells.now.value places.items }
    ensures { IfOk result (λ column. column ≡ cells_at cells.now.value places.items) }
{
    let len = places.len();
    Ok(Column {
        alloc,
        held: Held::Placed {
            cells: cells.clone()?,
            places,
        },
        len,
    })
}

impl Column {
    /// No cells, which take no memory.
    pub fn new(alloc: Global) -> Column
        ensures { result ≡ [] }
    {
        Column {
            alloc,
            held: Held::Own(Cells::new(alloc)),
            len: 0,
        }
    }

    /// One cell, so many times.
    pub fn repeated(alloc: Global, cell: &CellRef<'_>, count: usize) -> Result<Column, Memory>
        ensures { IfOk result (λ column. column ≡ replicate count (cell_seen cell.now)) }
    {
        Ok(Column {
            alloc,
            held: Held::Repeated {
                cell: cell.copy(alloc)?,
                count,
            },
            len: count,
        })
    }

    /// A cell for each number.
    pub fn numbers(alloc: Global, numbers: Vec<u32>) -> Column
        ensures { result ≡ number_cells numbers.items }
    {
        let len = numbers.len();
        Column {
            alloc,
            held: Held::Numbers(numbers),
            len,
        }
    }

    /// How many cells there are.
    pub fn len(&self) -> usize
        ensures { result ≡ length self.now }
    {
        self.len
    }

    /// Whether there is none.
    pub fn is_empty(&self) -> bool
        ensures { IsTrue result ↔ (self.now ≡ []) }
    {
        self.len() == 0
    }

    // The cell at a place. Inlined into the look-up of a row's cell.
    #[inline(always)]
    pub(crate) fn get(&self, at: usize) -> CellRef<'_>
        requires { at < length self.now }
        ensures { cell_seen result ≡ slice_index_or self.now at (cell.Int (pos 0)) }
    {
        match &self.held {
            Held::Own(cells) => cells.get(at),
            Held::Shared(cells) => cells.as_ref().get(at),
            Held::Placed { cells, places } => cells.as_ref().get(places[at] as usize),
            Held::Repeated { cell, .. } => cell.as_ref(),
            Held::Numbers(numbers) => CellRef::Int(i64::from(numbers[at])),
        }
    }

    // A copy of the cells in the column alone.
    fn copied(&self) -> Result<Cells, Memory>
        ensures { IfOk result (λ cells. cells ≡ self.now) }
    {
        let mut cells = Cells::new(self.alloc);
        for at in 0..self.len {
            cells.push(&self.get(at))?;
        }
        Ok(cells)
    }

    // Puts a cell at the end of a copy, so that there are so many, and holds that.
    fn push_to_copy(&mut self, cell: &CellRef<'_>, len: usize) -> Result<(), Memory>
        requires { len ≡ length self.old + 1 }
        ensures ok { OnOk result (self.new ≡ self.old ++ cell_seen cell.now ∷ []) }
        ensures err { OnErr result (self.new ≡ self.old) }
    {
        let mut cells = self.copied()?;
        cells.push(cell)?;
        self.held = Held::Own(cells);
        self.len = len;
        Ok(())
    }

    /// Puts a cell at the end. Cells that are shared are copied before. If memory runs out, the
    /// cells stay.
    pub fn push(&mut self, cell: &CellRef<'_>) -> Result<(), Memory>
        ensures ok { OnOk result (self.new ≡ self.old ++ cell_seen cell.now ∷ []) }
        ensures err { OnErr result (self.new ≡ self.old) }
    {
        let Some(len) = self.len.checked_add(1) else {
            return Err(Memory);
        };
        match &mut self.held {
            Held::Own(cells) => {
                cells.push(cell)?;
                self.len = len;
                Ok(())
            }
            _ => self.push_to_copy(cell, len),
        }
    }

    /// The same cells, which others may share.
    pub(crate) fn shared(self) -> Result<Column, Memory>
        ensures { IfOk result (λ column. column ≡ self) }
    {
        let Column { alloc, held, len } = self;
        let held = match held {
            Held::Own(cells) => Held::Shared(Rc::new(alloc, cells)?),
            held => held,
        };
        Ok(Column { alloc, held, len })
    }

    /// The cells at places, if they can be shared; none where they would be copied.
    pub(crate) fn at(&self, places: Vec<u32>) -> Result<Option<Column>, Memory>
        requires { ArePlacesIn self.now places.items }
        ensures { IfOk result (λ found. IfSome found (λ column.
            column ≡ cells_at self.now places.items)) }
    {
        match &self.held {
            Held::Own(_) => Ok(None),
            Held::Shared(cells) => {
                let column = placed(self.alloc, cells, places)?;
                Ok(Some(column))
            }
            Held::Placed { cells, places: own } => {
                let column = placed(self.alloc, cells, composed(own.as_slice(), places))?;
                Ok(Some(column))
            }
            Held::Repeated { cell, .. } => {
                let column = Column::repeated(self.alloc, &cell.as_ref(), places.len())?;
                Ok(Some(column))
            }
            Held::Numbers(own) => {
                let numbers = composed(own.as_slice(), places);
                Ok(Some(Column::numbers(self.alloc, numbers)))
            }
        }
    }
}
