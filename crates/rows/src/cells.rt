// Cells that take little memory: cells of one kind stand in a list of that kind.
ghost use Rattle.std.specs.Prelude.{◌≡◌, ◌<◌, ◌++◌, [], ◌∷◌, OnOk, OnErr};
ghost use Rattle.std.specs.Prelude.{length, pos, slice_index_or};
ghost use Rattle.nq_model.specs.CellRefs.{cell_seen};
ghost use Rattle.nq_model.specs.declared.table.Cell.TheVariants as cell;

use crate::integers::Integers;
use crate::texts::Texts;
use nq_model::{Cell, CellRef, List, Memory};
use std::alloc::Global;
use std::marker::Model;

// Cells, seen as the list of them. A list of one kind takes cells until the first of another kind
// is behind it; cells of one type all stand in one list.
#[derive(Drop)]
pub(crate) struct Cells {
    alloc: Global,
    integers: Integers,
    truths: Vec<bool>,
    texts: Texts,
    rest: List<Cell>,
}

impl Model for Cells {
    ghost use Rattle.std.specs.Prelude.{List};
    ghost use Rattle.nq_model.specs.declared.table.Cell.{Cell};

    ghost Value = { List Cell };

    ghost use Rattle.rows.specs.Columns.{column_of};

    ghost view = { λ column.
        column_of column.integers column.truths.items column.texts column.rest };
}

impl Cells {
    // No cells, which take no memory.
    pub(crate) fn new(alloc: Global) -> Cells
        ensures { result ≡ [] }
    {
        Cells {
            alloc,
            integers: Integers::new(alloc),
            truths: Vec::new(alloc),
            texts: Texts::new(alloc),
            rest: List::new(alloc),
        }
    }

    // The cell at a place. Inlined into the look-up of a row's cell.
    #[inline(always)]
    pub(crate) fn get(&self, at: usize) -> CellRef<'_>
        requires { at < length self.now }
        ensures { cell_seen result ≡ slice_index_or self.now at (cell.Int (pos 0)) }
    {
        if let Some(integer) = self.integers.get(at) {
            return CellRef::Int(integer);
        }
        let at = self.integers.behind(at);
        if at < self.truths.len() {
            return CellRef::Bool(self.truths[at]);
        }
        let at = at - self.truths.len();
        if at < self.texts.len() {
            return CellRef::Text(self.texts.get(at));
        }
        self.rest.as_slice()[at - self.texts.len()].as_ref()
    }

    // Puts a cell at the end. If memory runs out, the cells stay.
    pub(crate) fn push(&mut self, cell: &CellRef<'_>) -> Result<(), Memory>
        ensures ok { OnOk result (self.new ≡ self.old ++ cell_seen cell.now ∷ []) }
        ensures err { OnErr result (self.new ≡ self.old) }
    {
        let no_rest = self.rest.is_empty();
        let no_texts = no_rest && self.texts.len() == 0;
        let no_truths = no_texts && self.truths.is_empty();
        match cell {
            CellRef::Int(integer) if no_truths => self.integers.push(*integer),
            CellRef::Bool(truth) if no_texts => Ok(self.truths.push(*truth)?),
            CellRef::Text(text) if no_rest => self.texts.push(text),
            _ => self.rest.push(cell.copy(self.alloc)?),
        }
    }
}
