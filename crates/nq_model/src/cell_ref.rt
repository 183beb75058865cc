// Cells that are lent to be read.
ghost use Rattle.std.specs.Prelude.{◌≡◌, IfOk, Some};
ghost use Rattle.std.proofs.Common.{refl};
ghost use Rattle.std.specs.Cmp.{on_equiv, on_per, on_po, on_total, partial_equiv_from_equiv};
ghost use Rattle.nq_model.specs.Cells.{cell_cmp, cell_eq, column_type_of};
ghost use Rattle.nq_model.specs.CellRefs.{cell_seen, cell_fed};
ghost use Rattle.nq_model.specs.CellLaws.{cell_total, cell_equivalence, cell_partial_order, cells_equal, fed_alike};

use crate::memory::Memory;
use crate::table::{Cell, ColumnType};
use crate::text::Text;
use std::alloc::Global;
use std::cmp::Ordering;
use std::hash::{Hash, Hasher};

/// A cell that is lent to be read. In their order truth values stand first, with false before true,
/// then integers by value, and then texts by bytes.
#[derive(Clone, Copy)]
pub enum CellRef<'a> {
    Int(i64),
    Bool(bool),
    Text(&'a str),
}

impl CellRef<'_> {
    /// The type of the columns in which the cell may stand.
    pub fn column_type(&self) -> ColumnType
        ensures { result ≡ column_type_of (cell_seen self.now) }
    {
        match self {
            CellRef::Int(_) => ColumnType::Int,
            CellRef::Bool(_) => ColumnType::Bool,
            CellRef::Text(_) => ColumnType::Text,
        }
    }

    /// A copy of the cell.
    pub fn copy(&self, alloc: Global) -> Result<Cell, Memory>
        ensures { IfOk result (λ copy. copy ≡ cell_seen self.now) }
    {
        match self {
            CellRef::Int(number) => Ok(Cell::Int(*number)),
            CellRef::Bool(truth) => Ok(Cell::Bool(*truth)),
            CellRef::Text(text) => Ok(Cell::Text(Text::from_str(alloc, text)?)),
        }
    }
}

impl PartialEq for CellRef<'_> {
    ghost eq = { λ left right. cell_eq (cell_seen left) (cell_seen right) };

    ghost laws = { on_per cell_seen (partial_equiv_from_equiv cell_equivalence) };

    fn eq(&self, other: &Self) -> bool {
        match (self, other) {
            (CellRef::Int(left), CellRef::Int(right)) => left == right,
            (CellRef::Bool(left), CellRef::Bool(right)) => left == right,
            (CellRef::Text(left), CellRef::Text(right)) => left == right,
            _ => false,
        }
    }
}

impl Eq for CellRef<'_> {
    ghost laws = { on_equiv cell_seen cell_equivalence };
}

impl PartialOrd for CellRef<'_> {
    ghost partial_cmp = { λ left right. Some (cell_cmp (cell_seen left) (cell_seen right)) };

    ghost laws = { on_po cell_seen cell_partial_order };

    fn partial_cmp(&self, other: &Self) -> Option<Ordering> {
        Some(self.cmp(other))
    }
}

impl Ord for CellRef<'_> {
    ghost cmp = { λ left right. cell_cmp (cell_seen left) (cell_seen right) };

    ghost total = { on_total cell_seen cell_total };

    ghost matches_partial_cmp = { λ left right. refl };

    ghost matches_eq = { λ left right. cells_equal (cell_seen left) (cell_seen right) };

    fn cmp(&self, other: &Self) -> Ordering {
        match (self, other) {
            (CellRef::Bool(left), CellRef::Bool(right)) => left.cmp(right),
            (CellRef::Int(left), CellRef::Int(right)) => left.cmp(right),
            (CellRef::Text(left), CellRef::Text(right)) => left.cmp(right),
            (CellRef::Bool(_), _) => Ordering::Less,
            (_, CellRef::Bool(_)) => Ordering::Greater,
            (CellRef::Int(_), CellRef::Text(_)) => Ordering::Less,
            (CellRef::Text(_), CellRef::Int(_)) => Ordering::Greater,
        }
    }
}

impl Hash for CellRef<'_> {
    ghost hash_input = { λ lent. cell_fed (cell_seen lent) };

    ghost respects_eq = { λ left right. fed_alike (cell_seen left) (cell_seen right) };

    fn hash<H: Hasher>(&self, state: &mut H) {
        match self {
            CellRef::Bool(truth) => {
                state.write_u8(0);
                truth.hash(state);
            }
            CellRef::Int(number) => {
                state.write_u8(1);
                number.hash(state);
            }
            CellRef::Text(text) => {
                state.write_u8(2);
                text.hash(state);
            }
        }
    }
}

impl Cell {
    /// The cell, lent to be read.
    pub fn as_ref(&self) -> CellRef<'_>
        ensures { cell_seen result ≡ self.now }
    {
        match self {
            Cell::Int(number) => CellRef::Int(*number),
            Cell::Bool(truth) => CellRef::Bool(*truth),
            Cell::Text(text) => CellRef::Text(text.as_str()),
        }
    }
}
