// Keys, and the first row of each.
ghost use Rattle.std.specs.Prelude.{◌≡◌, ◌+◌, ◌++◌, ◌∷◌, [], map, None, IfOk, option_copied, option_map, slice_index_or};
ghost use Rattle.std.specs.Option.{unwrap_or};
ghost use Rattle.nq_model.specs.CellRefs.{cell_seen};
ghost use Rattle.nq_model.specs.NamedRows.{no_cell};
ghost use Rattle.nq_model.specs.declared.table.TableShape.{TableShape};
ghost use Rattle.row_keys.specs.Codes.{cell_code, key_code};
ghost use Rattle.row_keys.specs.FirstRows.{cell_at, cell_of_key, cells_at, key_places, place_of, Enters, Indexes, KeepsIndex};
ghost use Rattle.row_keys.specs.Keys.{twin_of};

use crate::code_map::{CodeMap, slots_for, slots_for_rows};
use crate::codes::cell_code;
use nq_model::{CellRef, ColumnType, Label, Memory, TableShape};
use rows::Rows;
use std::alloc::Global;
use std::collections::BTreeMap;

// A cell of a key.
#[derive(PartialEq, Eq, PartialOrd, Ord, Drop)]
pub(crate) enum KeyCell {
    Int(i64),
    Bool(bool),
    Text(String),
}

/// The first row of each key, counted from 0. A key that is found by its code takes some 30 bytes,
/// and a copy of its cells more than 100, so a key is copied only where an earlier one has its
/// code.
#[derive(Drop)]
pub struct KeyIndex {
    columns: Vec<Option<usize>>,
    first_rows: CodeMap,
    others: BTreeMap<Vec<KeyCell>, u32>,
}

fn column_named(columns: &[(Label, ColumnType)], name: &str) -> Option<usize>
    ensures { result ≡ place_of columns.now name.now }
{
    columns.iter().position(|column| name == column.0.as_str())
}

// A cell of a key, where that of a row is this one. A column that is not there counts as FALSE.
fn key_cell(alloc: Global, cell: Option<&CellRef<'_>>) -> Result<KeyCell, Memory>
    ensures { IfOk result (λ key.
        cell_of_key key ≡ unwrap_or (option_map cell_seen (option_copied cell.entry)) no_cell) }
{
    let Some(cell) = cell else {
        return Ok(KeyCell::Bool(false));
    };
    match cell {
        CellRef::Int(number) => Ok(KeyCell::Int(*number)),
        CellRef::Bool(truth) => Ok(KeyCell::Bool(*truth)),
        CellRef::Text(text) => Ok(KeyCell::Text(String::from_str(alloc, text)?)),
    }
}

// The places of the columns of the key.
fn key_places(alloc: Global, shape: &TableShape) -> Result<Vec<Option<usize>>, Memory>
    ensures { IfOk result (λ places. places.items ≡ key_places shape.now) }
{
    let columns = shape.columns.as_slice();
    let names = shape.key.as_slice().iter();
    let places = names
        .map(|name| column_named(columns, name.as_str()))
        .collect(alloc)?;
    Ok(places)
}

// The code of a key with one more cell, where that of a row is this one.
fn code_with_cell(code: u32, cell: Option<&CellRef<'_>>) -> u32
    ensures { result ≡ cell_code code
        (unwrap_or (option_map cell_seen (option_copied cell.entry)) no_cell) }
{
    let Some(cell) = cell else {
        return cell_code(code, &CellRef::Bool(false));
    };
    cell_code(code, cell)
}

// The cell of a row at the place of a column, if there is one.
fn cell_at<'r, 'f>(row: &'r [CellRef<'f>], place: Option<usize>) -> Option<&'r CellRef<'f>>
    ensures { option_map cell_seen (option_copied result) ≡ cell_at (map cell_seen row.now) place }
{
    row.get(place?)
}

// The cells of a row, lent to be read.
fn cells_of(alloc: Global, rows: &Rows, row: usize) -> Result<Vec<CellRef<'_>>, Memory>
    ensures { IfOk result (λ cells. map cell_seen cells.items ≡ slice_index_or rows.now row []) }
{
    let mut cells = Vec::with_capacity(alloc, rows.width(row))?;
    for column in 0..rows.width(row) {
        cells.push(rows.cell(row, column))?;
    }
    Ok(cells)
}

// The number of a row in messages, where rows are counted from 1.
fn number_of(place: u32) -> u64
    ensures { result ≡ place + 1 }
{
    u64::from(place) + 1
}

impl KeyIndex {
    /// An index of no row, with slots for the keys of a table text. Fails only if memory runs out.
    pub fn new(alloc: Global, shape: &TableShape, text: &[u8]) -> Result<KeyIndex, Memory>
        ensures { IfOk result (Indexes shape.now []) }
    {
        KeyIndex::with_slots(alloc, shape, slots_for(text))
    }

    /// An index of no row, with slots for about so many keys. Fails only if memory runs out.
    pub fn for_rows(alloc: Global, shape: &TableShape, count: usize) -> Result<KeyIndex, Memory>
        ensures { IfOk result (Indexes shape.now []) }
    {
        KeyIndex::with_slots(alloc, shape, slots_for_rows(count))
    }

    // An index of no row, with so many slots if the table has a key.
    #[tactic(auto, using(crate::proofs::IndexFacts::indexes_none))]
    fn with_slots(alloc: Global, shape: &TableShape, slots: usize) -> Result<KeyIndex, Memory>
        ensures { IfOk result (Indexes shape.now []) }
    {
        let columns = key_places(alloc, shape)?;
        let count = if columns.is_empty() { 0 } else { slots };
        Ok(KeyIndex {
            columns,
            first_rows: CodeMap::new(alloc, count)?,
            others: BTreeMap::new(alloc),
        })
    }

    // The code of the key of a row.
    #[tactic(auto, using(crate::proofs::KeyFacts::code_none))]
    fn code_of(&self, row: &[CellRef<'_>]) -> u32
        ensures { result ≡ key_code (cells_at (map cell_seen row.now) self.now.columns.items) }
    {
        let mut code = 0;
        for place in &self.columns {
            code = code_with_cell(code, cell_at(row, *place));
        }
        code
    }

    // The key of a row.
    fn key_of(&self, alloc: Global, row: &[CellRef<'_>]) -> Result<Vec<KeyCell>, Memory>
        ensures { IfOk result (λ key.
            map cell_of_key key.items ≡ cells_at (map cell_seen row.now) self.now.columns.items) }
    {
        let mut key = Vec::with_capacity(alloc, self.columns.len())?;
        for place in &self.columns {
            key.push(key_cell(alloc, cell_at(row, *place))?)?;
        }
        Ok(key)
    }

    // Enters a row after those before it. Tells the number of the first row that has its key
    // instead, if there is one.
    fn enter(
        &mut self,
        alloc: Global,
        rows: &Rows,
        row: &[CellRef<'_>],
    ) -> Result<Option<u64>, Memory>
        ensures { IfOk result (λ found. (shape : TableShape)
            → Indexes shape rows.now self.old
            → Enters shape rows.now (map cell_seen row.now) self.new found) }
    {
        let place = u32::try_from(rows.len()).map_err(|_| Memory)?;
        let code = self.code_of(row);
        let Some(first) = self.first_rows.get(code) else {
            self.first_rows.insert(code, place)?;
            return Ok(None);
        };
        let key = self.key_of(alloc, row)?;
        let first_row = cells_of(alloc, rows, first as usize)?;
        let first_key = self.key_of(alloc, first_row.as_slice())?;
        if key == first_key {
            return Ok(Some(number_of(first)));
        }
        let earlier = self.others.insert(key, place)?;
        Ok(earlier.map(number_of))
    }
}

/// The number of the first of these rows that has the key of a row, where the table has a key. If
/// none has it, the index then knows the row too. Fails only if memory runs out.
#[tactic(auto, unfolding(crate::specs::Keys::twin_of))]
pub fn earlier_twin(
    alloc: Global,
    shape: &TableShape,
    rows: &Rows,
    index: &mut KeyIndex,
    row: &[CellRef<'_>],
) -> Result<Option<u64>, Memory>
    ensures twin { IfOk result
        (λ found. KeepsIndex shape.now rows.now index.old
        → twin_of shape.now (map cell_seen row.now) rows.now ≡ found) }
    ensures keeps { IfOk result (λ found. KeepsIndex shape.now rows.now index.old → found ≡ None
        → KeepsIndex shape.now (rows.now ++ map cell_seen row.now ∷ []) index.new) }
{
    if shape.key.is_empty() {
        return Ok(None);
    }
    index.enter(alloc, rows, row)
}
