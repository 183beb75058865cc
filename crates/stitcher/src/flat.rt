// The flat index scheme.
ghost use Rattle.std.specs.Prelude.{◌≡◌, ◌+◌, ◌++◌, ◌<◌, [], IfOk, OnOk, map, length, get_or, slice_index_or};
ghost use Rattle.nq_model.specs.Types.{type_tree, field_types_of, fields_view};
ghost use Rattle.nq_ir.specs.Parts.{element_types, element_types_in};
ghost use Rattle.stitcher.specs.Schemes.{element_of};
ghost use Rattle.stitcher.specs.FlatNumbers.{level_of, with_leaf, with_slot, with_part, with_parts, int_at, flat_numbers};

use crate::scheme::IndexScheme;
use nq_model::{CellRef, ColumnType, Label, List, Memory, Ty};
use rows::Rows;
use std::alloc::Global;

/// The columns of one path: those of its answer, the columns of the base parts of its element,
/// counted from 1, and the places of its inner bags, counted from 0.
#[derive(Drop)]
struct Level {
    columns: List<ColumnType>,
    leaves: List<u64>,
    slots: List<u64>,
}

/// Indexes of a tag and a number: the tag says which comprehension made an element, the number
/// which choice of rows.
///
/// After the flat indexes of Cheney, Lindley and Wadler, "Query Shredding", SIGMOD 2014.
#[derive(Drop)]
pub struct FlatNumbers {
    elements: List<Ty>,
    levels: List<Level>,
    ghost laid: { levels ≡ map level_of (map type_tree elements) },
}

impl FlatNumbers {
    /// The scheme of a type.
    pub fn new(alloc: Global, of: &Ty) -> Result<FlatNumbers, Memory>
        ensures { IfOk result (λ made.
            ⟦<FlatNumbers as IndexScheme>⟧.scheme made
            ≡ flat_numbers (element_types (type_tree of.now))) }
    {
        let mut elements = List::new(alloc);
        push_elements(alloc, of, &mut elements)?;
        let levels = levels_of(alloc, elements.as_slice())?;
        Ok(FlatNumbers { elements, levels })
    }

    fn level(&self, path: u64) -> &Level
        requires { path < length self.now.elements }
        ensures { result.now ≡ level_of (element_of (map type_tree self.now.elements) path) }
    {
        &self.levels.as_slice()[path as usize]
    }
}

impl IndexScheme for FlatNumbers {
    ghost use Rattle.std.specs.Prelude.{map, refl};
    ghost use Rattle.nq_model.specs.Types.{type_tree};
    ghost use Rattle.stitcher.specs.FlatNumbers.{flat_numbers};
    ghost use Rattle.nq_model.specs.declared.table.ColumnType.TheVariants as column;
    ghost use Rattle.shred_types.proofs.Places.{base_typed};
    ghost use Rattle.stitcher.specs.Schemes.{element_of};

    type Index = (i64, i64);

    ghost scheme = { λ f. flat_numbers (map type_tree f.elements) };

    fn columns(&self, alloc: Global, path: u64) -> Result<List<ColumnType>, Memory> {
        List::from_slice(alloc, self.level(path).columns.as_slice())
    }

    fn base(&self, path: u64, leaf: u64) -> u64 {
        number_at(self.level(path).leaves.as_slice(), leaf)
    }

    fn top(&self) -> (i64, i64) {
        (0, 1)
    }

    fn outer(
        &self,
        _alloc: Global,
        _path: u64,
        rows: &Rows,
        row: usize,
    ) -> Result<(i64, i64), Memory> {
        Ok((int_at(rows, row, 0), int_at(rows, row, 1)))
    }

    fn inner(
        &self,
        _alloc: Global,
        path: u64,
        slot: u64,
        rows: &Rows,
        row: usize,
    ) -> Result<(i64, i64), Memory> {
        let place = number_at(self.level(path).slots.as_slice(), slot);
        Ok((int_at(rows, row, place), int_after(rows, row, place)))
    }

    ghost compares = { λ s i j. refl };

    ghost bases_are_typed = { λ s q l h.
        base_typed (element_of (map type_tree s.elements) q) column.Int column.Int l h.1 };
}

// The number at a place of a list, or 0 past its end.
fn number_at(numbers: &[u64], place: u64) -> u64
    ensures { result ≡ get_or numbers.now place 0 }
{
    match numbers.get(place as usize) {
        Some(number) => *number,
        None => 0,
    }
}

// The integer at a place of a row, counted from 0, or 0 where none stands.
fn int_at(rows: &Rows, row: usize, place: u64) -> i64
    ensures { result ≡ int_at (slice_index_or rows.now row []) place }
{
    if place >= rows.width(row) as u64 {
        return 0;
    }
    match rows.cell(row, place as usize) {
        CellRef::Int(number) => number,
        CellRef::Bool(_) | CellRef::Text(_) => 0,
    }
}

// The integer after a place.
fn int_after(rows: &Rows, row: usize, place: u64) -> i64
    ensures { result ≡ int_at (slice_index_or rows.now row []) (place + 1) }
{
    if place >= rows.width(row) as u64 {
        return 0;
    }
    int_at(rows, row, place + 1)
}

// Puts copies of the element types of a type's bags at the end, in path order.
#[cycle(elements)]
fn push_elements(alloc: Global, of: &Ty, all: &mut List<Ty>) -> Result<(), Memory>
    ensures { OnOk result (map type_tree all.new
        ≡ map type_tree all.old ++ element_types (type_tree of.now)) }
{
    match of {
        Ty::Int | Ty::Bool | Ty::Text | Ty::Fun(_, _) => Ok(()),
        Ty::Rec(fields) => push_field_elements(alloc, fields.as_slice(), all),
        Ty::Bag(element) => {
            all.push(element.copy(alloc)?)?;
            push_elements(alloc, element, all)
        }
    }
}

#[cycle(elements)]
fn push_field_elements(
    alloc: Global,
    fields: &[(Label, Ty)],
    all: &mut List<Ty>,
) -> Result<(), Memory>
    ensures { OnOk result (map type_tree all.new
        ≡ map type_tree all.old ++ element_types_in (field_types_of (fields_view fields.now))) }
{
    for field in fields {
        push_elements(alloc, &field.1, all)?;
    }
    Ok(())
}

// The level of each element type.
fn levels_of(alloc: Global, elements: &[Ty]) -> Result<List<Level>, Memory>
    ensures { IfOk result (λ levels. levels ≡ map level_of (map type_tree elements.now)) }
{
    let mut levels = List::with_capacity(alloc, elements.len())?;
    for element in elements {
        levels.push(level_of(alloc, element)?)?;
    }
    Ok(levels)
}

fn level_of(alloc: Global, element: &Ty) -> Result<Level, Memory>
    ensures { IfOk result (λ level. level ≡ level_of (type_tree element.now)) }
{
    let mut level = Level {
        columns: List::from_slice(alloc, &[ColumnType::Int, ColumnType::Int])?,
        leaves: List::new(alloc),
        slots: List::new(alloc),
    };
    put_part(&mut level, element)?;
    Ok(level)
}

// Puts the columns of a part of the element at the end.
#[cycle(parts)]
fn put_part(level: &mut Level, part: &Ty) -> Result<(), Memory>
    ensures { OnOk result (level.new ≡ with_part level.old (type_tree part.now)) }
{
    match part {
        Ty::Int => put_leaf(level, ColumnType::Int),
        Ty::Bool => put_leaf(level, ColumnType::Bool),
        Ty::Text => put_leaf(level, ColumnType::Text),
        Ty::Rec(fields) => put_fields(level, fields.as_slice()),
        Ty::Bag(_) => put_slot(level),
        Ty::Fun(_, _) => Ok(()),
    }
}

#[cycle(parts)]
fn put_fields(level: &mut Level, fields: &[(Label, Ty)]) -> Result<(), Memory>
    ensures { OnOk result (level.new
        ≡ with_parts level.old (field_types_of (fields_view fields.now))) }
{
    for field in fields {
        put_part(level, &field.1)?;
    }
    Ok(())
}

// A base part: one column.
fn put_leaf(level: &mut Level, column: ColumnType) -> Result<(), Memory>
    ensures { OnOk result (level.new ≡ with_leaf level.old column) }
{
    let number = (level.columns.len() as u64).checked_add(1).ok_or(Memory)?;
    level.leaves.push(number)?;
    level.columns.push(column)
}

// An inner bag: two columns.
fn put_slot(level: &mut Level) -> Result<(), Memory>
    ensures { OnOk result (level.new ≡ with_slot level.old) }
{
    level.slots.push(level.columns.len() as u64)?;
    level
        .columns
        .extend_from_slice(&[ColumnType::Int, ColumnType::Int])
}
