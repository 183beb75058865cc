// The index scheme by keys.
ghost use Rattle.std.specs.Prelude.{◌≡◌, ◌+◌, ◌++◌, ◌<◌, [], IfOk, OnOk, length, map, get_or, slice_index_or, take, drop};
ghost use Rattle.nq_model.specs.Types.{type_tree, field_types_of, fields_view};
ghost use Rattle.nq_ir.specs.Parts.{element_types, element_types_in};
ghost use Rattle.stitcher.specs.FlatNumbers.{int_at};
ghost use Rattle.stitcher.specs.Schemes.{element_of};
ghost use Rattle.natural_keys.specs.Layouts.{layout_at};
ghost use Rattle.natural_keys.specs.Levels.{places_of};
ghost use Rattle.natural_keys.specs.NaturalKeys.{key_at, natural_scheme};

use crate::index::KeyIndex;
use crate::layout::Layout;
use crate::places::{Places, places_of};
use nq_model::{Cell, CellRef, ColumnType, Label, List, Memory, Ty};
use rows::Rows;
use std::alloc::Global;
use stitcher::IndexScheme;

/// One path: the type of its elements, the layouts of the indexes of the bags in which its rows
/// stand and of those that they hold, and the places that follow of these.
#[derive(Drop)]
struct Level {
    element: Ty,
    outer: Layout,
    inner: Layout,
    places: Places,
    ghost laid: { places ≡ places_of outer inner (type_tree element) },
}

/// Indexes of a tag and the keys of the rows of all generators in scope, outermost first: the tag
/// says which comprehension made an element, the keys at which rows.
///
/// After the natural indexes of Cheney, Lindley and Wadler, "Query Shredding", SIGMOD 2014.
#[derive(Drop)]
pub struct NaturalKeys {
    alloc: Global,
    levels: List<Level>,
}

impl NaturalKeys {
    /// The scheme of a type with these layouts, of which there is one of either kind for each path:
    /// those of the indexes of the bags in which the rows at a path stand, and those of the indexes
    /// of the bags that these rows hold. Fails only if memory runs out.
    pub fn new(
        alloc: Global,
        of: &Ty,
        outers: &[Layout],
        inners: &[Layout],
    ) -> Result<NaturalKeys, Memory>
        requires outers { length outers.now ≡ length (element_types (type_tree of.now)) }
        requires inners { length inners.now ≡ length (element_types (type_tree of.now)) }
        ensures { IfOk result (λ made.
            ⟦<NaturalKeys as IndexScheme>⟧.scheme made
            ≡ natural_scheme (element_types (type_tree of.now)) outers.now inners.now) }
    {
        let mut elements = List::new(alloc);
        push_elements(alloc, of, &mut elements)?;
        let mut levels = List::with_capacity(alloc, elements.len())?;
        for at in 0..elements.len() {
            let element = elements.as_slice()[at].copy(alloc)?;
            levels.push(level_of(alloc, element, outers[at], inners[at])?)?;
        }
        Ok(NaturalKeys { alloc, levels })
    }

    // The places at a path.
    fn places(&self, path: u64) -> &Places
        requires { path < length (map (λ level. type_tree level.element) self.now.levels) }
        ensures { result.now ≡ places_of
            (layout_at (map (λ level. level.outer) self.now.levels) path)
            (layout_at (map (λ level. level.inner) self.now.levels) path)
            (element_of (map (λ level. type_tree level.element) self.now.levels) path) }
    {
        &self.levels.as_slice()[path as usize].places
    }
}

impl IndexScheme for NaturalKeys {
    ghost use Rattle.std.specs.Prelude.{map, refl};
    ghost use Rattle.nq_model.specs.Types.{type_tree};
    ghost use Rattle.natural_keys.specs.Schemes.{keys_scheme};
    ghost use Rattle.natural_keys.specs.PlaceLaws.{bases_typed};

    type Index = KeyIndex;

    ghost scheme = { keys_scheme };

    fn columns(&self, alloc: Global, path: u64) -> Result<List<ColumnType>, Memory> {
        List::from_slice(alloc, self.places(path).columns.as_slice())
    }

    fn base(&self, path: u64, leaf: u64) -> u64 {
        number_at(self.places(path).leaves.as_slice(), leaf)
    }

    fn top(&self) -> KeyIndex {
        KeyIndex {
            tag: 0,
            cells: List::new(self.alloc),
        }
    }

    fn outer(&self, alloc: Global, path: u64, rows: &Rows, row: usize) -> Result<KeyIndex, Memory> {
        key_at(alloc, self.places(path).outer, rows, row, 0)
    }

    fn inner(
        &self,
        alloc: Global,
        path: u64,
        slot: u64,
        rows: &Rows,
        row: usize,
    ) -> Result<KeyIndex, Memory> {
        let places = self.places(path);
        let place = number_at(places.slots.as_slice(), slot);
        key_at(alloc, places.inner, rows, row, place)
    }

    ghost compares = { λ keys i j. refl };

    ghost bases_are_typed = { λ keys. bases_typed (map (λ level. type_tree level.element) keys.levels)
        (map (λ level. level.outer) keys.levels) (map (λ level. level.inner) keys.levels) };
}

// The level of a path.
fn level_of(alloc: Global, element: Ty, outer: Layout, inner: Layout) -> Result<Level, Memory>
    ensures element { IfOk result (λ level. type_tree level.element ≡ type_tree element) }
    ensures outer { IfOk result (λ level. level.outer ≡ outer) }
    ensures inner { IfOk result (λ level. level.inner ≡ inner) }
{
    let places = places_of(alloc, outer, inner, &element)?;
    Ok(Level {
        element,
        outer,
        inner,
        places,
    })
}

// The number at a place of a list, or 0 past its end.
fn number_at(numbers: &[u64], place: u64) -> u64
    ensures { result ≡ get_or numbers.now place 0 }
{
    match numbers.get(place as usize) {
        Some(number) => *number,
        None => 0,
    }
}

// The integer at a place of a row, counted from 0, or 0 where none stands.
fn int_at(rows: &Rows, row: usize, place: u64) -> i64
    ensures { result ≡ int_at (slice_index_or rows.now row []) place }
{
    if place >= rows.width(row) as u64 {
        return 0;
    }
    match rows.cell(row, place as usize) {
        CellRef::Int(number) => number,
        CellRef::Bool(_) | CellRef::Text(_) => 0,
    }
}

// The index of so many cells that stands in a row from a place on.
fn key_at(
    alloc: Global,
    cells: u64,
    rows: &Rows,
    row: usize,
    place: u64,
) -> Result<KeyIndex, Memory>
    ensures { IfOk result (λ index.
        index ≡ key_at cells (slice_index_or rows.now row []) place) }
{
    let tag = int_at(rows, row, place);
    let cells = cells_behind(alloc, cells, rows, row, place)?;
    Ok(KeyIndex { tag, cells })
}

// As many cells of a row behind a place, as far as they are there.
fn cells_behind(
    alloc: Global,
    count: u64,
    rows: &Rows,
    row: usize,
    place: u64,
) -> Result<List<Cell>, Memory>
    ensures { IfOk result (λ cells.
        cells ≡ take count (drop (place + 1) (slice_index_or rows.now row []))) }
{
    let mut cells = List::new(alloc);
    let width = rows.width(row) as u64;
    if place >= width {
        return Ok(cells);
    }
    let first = place + 1;
    let left = width - first;
    let count = if left < count { left } else { count };
    for at in 0..count {
        cells.push(rows.cell(row, (first + at) as usize).copy(alloc)?)?;
    }
    Ok(cells)
}

// Puts copies of the element types of a type's bags at the end, in path order.
#[cycle(elements)]
#[tactic(auto, using(nq_model::proofs::Terms::type_of_record))]
fn push_elements(alloc: Global, of: &Ty, all: &mut List<Ty>) -> Result<(), Memory>
    ensures { OnOk result (map type_tree all.new
        ≡ map type_tree all.old ++ element_types (type_tree of.now)) }
{
    match of {
        Ty::Int | Ty::Bool | Ty::Text | Ty::Fun(_, _) => Ok(()),
        Ty::Rec(fields) => push_field_elements(alloc, fields.as_slice(), all),
        Ty::Bag(element) => {
            all.push(element.copy(alloc)?)?;
            push_elements(alloc, element, all)
        }
    }
}

#[cycle(elements)]
#[tactic(auto, using(nq_model::proofs::Terms::type_of_record))]
fn push_field_elements(
    alloc: Global,
    fields: &[(Label, Ty)],
    all: &mut List<Ty>,
) -> Result<(), Memory>
    ensures { OnOk result (map type_tree all.new
        ≡ map type_tree all.old ++ element_types_in (field_types_of (fields_view fields.now))) }
{
    for field in fields {
        push_elements(alloc, &field.1, all)?;
    }
    Ok(())
}
