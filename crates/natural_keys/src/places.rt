// The columns at a path, and where the parts of its element stand.
ghost use Rattle.std.specs.Prelude.{◌≡◌, ◌++◌, IfOk, OnOk, replicate};
ghost use Rattle.nq_model.specs.Types.{type_tree, field_types_of, fields_view};
ghost use Rattle.natural_keys.specs.Layouts.{width};
ghost use Rattle.natural_keys.specs.NaturalKeys.{element_columns, index_columns};
ghost use Rattle.natural_keys.specs.Levels.{places_of, with_leaf, with_slot, with_part, with_parts};

use crate::layout::Layout;
use nq_model::{ColumnType, Label, List, Memory, Ty};
use std::alloc::Global;

/// The columns of the answer at a path, the columns of the base parts of its element, counted from
/// 1, and the places of its inner bags, counted from 0. And how many key cells the outer index and
/// the inner indexes have.
#[derive(Drop)]
pub(crate) struct Places {
    pub(crate) columns: List<ColumnType>,
    pub(crate) leaves: List<u64>,
    pub(crate) slots: List<u64>,
    pub(crate) outer: u64,
    pub(crate) inner: u64,
}

// How many cells there are in a layout.
fn width(layout: Layout) -> Result<u64, Memory>
    ensures { IfOk result (λ cells. cells ≡ width layout) }
{
    let behind = layout.bools.checked_add(layout.texts).ok_or(Memory)?;
    layout.ints.checked_add(behind).ok_or(Memory)
}

// Puts a type at the end so many times.
fn push_times(columns: &mut List<ColumnType>, of: ColumnType, times: u64) -> Result<(), Memory>
    ensures { OnOk result (columns.new ≡ columns.old ++ replicate times of) }
{
    for at in 0..times {
        columns.push(of)?;
    }
    Ok(())
}

// The columns of an index.
fn index_columns(alloc: Global, layout: Layout) -> Result<List<ColumnType>, Memory>
    ensures { IfOk result (λ columns. columns ≡ index_columns layout) }
{
    let mut columns = List::new(alloc);
    columns.push(ColumnType::Int)?;
    push_times(&mut columns, ColumnType::Int, layout.ints)?;
    push_times(&mut columns, ColumnType::Bool, layout.bools)?;
    push_times(&mut columns, ColumnType::Text, layout.texts)?;
    Ok(columns)
}

/// The places at a path with these layouts and elements of this type.
pub(crate) fn places_of(
    alloc: Global,
    outer: Layout,
    inner: Layout,
    element: &Ty,
) -> Result<Places, Memory>
    ensures { IfOk result (λ places. places ≡ places_of outer inner (type_tree element.now)) }
{
    let index = index_columns(alloc, inner)?;
    let mut places = Places {
        columns: index_columns(alloc, outer)?,
        leaves: List::new(alloc),
        slots: List::new(alloc),
        outer: width(outer)?,
        inner: width(inner)?,
    };
    put_part(&mut places, index.as_slice(), element)?;
    Ok(places)
}

/// The columns of an element whose inner bags are named by indexes of this layout. Fails only if
/// memory runs out.
pub fn element_columns(
    alloc: Global,
    inner: Layout,
    element: &Ty,
) -> Result<List<ColumnType>, Memory>
    ensures { IfOk result (λ columns.
        columns ≡ element_columns (index_columns inner) (type_tree element.now)) }
{
    let index = index_columns(alloc, inner)?;
    let mut places = Places {
        columns: List::new(alloc),
        leaves: List::new(alloc),
        slots: List::new(alloc),
        outer: 0,
        inner: 0,
    };
    put_part(&mut places, index.as_slice(), element)?;
    let Places { columns, .. } = places;
    Ok(columns)
}

// Puts the columns of a part of the element at the end.
#[cycle(parts)]
#[tactic(auto, using(nq_model::proofs::Terms::type_of_record))]
fn put_part(places: &mut Places, index: &[ColumnType], part: &Ty) -> Result<(), Memory>
    ensures { OnOk result (places.new ≡ with_part index.now places.old (type_tree part.now)) }
{
    match part {
        Ty::Int => put_leaf(places, ColumnType::Int),
        Ty::Bool => put_leaf(places, ColumnType::Bool),
        Ty::Text => put_leaf(places, ColumnType::Text),
        Ty::Rec(fields) => put_fields(places, index, fields.as_slice()),
        Ty::Bag(_) => put_slot(places, index),
        Ty::Fun(_, _) => Ok(()),
    }
}

#[cycle(parts)]
#[tactic(auto, using(nq_model::proofs::Terms::type_of_record))]
fn put_fields(
    places: &mut Places,
    index: &[ColumnType],
    fields: &[(Label, Ty)],
) -> Result<(), Memory>
    ensures { OnOk result (places.new
        ≡ with_parts index.now places.old (field_types_of (fields_view fields.now))) }
{
    for field in fields {
        put_part(places, index, &field.1)?;
    }
    Ok(())
}

// A base part: one column.
fn put_leaf(places: &mut Places, column: ColumnType) -> Result<(), Memory>
    ensures { OnOk result (places.new ≡ with_leaf places.old column) }
{
    let number = (places.columns.len() as u64).checked_add(1).ok_or(Memory)?;
    places.leaves.push(number)?;
    places.columns.push(column)
}

// An inner bag: the columns of an index.
fn put_slot(places: &mut Places, index: &[ColumnType]) -> Result<(), Memory>
    ensures { OnOk result (places.new ≡ with_slot index.now places.old) }
{
    places.slots.push(places.columns.len() as u64)?;
    places.columns.extend_from_slice(index)
}
