// The rows of an answer by their indexes, those under one index in the order of their elements.
ghost use Rattle.std.specs.Prelude.{◌≡◌, ℤ, IfOk, OnOk, IsFalse, IsTrue, length};
ghost use Rattle.std.specs.List.Sorted.{IsPermutation, IsSortedByKey};
ghost use Rattle.nq_model.specs.Canonical.{value_cmp};
ghost use Rattle.nq_model.specs.Numberings.{count_from};
ghost use Rattle.rows.specs.Places.{row_at};
ghost use Rattle.answer_text.specs.Indexes.{index_cmp};
ghost use Rattle.answer_text.specs.Members.{AreInRuns, AreRuns};
ghost use Rattle.answer_text.specs.Parts.{value_in};
ghost use Rattle.answer_text.specs.Spans.{index_of, span_under};

use crate::compare::compare;
use crate::heading::Heading;
use crate::part::Part;
use crate::read::{index_at, int_at};
use crate::runs::{Runs, behind, run_length};
use crate::spans::Spans;
use nq_model::{List, Memory};
use row_order::{order, order_places};
use rows::Rows;
use std::alloc::Global;
use std::cmp::Ordering;

// Runs up to this length are put in order by their elements at once.
const SHORT: usize = 32;

// Which of the indexes of two rows stands before the other.
fn compare_indexes(rows: &Rows, left: usize, right: usize) -> Ordering
    ensures { result ≡ index_cmp (index_of rows.now left) (index_of rows.now right) }
{
    match int_at(rows, left, 0).cmp(&int_at(rows, right, 0)) {
        Ordering::Equal => int_at(rows, left, 1).cmp(&int_at(rows, right, 1)),
        other => other,
    }
}

// Puts the columns of the cells of a part at the end, up to its first bag. Whether it has none.
#[cycle(columns)]
fn push_columns(part: &Part, columns: &mut Vec<usize>) -> Result<bool, Memory> {
    match part {
        Part::Cell(column) => {
            columns.push(*column)?;
            Ok(true)
        }
        Part::Record(fields) => push_field_columns(fields.as_slice(), columns),
        Part::Bag(_, _, _) => Ok(false),
    }
}

#[cycle(columns)]
fn push_field_columns(
    fields: &[(Heading, Part)],
    columns: &mut Vec<usize>,
) -> Result<bool, Memory> {
    for field in fields {
        if !push_columns(&field.1, columns)? {
            return Ok(false);
        }
    }
    Ok(true)
}

// The columns of the cells of an element before its first bag.
fn columns_of(alloc: Global, element: &Part) -> Result<Vec<usize>, Memory> {
    let mut columns = Vec::new(alloc);
    push_columns(element, &mut columns)?;
    Ok(columns)
}

// Puts places in the order of the cells in these columns of the rows there, if they are many.
fn sort_by_cells(
    alloc: Global,
    rows: &Rows,
    columns: &[usize],
    places: &mut [u32],
) -> Result<(), Memory>
    ensures { OnOk result (IsPermutation places.old places.new) }
{
    if places.len() <= SHORT {
        return Ok(());
    }
    let copy = Vec::from_slice(alloc, places)?;
    let sorted = order_places(alloc, rows, columns, copy)?;
    places.copy_from_slice(sorted.as_slice());
    Ok(())
}

// Puts places in the canonical order of the elements that the rows there are: first in the order of
// the cells in these columns, which is fast.
fn sort_run(
    alloc: Global,
    rows: &Rows,
    element: &Part,
    columns: &[usize],
    places: &mut [u32],
) -> Result<(), Memory>
    ensures permutation { OnOk result (IsPermutation places.old places.new) }
    ensures sorted { OnOk result (IsSortedByKey
        (λ place. value_in element.now (row_at rows.now place)) value_cmp places.new) }
{
    sort_by_cells(alloc, rows, columns, places)?;
    places.sort_unstable_by(|left, right| {
        compare(element, rows, *left as usize, *right as usize)
    });
    Ok(())
}

// Puts each run of places whose rows stand under one index in the order of the elements, and its
// span under that index. False where the rows under some index stand in two runs, which rows in the
// order of their indexes do not.
fn sort_runs(
    alloc: Global,
    rows: &Rows,
    element: &Part,
    columns: &[usize],
    places: &mut [u32],
    spans: &mut Spans,
) -> Result<bool, Memory>
    requires { (i : ℤ × ℤ) → span_under spans.old i ≡ (0, 0) }
    ensures whole { IfOk result (λ whole. IsTrue whole
        → AreInRuns element.now rows.now places.old places.new spans.new) }
    ensures parted { IfOk result (λ whole. IsFalse whole
        → ¬ IsSortedByKey (index_of rows.now) index_cmp places.old) }
{
    let mut start = 0;
    while start < places.len() {
        let index = index_at(rows, places[start] as usize, 0);
        if spans.has(index) {
            return Ok(false);
        }
        let rest = behind(places, start);
        let run = run_length(rows, rest, index);
        let end = start + 1 + run;
        sort_run(alloc, rows, element, columns, &mut places[start..end])?;
        spans.put(index, start, end)?;
        start = end;
    }
    Ok(true)
}

// The same of a list of places.
fn sort_listed_runs(
    alloc: Global,
    rows: &Rows,
    element: &Part,
    columns: &[usize],
    places: &mut Vec<u32>,
    spans: &mut Spans,
) -> Result<bool, Memory>
    requires { (i : ℤ × ℤ) → span_under spans.old i ≡ (0, 0) }
    ensures whole { IfOk result (λ whole. IsTrue whole
        → AreInRuns element.now rows.now places.old.items places.new.items spans.new) }
    ensures parted { IfOk result (λ whole. IsFalse whole
        → ¬ IsSortedByKey (index_of rows.now) index_cmp places.old.items) }
{
    sort_runs(alloc, rows, element, columns, places.as_mut_slice(), spans)
}

// The place of each row. Fails where there are more rows than a place can tell.
fn all_places(alloc: Global, rows: &Rows) -> Result<Vec<u32>, Memory>
    ensures { IfOk result (λ places. places.items ≡ count_from 0 (length rows.now)) }
{
    let Ok(count) = u32::try_from(rows.len()) else {
        return Err(Memory);
    };
    let mut places = Vec::with_capacity(alloc, rows.len())?;
    for place in 0..count {
        places.push(place)?;
    }
    Ok(places)
}

// Rows whose indexes stand in more runs than one, which are put in the order of the indexes first.
fn arranged_by_index(
    alloc: Global,
    rows: &Rows,
    element: &Part,
    columns: &[usize],
) -> Result<Runs, Memory>
    ensures { IfOk result (λ runs. AreRuns element.now rows.now runs) }
{
    let mut places = order(alloc, rows, &[0, 1])?;
    places.sort_unstable_by(|left, right| {
        compare_indexes(rows, *left as usize, *right as usize)
    });
    let mut spans = Spans::for_rows(alloc, rows)?;
    sort_listed_runs(alloc, rows, element, columns, &mut places, &mut spans)?;
    let places = List::from_vec(places);
    Ok(Runs { places, spans })
}

/// The places of all rows, those under each index together and in the canonical order of the
/// elements that the rows there are. Where the rows under each index stand together already, they
/// stay where they are but for that. Fails only if memory runs out.
pub(crate) fn arranged(alloc: Global, rows: &Rows, element: &Part) -> Result<Runs, Memory>
    ensures { IfOk result (λ runs. AreRuns element.now rows.now runs) }
{
    let columns = columns_of(alloc, element)?;
    let columns = columns.as_slice();
    let mut places = all_places(alloc, rows)?;
    let mut spans = Spans::for_rows(alloc, rows)?;
    if !sort_listed_runs(alloc, rows, element, columns, &mut places, &mut spans)? {
        return arranged_by_index(alloc, rows, element, columns);
    }
    let places = List::from_vec(places);
    Ok(Runs { places, spans })
}
