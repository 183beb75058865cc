// Places of rows in the order of the rows' keys.
ghost use Rattle.std.specs.Prelude.{◌≡◌, IfOk, length};
ghost use Rattle.std.specs.List.Sorted.{IsPermutation};
ghost use Rattle.nq_model.specs.Numberings.{Rises, count_from, key_lt};
ghost use Rattle.row_order.specs.Keys.{keys_at};

use crate::ranks::{unranked, write_places};
use crate::runs::sort_run;
use nq_model::Memory;
use rows::Rows;
use std::alloc::Global;

/// Puts places in the order of the keys of the rows there. A row's key are its cells under these
/// columns, in the order of the columns, and FALSE where it has none; keys are compared by the
/// first cell that differs. Rows of one key stand in any order. Fails only if memory runs out.
pub fn order_places(
    alloc: Global,
    rows: &Rows,
    columns: &[usize],
    places: Vec<u32>,
) -> Result<Vec<u32>, Memory>
    ensures places { IfOk result (λ sorted. IsPermutation places.items sorted.items) }
    ensures order { IfOk result
        (λ sorted. Rises key_lt (keys_at rows.now columns.now sorted.items)) }
{
    let mut ranks = unranked(alloc, places.as_slice())?;
    sort_run(rows, columns, ranks.as_mut_slice());
    let mut sorted = places;
    write_places(&mut sorted, ranks.as_slice())?;
    Ok(sorted)
}

// The place of each row. Fails where there are more rows than a place can tell.
fn all_places(alloc: Global, rows: &Rows) -> Result<Vec<u32>, Memory>
    ensures { IfOk result (λ places. places.items ≡ count_from 0 (length rows.now)) }
{
    let Ok(count) = u32::try_from(rows.len()) else {
        return Err(Memory);
    };
    let mut places = Vec::with_capacity(alloc, rows.len())?;
    for place in 0..count {
        places.push(place)?;
    }
    Ok(places)
}

/// The places of all rows, counted from 0, in the order of the rows' keys, as `order_places` has
/// it. Fails only if memory runs out.
pub fn order(alloc: Global, rows: &Rows, columns: &[usize]) -> Result<Vec<u32>, Memory>
    ensures places { IfOk result
        (λ sorted. IsPermutation (count_from 0 (length rows.now)) sorted.items) }
    ensures order { IfOk result
        (λ sorted. Rises key_lt (keys_at rows.now columns.now sorted.items)) }
{
    order_places(alloc, rows, columns, all_places(alloc, rows)?)
}
