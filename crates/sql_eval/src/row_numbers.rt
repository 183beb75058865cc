// Numbers for rows, dealt by sorting them.
ghost use Rattle.std.specs.Prelude.{◌≡◌, IfOk, length};
ghost use Rattle.std.specs.List.Sorted.{IsPermutation};
ghost use Rattle.nq_model.specs.Numberings.{Numbers, count_from, key_lt};
ghost use Rattle.sql_eval.specs.Dealing.{AreRanks, HaveOneWidth};

use nq_model::Memory;
use row_order::order;
use rows::Rows;
use std::alloc::Global;

/// The places of so many, counted from 0. Fails only if memory runs out; there is none for as many
/// as 2^32.
pub(crate) fn first_places(alloc: Global, count: usize) -> Result<Vec<u32>, Memory>
    ensures { IfOk result (λ places. places.items ≡ count_from 0 count) }
{
    let Ok(end) = u32::try_from(count) else {
        return Err(Memory);
    };
    let mut places = Vec::with_capacity(alloc, count)?;
    for place in 0..end {
        places.push(place)?;
    }
    Ok(places)
}

// So many columns, counted from 0.
fn first_columns(alloc: Global, count: usize) -> Result<Vec<usize>, Memory>
    ensures { IfOk result (λ columns. columns.items ≡ count_from 0 count) }
{
    let mut columns = Vec::with_capacity(alloc, count)?;
    for column in 0..count {
        columns.push(column)?;
    }
    Ok(columns)
}

// The rank of each place in a list of the places, counted from 1.
fn ranks_of(alloc: Global, places: &[u32]) -> Result<Vec<u32>, Memory>
    requires { IsPermutation (count_from 0 (length places.now)) places.now }
    ensures { IfOk result (λ ranks. AreRanks places.now ranks.items) }
{
    let Ok(end) = u32::try_from(places.len()) else {
        return Err(Memory);
    };
    let mut ranks = vec![in alloc; 0; places.len()]?;
    for at in 0..end {
        ranks[places[at as usize] as usize] = at + 1;
    }
    Ok(ranks)
}

/// Numbers for rows of one width, from 1 on: a smaller row has a smaller number, and rows that are
/// alike are numbered in any order. Fails only if memory runs out.
pub(crate) fn deal(alloc: Global, keys: &Rows) -> Result<Vec<u32>, Memory>
    requires { HaveOneWidth keys.now }
    ensures { IfOk result (λ numbers. Numbers key_lt keys.now numbers.items) }
{
    let columns = first_columns(alloc, keys.width(0))?;
    let places = order(alloc, keys, columns.as_slice())?;
    let numbers = ranks_of(alloc, places.as_slice())?;
    Ok(numbers)
}
