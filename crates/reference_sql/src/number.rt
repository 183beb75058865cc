// Numbers for key lists: a smaller list has a smaller number, and ties are numbered in the order in
// which they arise, or in reverse.
ghost use Rattle.std.specs.Prelude.{◌≡◌, ◌++◌, ◌∷◌, [], IfOk, map, zip};
ghost use Rattle.nq_model.specs.Numberings.{Numbers, key_lt};
ghost use Rattle.reference_sql.specs.Dealing.{IsPlace, is_earlier, next_place, raise};

use crate::key_order::key_below;
use nq_model::{Cell, List, Memory};
use std::alloc::Global;

/// In which order ties are numbered: as they arise, or in reverse.
#[derive(Clone, Copy, Debug, PartialEq, Eq)]
pub enum Ties {
    AsTheyArise,
    Reversed,
}

// Whether a key list that arose before is to have a smaller number than the key.
fn is_earlier(ties: Ties, before: &[Cell], key: &[Cell]) -> bool
    ensures { result ≡ is_earlier ties before.now key.now }
{
    match ties {
        Ties::AsTheyArise => !key_below(key, before),
        Ties::Reversed => key_below(before, key),
    }
}

// The number for a key, once one more pair of number and key list is looked at.
fn next_place(
    ties: Ties,
    key: &[Cell],
    place: u64,
    number: u64,
    before: &[Cell],
) -> Result<u64, Memory>
    ensures { IfOk result (λ next. next ≡ next_place ties key.now place (number, before.now)) }
{
    if is_earlier(ties, before, key) && place <= number {
        return number.checked_add(1).ok_or(Memory);
    }
    Ok(place)
}

// The number for one more key list: above those of all that are earlier.
fn place(ties: Ties, keys: &[List<Cell>], numbers: &[u64], key: &[Cell]) -> Result<u64, Memory>
    requires { Numbers key_lt keys.now numbers.now }
    ensures { IfOk result (IsPlace (zip numbers.now keys.now) key.now) }
{
    let mut place = 1;
    for i in 0..numbers.len() {
        place = next_place(ties, key, place, numbers[i], keys[i].as_slice())?;
    }
    Ok(place)
}

// A number, raised by 1 from the place on.
fn raise(place: u64, number: u64) -> Result<u64, Memory>
    ensures { IfOk result (λ raised. raised ≡ raise place number) }
{
    if place <= number {
        return number.checked_add(1).ok_or(Memory);
    }
    Ok(number)
}

// The numbers, those from the place on each raised by 1, and then the place itself.
fn with_number(alloc: Global, numbers: &[u64], place: u64) -> Result<List<u64>, Memory>
    ensures { IfOk result (λ more. more ≡ map (raise place) numbers.now ++ place ∷ []) }
{
    let mut more = List::with_capacity(alloc, numbers.len())?;
    for number in numbers {
        more.push(raise(place, *number)?)?;
    }
    more.push(place)?;
    Ok(more)
}

/// Numbers for key lists, from 1 on.
pub fn deal(alloc: Global, ties: Ties, keys: &[List<Cell>]) -> Result<List<u64>, Memory>
    ensures { IfOk result (Numbers key_lt keys.now) }
{
    let mut numbers = List::new(alloc);
    for i in 0..keys.len() {
        let number = place(ties, &keys[..i], numbers.as_slice(), keys[i].as_slice())?;
        numbers = with_number(alloc, numbers.as_slice(), number)?;
    }
    Ok(numbers)
}
