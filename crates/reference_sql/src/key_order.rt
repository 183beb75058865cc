// The order of key lists.
ghost use Rattle.std.specs.Prelude.{◌≡◌};
ghost use Rattle.std.specs.Cmp.Lexicographic.{slice_cmp};
ghost use Rattle.nq_model.specs.Cells.{cell_cmp};
ghost use Rattle.nq_model.specs.Numberings.{key_lt};

use nq_model::Cell;
use std::cmp::Ordering;

// Key lists are compared by the first cell that differs, a prefix before the longer.
fn compare_keys(left: &[Cell], right: &[Cell]) -> Ordering
    ensures { result ≡ slice_cmp cell_cmp left.now right.now }
{
    for i in 0..left.len().min(right.len()) {
        let first = left[i].as_ref().cmp(&right[i].as_ref());
        if first != Ordering::Equal {
            return first;
        }
    }
    left.len().cmp(&right.len())
}

/// Whether the first key list is below the second.
pub fn key_below(left: &[Cell], right: &[Cell]) -> bool
    ensures { result ≡ key_lt left.now right.now }
{
    compare_keys(left, right) == Ordering::Less
}
