// Indexes by keys.
ghost use Rattle.std.specs.Prelude.{◌≡◌, Some};
ghost use Rattle.std.proofs.Common.{refl};
ghost use Rattle.std.specs.Cmp.Lexicographic.{pointwise, slice_cmp};
ghost use Rattle.std.specs.Cmp.{partial_equiv_from_equiv};
ghost use Rattle.nq_model.specs.Cells.{cell_cmp, cell_eq};
ghost use Rattle.natural_keys.specs.Indexes.{index_cmp, index_eq};
ghost use Rattle.natural_keys.specs.IndexLaws.{index_equivalence, index_partial_order, index_total, indexes_equal};

use nq_model::{Cell, List};
use std::cmp::Ordering;

/// What names a bag: the tag of the comprehension in whose elements it stands, and the key cells of
/// the rows at which that comprehension stands. Two are equal where their tags and all their cells
/// are. In their order they stand by their tags, and then by their cells, which are compared where
/// they stand.
///
/// After the natural indexes of Cheney, Lindley and Wadler, "Query Shredding", SIGMOD 2014.
#[derive(Drop)]
pub struct KeyIndex {
    pub tag: i64,
    pub cells: List<Cell>,
}

impl PartialEq for KeyIndex {
    ghost eq = { index_eq };

    ghost laws = { partial_equiv_from_equiv index_equivalence };

    fn eq(&self, other: &Self) -> bool {
        self.tag == other.tag && same_cells(self.cells.as_slice(), other.cells.as_slice())
    }
}

impl Eq for KeyIndex {
    ghost laws = { index_equivalence };
}

impl PartialOrd for KeyIndex {
    ghost partial_cmp = { λ left right. Some (index_cmp left right) };

    ghost laws = { index_partial_order };

    fn partial_cmp(&self, other: &Self) -> Option<Ordering> {
        Some(self.cmp(other))
    }
}

impl Ord for KeyIndex {
    ghost cmp = { index_cmp };

    ghost total = { index_total };

    ghost matches_partial_cmp = { λ left right. refl };

    ghost matches_eq = { indexes_equal };

    fn cmp(&self, other: &Self) -> Ordering {
        match self.tag.cmp(&other.tag) {
            Ordering::Equal => compare_cells(self.cells.as_slice(), other.cells.as_slice()),
            unequal => unequal,
        }
    }
}

// Whether two lists have equal cells.
fn same_cells(left: &[Cell], right: &[Cell]) -> bool
    ensures { result ≡ pointwise cell_eq left.now right.now }
{
    if left.len() != right.len() {
        return false;
    }
    for at in 0..left.len() {
        if left[at].as_ref() != right[at].as_ref() {
            return false;
        }
    }
    true
}

// Which of two lists of cells stands first: the first cells that differ tell, or else the lengths.
fn compare_cells(left: &[Cell], right: &[Cell]) -> Ordering
    ensures { result ≡ slice_cmp cell_cmp left.now right.now }
{
    for at in 0..left.len().min(right.len()) {
        let first = left[at].as_ref().cmp(&right[at].as_ref());
        if first != Ordering::Equal {
            return first;
        }
    }
    left.len().cmp(&right.len())
}
