// Rows are put in order column by column: those that tie in one are put in order by the next, so
// that most cells are looked up a few times only. (Bentley and Sedgewick, SODA 1997; Ng and Kakehi,
// IEICE 2007.)
ghost use Rattle.std.specs.Prelude.{◌≢◌, ◌<◌, ◌≤◌, ◌∷◌, IsTrue, length, slice_index_or};
ghost use Rattle.std.specs.List.Sorted.{IsPermutation, IsSorted};
ghost use Rattle.std.specs.declared.cmp.Ordering.TheVariants.{Equal};
ghost use Rattle.row_order.specs.Ranks.{AreRanked, rank_cmp};
ghost use Rattle.row_order.specs.Runs.{AreInOrder, HaveOneCell, HaveOneRank, places_of};

use crate::frames::frame_of;
use crate::keys::{cell_at, compare_keys};
use crate::ranks::{Ranked, rank_rows};
use rows::Rows;
use std::cmp::Ordering;

// So few rows are compared rather than ranked again.
const FEW: usize = 4;

// How often rows that tie in a column are ranked there again, before they are compared.
const RANKINGS: u32 = 8;

// Puts rows in order by what their cells in a column begin with.
fn sort_by_rank(rows: &Rows, column: usize, ranks: &mut [Ranked])
    ensures permutation { IsPermutation (places_of ranks.old) (places_of ranks.new) }
    ensures ranked { AreRanked rows.now column ranks.new }
    ensures sorted { IsSorted rank_cmp ranks.new }
{
    let frame = frame_of(rows, column, ranks);
    rank_rows(rows, column, &frame, ranks);
    ranks.sort_unstable_by(Ranked::compare);
}

// Where the rows end that have the rank of the one at a place and follow it.
fn run_end(ranks: &[Ranked], start: usize) -> usize
    requires { start < length ranks.now }
    ensures some { start < result }
    ensures within { result ≤ length ranks.now }
    ensures ties { HaveOneRank ranks.now start result }
    ensures apart { result < length ranks.now → (d : _)
        → rank_cmp (slice_index_or ranks.now start d) (slice_index_or ranks.now result d) ≢ Equal }
{
    for end in start + 1..ranks.len() {
        if ranks[start].compare(&ranks[end]) != Ordering::Equal {
            return end;
        }
    }
    ranks.len()
}

// Whether one cell stands in a column of all these rows.
fn have_one_cell(rows: &Rows, column: usize, ranks: &[Ranked]) -> bool
    requires { 0 < length ranks.now }
    ensures { IsTrue result → HaveOneCell rows.now column ranks.now }
{
    let cell = cell_at(rows, ranks[0].place(), column);
    for ranked in ranks {
        if cell_at(rows, ranked.place(), column) != cell {
            return false;
        }
    }
    true
}

// Puts rows in order by a column and later ones, whose cells are looked up at each comparison.
fn sort_by_cells(rows: &Rows, column: usize, later: &[usize], ranks: &mut [Ranked])
    ensures permutation { IsPermutation (places_of ranks.old) (places_of ranks.new) }
    ensures sorted { AreInOrder rows.now (column ∷ later.now) ranks.new }
{
    ranks.sort_unstable_by(|left, right| {
        compare_keys(rows, column, later, left.place(), right.place())
    });
}

// Puts rows in order by these columns. Their ranks are written over.
#[cycle(runs)]
pub(crate) fn sort_run(rows: &Rows, columns: &[usize], ranks: &mut [Ranked])
    ensures permutation { IsPermutation (places_of ranks.old) (places_of ranks.new) }
    ensures sorted { AreInOrder rows.now columns.now ranks.new }
{
    if let Some((column, later)) = columns.split_first() {
        sort_column(rows, *column, later, RANKINGS, ranks);
    }
}

// The same by a column and later ones. Rows that tie in it are ranked there so many times more.
#[cycle(runs)]
fn sort_column(rows: &Rows, column: usize, later: &[usize], more: u32, ranks: &mut [Ranked])
    ensures permutation { IsPermutation (places_of ranks.old) (places_of ranks.new) }
    ensures sorted { AreInOrder rows.now (column ∷ later.now) ranks.new }
{
    sort_by_rank(rows, column, ranks);
    sort_ties(rows, column, later, more, ranks);
}

// The same for rows that stand in order by rank.
#[cycle(runs)]
fn sort_ties(rows: &Rows, column: usize, later: &[usize], more: u32, ranks: &mut [Ranked])
    requires ranked { AreRanked rows.now column ranks.old }
    requires sorted { IsSorted rank_cmp ranks.old }
    ensures permutation { IsPermutation (places_of ranks.old) (places_of ranks.new) }
    ensures sorted { AreInOrder rows.now (column ∷ later.now) ranks.new }
{
    let mut start = 0;
    while start < ranks.len() {
        let next = run_end(ranks, start);
        sort_tied(rows, column, later, more, &mut ranks[start..next]);
        start = next;
    }
}

// The same for rows of one rank. Mostly they have one cell in the column, and go on to the next.
// Where their cells differ, these have more alike than those of all rows had, and are ranked by
// what tells them apart.
#[cycle(runs)]
fn sort_tied(rows: &Rows, column: usize, later: &[usize], more: u32, ranks: &mut [Ranked])
    ensures permutation { IsPermutation (places_of ranks.old) (places_of ranks.new) }
    ensures sorted { AreInOrder rows.now (column ∷ later.now) ranks.new }
{
    if ranks.len() <= FEW {
        sort_by_cells(rows, column, later, ranks);
    } else if have_one_cell(rows, column, ranks) {
        sort_run(rows, later, ranks);
    } else if more > 0 {
        sort_column(rows, column, later, more - 1, ranks);
    } else {
        sort_by_cells(rows, column, later, ranks);
    }
}
