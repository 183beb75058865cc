// Rows are put in order by what their cells in a column begin with, and the cells are looked up
// again only where that ties.
ghost use Rattle.std.specs.Prelude.{◌≡◌, IfOk, OnOk, map};
ghost use Rattle.row_order.specs.Ranks.{ranked_at, rank_cmp};
ghost use Rattle.row_order.specs.Runs.{places_of};

use crate::heads::{Frame, cell_head};
use crate::keys::cell_at;
use nq_model::Memory;
use rows::Rows;
use std::alloc::Global;
use std::cmp::Ordering;

// The place of a row, and what its cell in some column begins with.
#[derive(Clone, Copy)]
pub(crate) struct Ranked {
    head: u32,
    place: u32,
}

// Millions of them are sorted, so none may take more.
const _: () = prove!(size_of::<Ranked>() == 8);

impl Ranked {
    pub(crate) fn place(&self) -> u32
        ensures { result ≡ self.now.place }
    {
        self.place
    }

    // The order of the cells, as far as it shows in what they begin with.
    pub(crate) fn compare(&self, other: &Ranked) -> Ordering
        ensures { result ≡ rank_cmp self.now other.now }
    {
        self.head.cmp(&other.head)
    }
}

fn rank_row(rows: &Rows, column: usize, frame: &Frame<'_>, place: u32) -> Ranked
    ensures { result ≡ ranked_at rows.now column frame.now place }
{
    let head = cell_head(frame, &cell_at(rows, place, column));
    Ranked { head, place }
}

// The rows at these places, before their cells have been looked up.
pub(crate) fn unranked(alloc: Global, places: &[u32]) -> Result<Vec<Ranked>, Memory>
    ensures { IfOk result (λ ranks. places_of ranks.items ≡ places.now) }
{
    let mut ranks = Vec::with_capacity(alloc, places.len())?;
    for place in places {
        ranks.push(Ranked {
            head: 0,
            place: *place,
        })?;
    }
    Ok(ranks)
}

// Ranks rows by their cells in a column.
pub(crate) fn rank_rows(rows: &Rows, column: usize, frame: &Frame<'_>, ranks: &mut [Ranked])
    ensures { ranks.new ≡ map
        (λ ranked. ranked_at rows.now column frame.now ranked.place) ranks.old }
{
    for i in 0..ranks.len() {
        ranks[i] = rank_row(rows, column, frame, ranks[i].place);
    }
}

// Writes the places of the ranked rows over those that stand there.
pub(crate) fn write_places(places: &mut Vec<u32>, ranks: &[Ranked]) -> Result<(), Memory>
    ensures { OnOk result (places.new.items ≡ places_of ranks.now) }
{
    places.clear();
    for ranked in ranks {
        places.push(ranked.place)?;
    }
    Ok(())
}
