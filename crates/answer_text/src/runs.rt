// Runs of places whose rows stand under one index.
ghost use Rattle.std.specs.Prelude.{◌≡◌, ◌+◌, ◌<◌, ◌≤◌, true, false};
ghost use Rattle.std.specs.Prelude.{drop, get_or, length, slice_range, take};
ghost use Rattle.std.specs.List.{All};
ghost use Rattle.answer_text.specs.Indexes.{is_index};
ghost use Rattle.answer_text.specs.Spans.{index_of, spanned};

use crate::read::index_at;
use crate::spans::Spans;
use nq_model::List;
use rows::Rows;

/// Places of rows, those under each index in a span of their own.
#[derive(Drop)]
pub(crate) struct Runs {
    pub(crate) places: List<u32>,
    pub(crate) spans: Spans,
}

// The elements of a list between two places, as far as there are.
fn between(places: &[u32], start: u32, end: u32) -> &[u32]
    ensures { result.now ≡ slice_range places.now start end }
{
    let end = places.len().min(end as usize);
    if start as usize >= end {
        return &[];
    }
    &places[start as usize..end]
}

impl Runs {
    /// The places of the rows under an index, in their order.
    pub(crate) fn under(&self, index: (i64, i64)) -> &[u32]
        ensures { result.now ≡ spanned self.now.spans self.now.places index }
    {
        let (start, end) = self.spans.get(index);
        between(self.places.as_slice(), start, end)
    }
}

/// Whether two indexes are one.
pub(crate) fn is_index(left: (i64, i64), right: (i64, i64)) -> bool
    ensures { result ≡ is_index left right }
{
    left.0 == right.0 && left.1 == right.1
}

/// The places behind one.
pub(crate) fn behind(places: &[u32], start: usize) -> &[u32]
    requires { start < length places.now }
    ensures { result.now ≡ drop (start + 1) places.now }
{
    &places[start + 1..]
}

/// How many of the first of these places have rows under this index.
pub(crate) fn run_length(rows: &Rows, places: &[u32], index: (i64, i64)) -> usize
    ensures within { result ≤ length places.now }
    ensures ends { result < length places.now
        → is_index (index_of rows.now (get_or places.now result 0)) index ≡ false }
    ensures run { All (λ place. is_index (index_of rows.now place) index ≡ true)
        (take result places.now) }
{
    for at in 0..places.len() {
        if !is_index(index_at(rows, places[at] as usize, 0), index) {
            return at;
        }
    }
    places.len()
}
