// Spans of places, each under an index.
ghost use Rattle.std.specs.Prelude.{◌≡◌, ◌<◌, ◌≤◌, ℤ, IfOk, OnOk, IsTrue, IsFalse};
ghost use Rattle.std.specs.List.{All};
ghost use Rattle.answer_text.specs.Spans.{place, span_under, AreEmpty};
ghost use Rattle.answer_text.specs.Spans.{HasOneMore, HasOneMoreOther};

use crate::numbered::{Numbered, listed_counts, number_place};
use nq_model::Memory;
use rows::Rows;
use std::alloc::Global;
use std::collections::BTreeMap;

/// Spans under indexes: of each, where it begins and where it ends. They are listed by tag and then
/// by number, as far as the lists go; all others stand in an ordered map, so that no choice of
/// indexes makes the look-ups slow.
#[derive(Drop)]
pub(crate) struct Spans {
    listed: Vec<Numbered>,
    others: BTreeMap<(i64, i64), (u32, u32)>,
}

// Puts a span under an index that is not listed.
fn put_other(
    others: &mut BTreeMap<(i64, i64), (u32, u32)>,
    index: (i64, i64),
    span: (u32, u32),
) -> Result<(), Memory>
    ensures { OnOk result (HasOneMoreOther others.old others.new index span) }
{
    others.insert(index, span)?;
    Ok(())
}

// Empty spans under so many numbers of each tag.
#[tactic(auto, using(crate::proofs::Listing::listed_more))]
fn empty_lists(alloc: Global, counts: &[usize]) -> Result<Vec<Numbered>, Memory>
    ensures { IfOk result (λ listed. All AreEmpty listed.items) }
{
    let mut listed = Vec::with_capacity(alloc, counts.len())?;
    for count in counts {
        listed.push(Numbered::empty(alloc, *count)?)?;
    }
    Ok(listed)
}

impl Spans {
    /// No spans, with room for those of the rows.
    pub(crate) fn for_rows(alloc: Global, rows: &Rows) -> Result<Spans, Memory>
        ensures { IfOk result (λ spans. (i : ℤ × ℤ) → span_under spans i ≡ (0, 0)) }
    {
        let counts = listed_counts(alloc, rows)?;
        let listed = empty_lists(alloc, counts.as_slice())?;
        Ok(Spans {
            listed,
            others: BTreeMap::new(alloc),
        })
    }

    // Where the span under an index is listed, if it is: its tag and its number.
    fn place(&self, index: (i64, i64)) -> Option<(usize, usize)>
        ensures { result ≡ place self.now.listed.items index }
    {
        let tag = number_place(self.listed.len(), index.0)?;
        let number = number_place(self.listed[tag].len(), index.1)?;
        Some((tag, number))
    }

    /// The span under an index, and an empty one where there is none.
    #[tactic(auto, using(crate::proofs::Listing::spans_under))]
    pub(crate) fn get(&self, index: (i64, i64)) -> (u32, u32)
        ensures { result ≡ span_under self.now index }
    {
        match self.place(index) {
            Some((tag, number)) => self.listed[tag].get(number),
            None => match self.others.get(&index) {
                Some(span) => *span,
                None => (0, 0),
            },
        }
    }

    /// Whether the span under an index holds any place.
    pub(crate) fn has(&self, index: (i64, i64)) -> bool
        ensures some { IsTrue result
            → (span_under self.now index).0 < (span_under self.now index).1 }
        ensures none { IsFalse result
            → (span_under self.now index).1 ≤ (span_under self.now index).0 }
    {
        let (start, end) = self.get(index);
        start < end
    }

    // Puts a span under an index.
    #[tactic(auto, using(crate::proofs::Listing::spans_put))]
    fn put_span(&mut self, index: (i64, i64), span: (u32, u32)) -> Result<(), Memory>
        ensures { OnOk result (HasOneMore self.old self.new index span) }
    {
        match self.place(index) {
            Some((tag, number)) => self.listed[tag].put(number, span),
            None => put_other(&mut self.others, index, span)?,
        }
        Ok(())
    }

    /// Puts a span under an index. Fails only if memory runs out.
    pub(crate) fn put(&mut self, index: (i64, i64), start: usize, end: usize) -> Result<(), Memory>
        ensures { OnOk result (HasOneMore self.old self.new index (start, end)) }
    {
        let Ok(first) = u32::try_from(start) else {
            return Err(Memory);
        };
        let Ok(last) = u32::try_from(end) else {
            return Err(Memory);
        };
        self.put_span(index, (first, last))
    }
}
