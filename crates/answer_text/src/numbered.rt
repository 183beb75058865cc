// Spans that are listed by number.
ghost use Rattle.std.specs.Prelude.{◌≡◌, ◌<◌, ℕ, IfOk, get_or, length, replicate, set};
ghost use Rattle.answer_text.specs.Spans.{number_place};

use crate::read::int_at;
use nq_model::Memory;
use rows::Rows;
use std::alloc::Global;
use std::marker::Model;

// How many numbers there may be for each row, at most, where spans are listed by number.
const NUMBERS_PER_ROW: usize = 4;

/// Spans, listed by number from 0, each as where it begins and where it ends.
#[derive(Drop)]
pub(crate) struct Numbered {
    spans: Vec<(u32, u32)>,
}

impl Model for Numbered {
    ghost use Rattle.std.specs.Prelude.{List, ℕ};

    ghost Value = { List (ℕ × ℕ) };

    ghost view = { λ numbered. numbered.spans.items };
}

/// The place of a number among so many, if it is among them.
pub(crate) fn number_place(count: usize, number: i64) -> Option<usize>
    ensures { result ≡ number_place count number }
{
    if number < 0 {
        return None;
    }
    let at = number.unsigned_abs() as usize;
    if at >= count {
        return None;
    }
    Some(at)
}

impl Numbered {
    /// Empty spans under so many numbers.
    pub(crate) fn empty(alloc: Global, count: usize) -> Result<Numbered, Memory>
        ensures { IfOk result (λ made. made ≡ replicate count (0, 0)) }
    {
        let spans = vec![in alloc; (0, 0); count]?;
        Ok(Numbered { spans })
    }

    /// How many there are.
    pub(crate) fn len(&self) -> usize
        ensures { result ≡ length self.now }
    {
        self.spans.len()
    }

    /// The span under a number.
    pub(crate) fn get(&self, number: usize) -> (u32, u32)
        requires { number < length self.now }
        ensures { result ≡ get_or self.now number (0, 0) }
    {
        self.spans[number]
    }

    /// Puts a span under a number.
    pub(crate) fn put(&mut self, number: usize, span: (u32, u32))
        requires { number < length self.old }
        ensures { self.new ≡ set self.old number span }
    {
        self.spans[number] = span;
    }
}

// The greatest integer in a column, and 0 where none is greater.
fn greatest(rows: &Rows, column: usize) -> usize {
    let mut last = 0i64;
    for row in 0..rows.len() {
        last = last.max(int_at(rows, row, column));
    }
    last.unsigned_abs() as usize
}

// Under each tag, how many numbers there are up to the greatest of its rows.
fn counts_by_tag(alloc: Global, rows: &Rows, tags: usize) -> Result<Vec<usize>, Memory> {
    let mut counts = vec![in alloc; 0usize; tags]?;
    for row in 0..rows.len() {
        let Some(number) = number_place(usize::MAX, int_at(rows, row, 1)) else {
            continue;
        };
        if let Some(tag) = number_place(tags, int_at(rows, row, 0)) {
            counts[tag] = counts[tag].max(number.saturating_add(1));
        }
    }
    Ok(counts)
}

/// How many numbers to list under each tag, from 0: all up to the greatest there, or none at all if
/// these would be too many for so many rows.
pub(crate) fn listed_counts(alloc: Global, rows: &Rows) -> Result<Vec<usize>, Memory> {
    let most = rows.len().saturating_mul(NUMBERS_PER_ROW);
    let tags = greatest(rows, 0);
    if tags >= most {
        return Ok(Vec::new(alloc));
    }
    let counts = counts_by_tag(alloc, rows, tags + 1)?;
    let mut all = 0usize;
    for count in &counts {
        all = all.saturating_add(*count);
    }
    if all > most {
        return Ok(Vec::new(alloc));
    }
    Ok(counts)
}
