// The rows of an answer by their outer index.
ghost use Rattle.std.specs.Prelude.{◌≡◌, ◌<◌, ◌≤◌, ◌-◌, [], All, IfOk, OnOk, length, get_or, map};
ghost use Rattle.nq_model.specs.Cells.{RowFits};
ghost use Rattle.stitcher.specs.Schemes.{IsPath};
ghost use Rattle.stitcher.specs.Groups.{first_under, AreGrouped, GoesOn, IsPutInFront};

use crate::scheme::IndexScheme;
use nq_model::{List, Memory};
use rows::Rows;
use std::alloc::Global;
use std::collections::BTreeMap;

/// The rows of an answer by their outer index, in row order. The place of a row is counted from the
/// end, from 1, and 0 is none: so rows are put in front, and each goes on to one that was there
/// before.
#[derive(Drop)]
pub(crate) struct Groups<I: Ord> {
    // The place of the first row under each index, in an ordered map: no choice of indexes makes
    // its look-ups slow.
    firsts: BTreeMap<I, u32>,
    // From the last row to the first, the place of the next row under the same index.
    nexts: List<u32>,
}

impl<I: Ord + Drop> Groups<I> {
    // No rows, with room for so many.
    fn with_capacity(alloc: Global, rows: usize) -> Result<Groups<I>, Memory>
        ensures none { IfOk result (λ groups. groups.nexts ≡ []) }
        ensures empty { IfOk result (λ groups. (i : I) → first_under I.eq groups.firsts i ≡ 0) }
    {
        Ok(Groups {
            firsts: BTreeMap::new(alloc),
            nexts: List::with_capacity(alloc, rows)?,
        })
    }

    // Puts one more row in front, under an index.
    fn push_front(&mut self, index: I) -> Result<(), Memory>
        ensures { OnOk result (IsPutInFront I.eq self.old.firsts self.old.nexts
            self.new.firsts self.new.nexts index) }
    {
        let Ok(behind) = u32::try_from(self.nexts.len()) else {
            return Err(Memory);
        };
        let place = behind.checked_add(1).ok_or(Memory)?;
        let next = self.firsts.insert(index, place)?.unwrap_or(0);
        self.nexts.push(next)
    }

    /// The place of the first row under an index, or 0.
    pub(crate) fn first(&self, index: &I) -> u32
        ensures { result ≡ first_under I.eq self.now.firsts index.now }
    {
        self.firsts.get(index).copied().unwrap_or(0)
    }

    /// The number in its answer, from 0, of the row at a place.
    pub(crate) fn row(&self, place: u32) -> usize
        requires { place ≤ length self.now.nexts }
        ensures { result ≡ length self.now.nexts - place }
    {
        self.nexts.len() - place as usize
    }

    /// The place of the next row under the index of the row at a place, or 0.
    pub(crate) fn next(&self, place: u32) -> u32
        requires some { 0 < place }
        requires there { place ≤ length self.now.nexts }
        ensures { result ≡ get_or self.now.nexts (place - 1) 0 }
    {
        self.nexts.as_slice()[place as usize - 1]
    }
}

/// The rows of the answer at a path by their outer index.
pub(crate) fn group<S: IndexScheme>(
    alloc: Global,
    scheme: &S,
    path: u64,
    rows: &Rows,
) -> Result<Groups<S::Index>, Memory>
    requires path { IsPath (S.scheme scheme.now) path }
    requires fits { All (RowFits ((S.scheme scheme.now).columns path)) rows.now }
    ensures grouped { IfOk result
        (λ groups. AreGrouped S.Index.eq ((S.scheme scheme.now).outer path)
        rows.now rows.now groups.firsts groups.nexts) }
    ensures counted { IfOk result (λ groups. length groups.nexts ≡ length rows.now) }
    ensures goes_on { IfOk result (λ groups. GoesOn groups.nexts) }
{
    let mut groups = Groups::with_capacity(alloc, rows.len())?;
    for done in 0..rows.len() {
        let row = rows.len() - 1 - done;
        groups.push_front(scheme.outer(alloc, path, rows, row)?)?;
    }
    Ok(groups)
}
