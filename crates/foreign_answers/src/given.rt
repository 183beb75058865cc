// The indexes that the rows of an answer give for inner bags.
ghost use Rattle.std.specs.Prelude.{◌≡◌, ℕ, IfOk, OnOk, None, Some, cond, is_some};
ghost use Rattle.foreign_answers.specs.Given.{first_given, same_key};

use nq_model::Memory;
use std::alloc::Global;
use std::collections::BTreeMap;

/// The indexes that the rows of an answer give for inner bags, each with the number of the first
/// row that gives it.
#[derive(Drop)]
pub(crate) struct Given<I: Ord> {
    // By the number of the inner bag and the index, in an ordered map: no choice of indexes makes
    // its look-ups slow.
    firsts: BTreeMap<(u64, I), u64>,
}

impl<I: Ord + Drop> Given<I> {
    /// Those of no row.
    pub(crate) fn new(alloc: Global) -> Given<I>
        ensures { (s : ℕ) (i : I) → first_given I.eq result.firsts s i ≡ None }
    {
        Given {
            firsts: BTreeMap::new(alloc),
        }
    }

    /// Enters the index that a row gives for an inner bag, in place of the row that was entered
    /// with it. Tells the number of that row, if there is one.
    pub(crate) fn enter(&mut self, slot: u64, index: I, row: u64) -> Result<Option<u64>, Memory>
        ensures earlier { IfOk result (λ earlier. earlier
            ≡ first_given I.eq self.old.firsts slot index) }
        ensures entered { OnOk result ((s : ℕ) (i : I) → first_given I.eq self.new.firsts s i
            ≡ cond (same_key I.eq (slot, index) (s, i)) (Some row)
            (first_given I.eq self.old.firsts s i)) }
    {
        let earlier = self.firsts.insert((slot, index), row)?;
        Ok(earlier)
    }

    /// Whether a row gives an inner bag by this index.
    pub(crate) fn has(&self, slot: u64, index: I) -> bool
        ensures { result ≡ is_some (first_given I.eq self.now.firsts slot index) }
    {
        let key = (slot, index);
        self.firsts.contains_key(&key)
    }
}
