// The rows of an answer in groups.
ghost use Rattle.std.specs.Prelude.{◌≡◌, IfOk};
ghost use Rattle.answer_text.specs.Members.{AreSorted};
ghost use Rattle.answer_text.specs.Parts.{places_under};

use crate::order::arranged;
use crate::part::Part;
use crate::runs::Runs;
use nq_model::Memory;
use rows::Rows;
use std::alloc::Global;

/// The rows of an answer by their outer index: under each index a run of places, in the order of
/// the elements that the rows there are.
#[derive(Drop)]
pub(crate) struct Groups {
    pub(crate) rows: Rows,
    runs: Runs,
}

impl Groups {
    /// Rows in groups, of which each is an element.
    pub(crate) fn new(alloc: Global, rows: Rows, element: &Part) -> Result<Groups, Memory>
        ensures { IfOk result (λ groups. AreSorted element.now rows groups) }
    {
        let runs = arranged(alloc, &rows, element)?;
        Ok(Groups { rows, runs })
    }

    /// The places of the rows under an index, in their order.
    pub(crate) fn places_under(&self, index: (i64, i64)) -> &[u32]
        ensures { result.now ≡ places_under self.now index }
    {
        self.runs.under(index)
    }
}
