// Paths to the bags of a type.
ghost use Rattle.std.specs.Prelude.{◌≡◌, IfOk};

use nq_model::{Label, List, Memory};
use std::alloc::Global;

/// A step from a type inwards: from a bag to its elements, or from a record to a field.
#[derive(Drop)]
pub enum Step {
    Down,
    Field(Label),
}

impl Step {
    /// A copy of the step.
    pub fn copy(&self, alloc: Global) -> Result<Step, Memory>
        ensures { IfOk result (λ copy. copy ≡ self.now) }
    {
        match self {
            Step::Down => Ok(Step::Down),
            Step::Field(label) => Ok(Step::Field(label.copy(alloc)?)),
        }
    }
}

/// The steps from a type to a bag in it. The empty path is that of the bag itself.
///
/// After Cheney, Lindley and Wadler, "Query Shredding", SIGMOD 2014.
#[derive(Drop)]
pub struct Path {
    pub steps: List<Step>,
}

impl Path {
    /// A copy of the path.
    pub fn copy(&self, alloc: Global) -> Result<Path, Memory>
        ensures { IfOk result (λ copy. copy ≡ self.now) }
    {
        let mut steps = List::with_capacity(alloc, self.steps.len())?;
        for step in self.steps.as_slice() {
            steps.push(step.copy(alloc)?)?;
        }
        Ok(Path { steps })
    }
}
