// The values of the variables.
ghost use Rattle.std.specs.Prelude.{◌≡◌, get_or, IfOk, false};
ghost use Rattle.nq_model.specs.Values.{nested, base};
ghost use Rattle.nq_model.specs.declared.table.Cell.TheVariants as cell;
ghost use Rattle.reference_terms.specs.Scopes.{values};

use nq_model::{Memory, Value};
use std::alloc::Global;

/// The values of the variables in scope, as a chain, the innermost first.
#[derive(Clone, Copy)]
pub enum Scope<'a> {
    Top,
    Inner(&'a Value, &'a Scope<'a>),
}

impl<'a> Scope<'a> {
    /// A copy of the value of the k-th variable outwards. One that is not there counts as false.
    /// Fails only if memory runs out.
    pub fn value(&self, alloc: Global, k: u64) -> Result<Value, Memory>
        ensures { IfOk result (λ value.
            nested value ≡ get_or (values self.now) k (base (cell.Bool false))) }
    {
        match self {
            Scope::Top => Ok(Value::Bool(false)),
            Scope::Inner(value, outer) => {
                if k == 0 {
                    value.copy(alloc)
                } else {
                    outer.value(alloc, k - 1)
                }
            }
        }
    }
}
