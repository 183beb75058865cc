// The bodies of the variables around a term.
ghost use Rattle.std.specs.Prelude.{◌≡◌, IfOk, get_or};
ghost use Rattle.nq_ir.specs.RawForms.{up_body, no_raw_body};
ghost use Rattle.normalise.specs.Raw.{moved_body};
ghost use Rattle.normalise.specs.Scopes.{bodies};

use crate::forms::no_body;
use crate::raw::MovedBody;
use crate::raw_copy::plus;
use nq_model::Memory;
use std::alloc::Global;

/// The bodies of the variables, the innermost first. `Under` stands for `count` more generators
/// around all that it holds.
#[derive(Clone, Copy)]
pub(crate) enum Scope<'a> {
    Top,
    Inner {
        body: &'a MovedBody,
        outer: &'a Scope<'a>,
    },
    Under {
        count: u64,
        outer: &'a Scope<'a>,
    },
}

impl<'a> Scope<'a> {
    /// The body of the variable `k`.
    pub(crate) fn variable(&self, alloc: Global, k: u64) -> Result<MovedBody, Memory>
        ensures { IfOk result (λ b. moved_body b ≡ get_or (bodies self.now) k no_raw_body) }
    {
        self.body_of(alloc, k, 0)
    }

    /// The body of the variable `k`, under `more` generators.
    fn body_of(&self, alloc: Global, k: u64, more: u64) -> Result<MovedBody, Memory>
        ensures { IfOk result (λ b.
            moved_body b ≡ up_body more 0 (get_or (bodies self.now) k no_raw_body)) }
    {
        match self {
            Scope::Top => no_body(alloc),
            Scope::Inner { body, outer } => {
                if k == 0 {
                    body.under(alloc, more, 0)
                } else {
                    outer.body_of(alloc, k - 1, more)
                }
            }
            Scope::Under { count, outer } => outer.body_of(alloc, k, plus(more, *count)?),
        }
    }
}
