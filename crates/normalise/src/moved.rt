// Base terms that are shared, and moved under more generators without a walk over them.
ghost use Rattle.std.specs.Prelude.{◌≡◌, IfOk};
ghost use Rattle.nq_ir.specs.RawForms.{raw_binary, raw_choose, raw_unary, up_base};
ghost use Rattle.nq_model.specs.declared.term.Unary.TheVariants.{Not};
ghost use Rattle.normalise.specs.Raw.{moved_base, raw_base};

use crate::depth::level_above;
use crate::raw::{MovedBase, RawBase};
use crate::raw_copy::plus;
use nq_model::{Binary, Memory, Unary};
use std::alloc::Global;
use std::rc::Rc;

impl MovedBase {
    /// A base term where it stands, over parts that are so deep.
    pub(crate) fn new(alloc: Global, base: RawBase, below: u64) -> Result<MovedBase, Memory>
        ensures { IfOk result (λ m. moved_base m ≡ raw_base base) }
    {
        let depth = level_above(below)?;
        Ok(MovedBase {
            base: Rc::new(alloc, base)?,
            more: 0,
            from: 0,
            depth,
        })
    }

    /// The same base term.
    pub(crate) fn shared(&self) -> Result<MovedBase, Memory>
        ensures { IfOk result (λ m. moved_base m ≡ moved_base self.now) }
    {
        self.moved(self.more, self.from)
    }

    /// The same base term under `more` generators, which stand outside the first `from` around it.
    pub(crate) fn under(&self, alloc: Global, more: u64, from: u64) -> Result<MovedBase, Memory>
        ensures { IfOk result (λ m. moved_base m ≡ up_base more from (moved_base self.now)) }
    {
        if more == 0 {
            self.shared()
        } else if self.more == 0 {
            self.moved(more, from)
        } else if self.from <= from && from - self.from <= self.more {
            // beside or among the generators that it was moved under before
            self.moved(plus(more, self.more)?, self.from)
        } else {
            self.moved_again(alloc, more, from)
        }
    }

    fn moved(&self, more: u64, from: u64) -> Result<MovedBase, Memory>
        ensures { IfOk result (λ m.
            moved_base m ≡ up_base more from (raw_base self.now.base.value)) }
    {
        Ok(MovedBase {
            base: self.base.clone()?,
            more,
            from,
            depth: self.depth,
        })
    }

    fn moved_again(&self, alloc: Global, more: u64, from: u64) -> Result<MovedBase, Memory>
        ensures { IfOk result (λ m. moved_base m ≡ up_base more from (moved_base self.now)) }
    {
        let depth = level_above(self.depth)?;
        let base = RawBase::Moved(self.shared()?);
        Ok(MovedBase {
            base: Rc::new(alloc, base)?,
            more,
            from,
            depth,
        })
    }
}

/// A choice.
pub(crate) fn choose(
    alloc: Global,
    test: MovedBase,
    yes: MovedBase,
    no: MovedBase,
) -> Result<MovedBase, Memory>
    ensures { IfOk result (λ m.
        moved_base m ≡ raw_choose (moved_base test) (moved_base yes) (moved_base no)) }
{
    let below = test.depth.max(yes.depth).max(no.depth);
    MovedBase::new(alloc, RawBase::Choose { test, yes, no }, below)
}

/// An operation on two base terms.
pub(crate) fn operation(
    alloc: Global,
    op: Binary,
    left: MovedBase,
    right: MovedBase,
) -> Result<MovedBase, Memory>
    ensures { IfOk result (λ m. moved_base m ≡ raw_binary op (moved_base left) (moved_base right)) }
{
    let below = left.depth.max(right.depth);
    MovedBase::new(alloc, RawBase::Binary { op, left, right }, below)
}

/// The negation.
pub(crate) fn negation(alloc: Global, of: MovedBase) -> Result<MovedBase, Memory>
    ensures { IfOk result (λ m. moved_base m ≡ raw_unary Not (moved_base of)) }
{
    let below = of.depth;
    MovedBase::new(alloc, RawBase::Unary { op: Unary::Not, of }, below)
}
