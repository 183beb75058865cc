// Bodies of each form of term, over the bodies of its parts. None of these calls the walk.
ghost use Rattle.std.specs.Prelude.{◌≡◌, IfOk, []};
ghost use Rattle.nq_model.specs.Orders.{by_label};
ghost use Rattle.nq_model.specs.declared.table.Cell.TheVariants as cell;
ghost use Rattle.nq_ir.specs.RawForms.{append_raw, no_raw, no_raw_body, no_raw_comp, raw_bag, raw_binary, raw_comp, raw_empty, raw_literal, raw_plain, raw_rec, raw_unary, where_raw};
ghost use Rattle.normalise.specs.Raw.{fields_of, fields_view, moved_base, moved_body, raw_base, raw_comps, raw_tests};

use crate::comps::{append, guarded, one_comp};
use crate::depth::tests_depth;
use crate::fields::in_label_order;
use crate::moved::operation;
use crate::raw::{MovedBase, MovedBody, RawBase, RawBody, RawComp, RawTest};
use nq_model::{Binary, Label, List, Memory, Text, Unary};
use std::alloc::Global;

#[inline(never)]
pub(crate) fn text(alloc: Global, of: &Text) -> Result<MovedBody, Memory>
    ensures { IfOk result (λ b. moved_body b ≡ raw_plain (raw_literal (cell.Text of.now))) }
{
    plain(alloc, RawBase::Text(of.copy(alloc)?))
}

/// A base term that has no parts.
#[inline(never)]
pub(crate) fn plain(alloc: Global, base: RawBase) -> Result<MovedBody, Memory>
    ensures { IfOk result (λ b. moved_body b ≡ raw_plain (raw_base base)) }
{
    let base = MovedBase::new(alloc, base, 0)?;
    MovedBody::new(alloc, RawBody::Plain(base))
}

/// What stands for a term that no plain term holds.
#[inline(never)]
pub(crate) fn no_body(alloc: Global) -> Result<MovedBody, Memory>
    ensures { IfOk result (λ b. moved_body b ≡ no_raw_body) }
{
    plain(alloc, RawBase::Bool(false))
}

#[inline(never)]
pub(crate) fn unary(alloc: Global, op: Unary, of: MovedBase) -> Result<MovedBody, Memory>
    ensures { IfOk result (λ b. moved_body b ≡ raw_plain (raw_unary op (moved_base of))) }
{
    let below = of.depth;
    let base = RawBase::Unary { op, of };
    let base = MovedBase::new(alloc, base, below)?;
    MovedBody::new(alloc, RawBody::Plain(base))
}

#[inline(never)]
pub(crate) fn binary(
    alloc: Global,
    op: Binary,
    left: MovedBase,
    right: MovedBase,
) -> Result<MovedBody, Memory>
    ensures { IfOk result (λ b.
        moved_body b ≡ raw_plain (raw_binary op (moved_base left) (moved_base right))) }
{
    let base = operation(alloc, op, left, right)?;
    MovedBody::new(alloc, RawBody::Plain(base))
}

#[inline(never)]
pub(crate) fn with_fields(
    alloc: Global,
    fields: List<(Label, MovedBody)>,
) -> Result<MovedBody, Memory>
    ensures { IfOk result (λ b.
        moved_body b ≡ raw_rec (fields_of (by_label (fields_view fields)))) }
{
    let sorted = in_label_order(fields)?;
    MovedBody::new(alloc, RawBody::Rec(sorted))
}

#[inline(never)]
pub(crate) fn emptiness(alloc: Global, tests: List<RawTest>) -> Result<MovedBody, Memory>
    ensures { IfOk result (λ b. moved_body b ≡ raw_plain (raw_empty (raw_tests tests))) }
{
    let below = tests_depth(tests.as_slice());
    let base = RawBase::Empty(tests);
    let base = MovedBase::new(alloc, base, below)?;
    MovedBody::new(alloc, RawBody::Plain(base))
}

/// A bag.
#[inline(never)]
pub(crate) fn bag(alloc: Global, comps: List<RawComp>) -> Result<MovedBody, Memory>
    ensures { IfOk result (λ b. moved_body b ≡ raw_bag (raw_comps comps)) }
{
    MovedBody::new(alloc, RawBody::Bag(comps))
}

#[inline(never)]
pub(crate) fn single(alloc: Global, of: MovedBody) -> Result<MovedBody, Memory>
    ensures { IfOk result (λ b.
        moved_body b ≡ raw_bag (raw_comp [] no_raw (moved_body of) no_raw_comp)) }
{
    let comps = one_comp(alloc, List::new(alloc), of)?;
    bag(alloc, comps)
}

#[inline(never)]
pub(crate) fn union(
    alloc: Global,
    left: List<RawComp>,
    right: List<RawComp>,
) -> Result<MovedBody, Memory>
    ensures { IfOk result (λ b.
        moved_body b ≡ raw_bag (append_raw (raw_comps left) (raw_comps right))) }
{
    let comps = append(left, right)?;
    bag(alloc, comps)
}

#[inline(never)]
pub(crate) fn guard(
    alloc: Global,
    test: MovedBase,
    rest: List<RawComp>,
) -> Result<MovedBody, Memory>
    ensures { IfOk result (λ b.
        moved_body b ≡ raw_bag (where_raw (moved_base test) (raw_comps rest))) }
{
    let comps = guarded(alloc, test, rest)?;
    bag(alloc, comps)
}
