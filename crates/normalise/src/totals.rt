// Counts and sums: one for each comprehension, joined by `+` from the left in one chain, so that
// however many there are, what is joined is no deeper than they are.
ghost use Rattle.std.specs.Prelude.{◌≡◌, IfOk, map};
ghost use Rattle.nq_ir.specs.RawForms.{of_each, plus_all, plus_each, raw_plain, raw_sum};
ghost use Rattle.normalise.specs.Raw.{comp_part, count_in, moved_base, moved_body, raw_comps, raw_tests, sum_in, test_part};
ghost use Rattle.normalise.specs.Totals.{counts_of};

use crate::comps::base_in;
use crate::depth::{deepest, test_depth};
use crate::raw::{MovedBase, MovedBody, RawBase, RawBody, RawComp, RawTest};
use crate::tests::test_in;
use nq_model::{Binary, List, Memory};
use std::alloc::Global;

/// How many elements the comprehensions give.
#[inline(never)]
pub(crate) fn count(alloc: Global, tests: List<RawTest>) -> Result<MovedBody, Memory>
    ensures { IfOk result (λ b. moved_body b ≡ raw_plain (plus_all (counts_of (raw_tests tests)))) }
{
    let all = plus_all(alloc, each_count(alloc, tests)?)?;
    MovedBody::new(alloc, RawBody::Plain(all))
}

/// The sum of the bodies over the elements that the comprehensions give.
#[inline(never)]
pub(crate) fn sum(alloc: Global, comps: List<RawComp>) -> Result<MovedBody, Memory>
    ensures { IfOk result (λ b.
        moved_body b ≡ raw_plain (plus_all (of_each raw_sum (raw_comps comps)))) }
{
    let all = plus_all(alloc, each_sum(alloc, comps)?)?;
    MovedBody::new(alloc, RawBody::Plain(all))
}

fn each_count(alloc: Global, tests: List<RawTest>) -> Result<List<MovedBase>, Memory>
    ensures { IfOk result (λ all. map moved_base all ≡ map count_in (map test_part tests)) }
{
    let mut all = List::with_capacity(alloc, tests.len())?;
    for test in tests.into_vec() {
        all.push(count_one(alloc, test)?)?;
    }
    Ok(all)
}

fn count_one(alloc: Global, test: RawTest) -> Result<MovedBase, Memory>
    ensures { IfOk result (λ b. moved_base b ≡ count_in (test_part test)) }
{
    let below = test_depth(&test);
    MovedBase::new(alloc, RawBase::Count(test), below)
}

fn each_sum(alloc: Global, comps: List<RawComp>) -> Result<List<MovedBase>, Memory>
    ensures { IfOk result (λ all. map moved_base all ≡ map sum_in (map comp_part comps)) }
{
    let mut all = List::with_capacity(alloc, comps.len())?;
    for comp in comps.into_vec() {
        all.push(sum_one(alloc, comp)?)?;
    }
    Ok(all)
}

fn sum_one(alloc: Global, comp: RawComp) -> Result<MovedBase, Memory>
    ensures { IfOk result (λ b. moved_base b ≡ sum_in (comp_part comp)) }
{
    let value = base_in(alloc, &comp.body)?;
    let over = test_in(comp);
    let below = test_depth(&over).max(value.depth);
    MovedBase::new(alloc, RawBase::Sum { over, value }, below)
}

// These joined by `+` from the left; of none it is the number 0.
#[tactic(auto, using(crate::proofs::Views::base_int))]
fn plus_all(alloc: Global, parts: List<MovedBase>) -> Result<MovedBase, Memory>
    ensures { IfOk result (λ b. moved_base b ≡ plus_all (map moved_base parts)) }
{
    if parts.is_empty() {
        return MovedBase::new(alloc, RawBase::Int(0), 0);
    }
    let mut parts = parts.into_vec();
    let first = parts.remove(0);
    plus_each(alloc, first, List::from_vec(parts))
}

// These joined by `+` from the left.
#[tactic(auto, using(crate::proofs::Sums::chain_of_plus))]
fn plus_each(alloc: Global, first: MovedBase, more: List<MovedBase>) -> Result<MovedBase, Memory>
    ensures { IfOk result (λ b.
        moved_base b ≡ plus_each (moved_base first) (map moved_base more)) }
{
    if more.is_empty() {
        return Ok(first);
    }
    let op = Binary::Add;
    let below = first.depth.max(deepest(more.as_slice()));
    MovedBase::new(alloc, RawBase::Chain { op, first, more }, below)
}
