// Lists of comprehensions: one behind the other, and inside generators and conditions.
ghost use Rattle.std.specs.Prelude.{◌≡◌, ◌++◌, [], IfOk, OnOk, map, reverse};
ghost use Rattle.nq_ir.specs.RawForms.{and_raw, append_raw, no_raw, no_raw_comp, raw_base_in, raw_comp, raw_comps_in, where_raw};
ghost use Rattle.normalise.specs.Raw.{comp_part, inside_part, moved_base, moved_body, raw_comps, test_inside, test_part};

use crate::depth::deepest_under;
use crate::raw::{MovedBase, MovedBody, RawBase, RawBody, RawComp, RawTest};
use crate::raw_copy::{all_under, shared_test};
use nq_model::{Label, List, Memory};
use std::alloc::Global;

/// The base term of a body; FALSE where it has another shape, as in no typed term.
#[tactic(auto, using(crate::proofs::Views::moved_body_is, crate::proofs::Views::body_rec, crate::proofs::Views::body_bag))]
#[inline(never)]
pub(crate) fn base_in(alloc: Global, body: &MovedBody) -> Result<MovedBase, Memory>
    ensures { IfOk result (λ b. moved_base b ≡ raw_base_in (moved_body body.now)) }
{
    match &*body.body {
        RawBody::Plain(base) => base.under(alloc, body.more, body.from),
        RawBody::Rec(_) | RawBody::Bag(_) => MovedBase::new(alloc, RawBase::Bool(false), 0),
    }
}

/// The comprehensions of a body; none where it has another shape, as in no typed term.
#[tactic(auto, using(crate::proofs::Views::body_plain, crate::proofs::Views::body_rec, crate::proofs::Views::body_bag))]
#[inline(never)]
pub(crate) fn comps_in(alloc: Global, body: MovedBody) -> Result<List<RawComp>, Memory>
    ensures { IfOk result (λ cs. raw_comps cs ≡ raw_comps_in (moved_body body)) }
{
    match body.opened(alloc)? {
        RawBody::Bag(comps) => Ok(comps),
        RawBody::Plain(_) | RawBody::Rec(_) => Ok(List::new(alloc)),
    }
}

/// One comprehension.
#[tactic(auto, using(crate::proofs::Views::comp_is))]
pub(crate) fn one_comp(
    alloc: Global,
    tables: List<Label>,
    body: MovedBody,
) -> Result<List<RawComp>, Memory>
    ensures { IfOk result (λ comps.
        raw_comps comps ≡ raw_comp tables no_raw (moved_body body) no_raw_comp) }
{
    let mut comps = List::with_capacity(alloc, 1)?;
    comps.push(RawComp {
        tables,
        conds: List::new(alloc),
        deepest: 0,
        body,
    })?;
    Ok(comps)
}

/// These elements, and then those.
pub(crate) fn joined<T: Drop>(left: List<T>, right: List<T>) -> Result<List<T>, Memory>
    ensures { IfOk result (λ all. all ≡ left ++ right) }
{
    let mut left = left.into_vec();
    let mut right = right.into_vec();
    left.append(&mut right)?;
    Ok(List::from_vec(left))
}

/// These elements, the last first.
pub(crate) fn reversed<T>(list: List<T>) -> List<T>
    ensures { result ≡ reverse list }
{
    let mut items = list.into_vec();
    items.reverse();
    List::from_vec(items)
}

/// These comprehensions, and then those.
pub(crate) fn append(left: List<RawComp>, right: List<RawComp>) -> Result<List<RawComp>, Memory>
    ensures { IfOk result (λ comps.
        raw_comps comps ≡ append_raw (raw_comps left) (raw_comps right)) }
{
    joined(left, right)
}

/// Each of `parts` inside the generators and conditions of `outer`, put behind `all`. The last
/// takes them as they stand.
#[inline(never)]
pub(crate) fn put_inside(
    alloc: Global,
    all: &mut List<RawComp>,
    outer: RawTest,
    parts: List<RawComp>,
) -> Result<(), Memory>
    ensures { OnOk result (map comp_part all.new
        ≡ map comp_part all.old
        ++ map (inside_part (test_part outer).tables (test_part outer).conds)
        (map comp_part parts)) }
{
    let mut parts = parts;
    match parts.pop() {
        Some(last) => {
            put_each_inside(alloc, all, &outer, parts)?;
            let part = inside_one(alloc, outer, last)?;
            all.push(part)?;
            Ok(())
        }
        None => Ok(()),
    }
}

fn put_each_inside(
    alloc: Global,
    all: &mut List<RawComp>,
    outer: &RawTest,
    parts: List<RawComp>,
) -> Result<(), Memory>
    ensures { OnOk result (map comp_part all.new
        ≡ map comp_part all.old
        ++ map (inside_part (test_part outer.now).tables (test_part outer.now).conds)
        (map comp_part parts)) }
{
    for part in parts.into_vec() {
        let outer = shared_test(alloc, outer)?;
        all.push(inside_one(alloc, outer, part)?)?;
    }
    Ok(())
}

fn inside_one(alloc: Global, outer: RawTest, part: RawComp) -> Result<RawComp, Memory>
    ensures { IfOk result (λ comp.
        comp_part comp ≡ inside_part (test_part outer).tables (test_part outer).conds
        (comp_part part)) }
{
    let RawComp {
        tables,
        conds,
        deepest,
        body,
    } = part;
    let own = RawTest {
        tables,
        conds,
        deepest,
    };
    let whole = inside_test(alloc, outer, own)?;
    let RawTest {
        tables,
        conds,
        deepest,
    } = whole;
    Ok(RawComp {
        tables,
        conds,
        deepest,
        body,
    })
}

/// A comprehension without its body inside the generators and conditions of `outer`.
pub(crate) fn inside_test(alloc: Global, outer: RawTest, part: RawTest) -> Result<RawTest, Memory>
    ensures { IfOk result (λ test.
        test_part test ≡ test_inside (test_part outer).tables (test_part outer).conds
        (test_part part)) }
{
    let more = part.tables.len() as u64;
    let RawTest {
        tables,
        conds,
        deepest,
    } = outer;
    let around = all_under(alloc, conds, more)?;
    let deepest = deepest_under(around.as_slice(), more, deepest);
    let RawTest {
        tables: own_tables,
        conds: own_conds,
        deepest: own_deepest,
    } = part;
    let tables = joined(tables, own_tables)?;
    let conds = joined(around, own_conds)?;
    Ok(RawTest {
        tables,
        conds,
        deepest: deepest.max(own_deepest),
    })
}

/// One condition, and no generators.
pub(crate) fn condition(alloc: Global, cond: MovedBase) -> Result<RawTest, Memory>
    ensures { IfOk result (λ test.
        ((test_part test).tables ≡ [])
        × ((test_part test).conds ≡ and_raw (moved_base cond) no_raw)) }
{
    let deepest = cond.depth;
    let mut conds = List::with_capacity(alloc, 1)?;
    conds.push(cond)?;
    Ok(RawTest {
        tables: List::new(alloc),
        conds,
        deepest,
    })
}

/// The comprehensions under one more condition, which stands before theirs.
pub(crate) fn guarded(
    alloc: Global,
    cond: MovedBase,
    parts: List<RawComp>,
) -> Result<List<RawComp>, Memory>
    ensures { IfOk result (λ all. raw_comps all ≡ where_raw (moved_base cond) (raw_comps parts)) }
{
    let outer = condition(alloc, cond)?;
    let mut all = List::with_capacity(alloc, parts.len())?;
    put_inside(alloc, &mut all, outer, parts)?;
    Ok(all)
}
