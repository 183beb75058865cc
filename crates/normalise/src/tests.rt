// Comprehensions without bodies, as emptiness tests and counts have them: one behind the other, and
// inside generators and conditions.
ghost use Rattle.std.specs.Prelude.{◌≡◌, ◌++◌, ◌∷◌, [], IfOk, OnOk, map, option_map};
ghost use Rattle.nq_ir.specs.RawForms.{no_raw, no_raw_test, raw_test, raw_tests_of};
ghost use Rattle.normalise.specs.Raw.{append_tests, bodiless, comp_part, moved_base, moved_body, raw_comps, raw_tests, test_inside, test_part, where_tests};
ghost use Rattle.normalise.specs.BagTests.{bag_tests, choice_of_tests};

use crate::comps::{condition, inside_test, joined};
use crate::moved::negation;
use crate::raw::{MovedBase, MovedBody, RawBody, RawComp, RawTest};
use crate::raw_copy::shared_test;
use nq_model::{Label, List, Memory};
use std::alloc::Global;

/// One comprehension over the table of that name.
#[inline(never)]
pub(crate) fn test_of_table(alloc: Global, name: &Label) -> Result<List<RawTest>, Memory>
    ensures { IfOk result (λ tests. raw_tests tests ≡ raw_test (name.now ∷ []) no_raw no_raw_test) }
{
    let mut tables = List::with_capacity(alloc, 1)?;
    tables.push(name.copy(alloc)?)?;
    one_test(alloc, tables)
}

/// One comprehension without conditions.
#[tactic(auto, using(crate::proofs::Views::test_is))]
#[inline(never)]
pub(crate) fn one_test(alloc: Global, tables: List<Label>) -> Result<List<RawTest>, Memory>
    ensures { IfOk result (λ tests. raw_tests tests ≡ raw_test tables no_raw no_raw_test) }
{
    let mut tests = List::with_capacity(alloc, 1)?;
    tests.push(RawTest {
        tables,
        conds: List::new(alloc),
        deepest: 0,
    })?;
    Ok(tests)
}

/// These comprehensions, and then those.
#[inline(never)]
pub(crate) fn append_tests(
    left: List<RawTest>,
    right: List<RawTest>,
) -> Result<List<RawTest>, Memory>
    ensures { IfOk result (λ tests.
        raw_tests tests ≡ append_tests (raw_tests left) (raw_tests right)) }
{
    joined(left, right)
}

/// Each of `parts` inside the generators and conditions of `outer`, put behind `all`. The last
/// takes them as they stand.
#[inline(never)]
pub(crate) fn put_tests_inside(
    alloc: Global,
    all: &mut List<RawTest>,
    outer: RawTest,
    parts: List<RawTest>,
) -> Result<(), Memory>
    ensures { OnOk result (map test_part all.new
        ≡ map test_part all.old
        ++ map (test_inside (test_part outer).tables (test_part outer).conds)
        (map test_part parts)) }
{
    let mut parts = parts;
    match parts.pop() {
        Some(last) => {
            put_each_test_inside(alloc, all, &outer, parts)?;
            let part = inside_test(alloc, outer, last)?;
            all.push(part)?;
            Ok(())
        }
        None => Ok(()),
    }
}

fn put_each_test_inside(
    alloc: Global,
    all: &mut List<RawTest>,
    outer: &RawTest,
    parts: List<RawTest>,
) -> Result<(), Memory>
    ensures { OnOk result (map test_part all.new
        ≡ map test_part all.old
        ++ map (test_inside (test_part outer.now).tables (test_part outer.now).conds)
        (map test_part parts)) }
{
    for part in parts.into_vec() {
        let outer = shared_test(alloc, outer)?;
        all.push(inside_test(alloc, outer, part)?)?;
    }
    Ok(())
}

/// The comprehensions under one more condition, which stands before theirs.
#[inline(never)]
pub(crate) fn guarded_tests(
    alloc: Global,
    cond: MovedBase,
    parts: List<RawTest>,
) -> Result<List<RawTest>, Memory>
    ensures { IfOk result (λ all. raw_tests all ≡ where_tests (moved_base cond) (raw_tests parts)) }
{
    let outer = condition(alloc, cond)?;
    let mut all = List::with_capacity(alloc, parts.len())?;
    put_tests_inside(alloc, &mut all, outer, parts)?;
    Ok(all)
}

/// The choice between two: of two bags the comprehensions of `yes` under the test, and then those
/// of `no` under its negation; otherwise it is `yes`.
#[inline(never)]
pub(crate) fn chosen_tests(
    alloc: Global,
    test: MovedBase,
    yes: Option<List<RawTest>>,
    no: Option<List<RawTest>>,
) -> Result<Option<List<RawTest>>, Memory>
    ensures { IfOk result (λ found.
        option_map raw_tests found
        ≡ choice_of_tests (moved_base test) (option_map raw_tests yes) (option_map raw_tests no)) }
{
    match yes {
        Some(yes) => match no {
            Some(no) => {
                let yes = guarded_tests(alloc, test.shared()?, yes)?;
                let negated = negation(alloc, test)?;
                let no = guarded_tests(alloc, negated, no)?;
                Ok(Some(append_tests(yes, no)?))
            }
            None => Ok(Some(yes)),
        },
        None => Ok(None),
    }
}

/// The comprehensions of a body without their bodies, if it is a bag.
#[tactic(auto, using(crate::proofs::Views::body_plain, crate::proofs::Views::body_rec, crate::proofs::Views::body_bag))]
#[inline(never)]
pub(crate) fn opened_tests(alloc: Global, body: MovedBody) -> Result<Option<List<RawTest>>, Memory>
    ensures { IfOk result (λ found. option_map raw_tests found ≡ bag_tests (moved_body body)) }
{
    match body.opened(alloc)? {
        RawBody::Bag(comps) => Ok(Some(tests_of(alloc, comps)?)),
        RawBody::Plain(_) | RawBody::Rec(_) => Ok(None),
    }
}

fn tests_of(alloc: Global, comps: List<RawComp>) -> Result<List<RawTest>, Memory>
    ensures { IfOk result (λ tests. raw_tests tests ≡ raw_tests_of (raw_comps comps)) }
{
    each_test(alloc, comps)
}

fn each_test(alloc: Global, comps: List<RawComp>) -> Result<List<RawTest>, Memory>
    ensures { IfOk result (λ tests. map test_part tests ≡ map bodiless (map comp_part comps)) }
{
    let mut tests = List::with_capacity(alloc, comps.len())?;
    for comp in comps.into_vec() {
        tests.push(test_in(comp))?;
    }
    Ok(tests)
}

/// A comprehension without its body.
pub(crate) fn test_in(comp: RawComp) -> RawTest
    ensures { test_part result ≡ bodiless (comp_part comp) }
{
    let RawComp {
        tables,
        conds,
        deepest,
        body: _body,
    } = comp;
    RawTest {
        tables,
        conds,
        deepest,
    }
}
