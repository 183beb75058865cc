// The numbers of the generators in base terms.
ghost use Rattle.std.specs.Prelude.{◌≡◌, ◌+◌, IfOk, map};
ghost use Rattle.nq_ir.specs.NormalForms.{gens_in_base, number_base, number_gens};
ghost use Rattle.nq_ir.specs.Trees.{base_tree, test_part as numbered_part};
ghost use Rattle.normalise.specs.Raw.{moved_base, raw_base, test_part};
ghost use Rattle.normalise.specs.Numbers.{numbers, bases_numbered, gens_in_bases, gens_in_test, test_numbered, tests_numbered, gens_in_parts};

use crate::numbers::Numbers;
use crate::raw::{MovedBase, RawBase, RawTest};
use crate::raw_copy::plus;
use nq_ir::{Base, Gen, Test};
use nq_model::{Label, List, Memory, boxed};
use std::alloc::Global;

// A base term with numbers from `next` on, and the number after its last.
#[cycle(number_base)]
fn number_base(
    alloc: Global,
    raw: &RawBase,
    next: u64,
    scope: &Numbers,
) -> Result<(Base, u64), Memory>
    ensures { IfOk result (λ r.
        (base_tree r.0 ≡ number_base next (numbers scope.now) (raw_base raw.now))
        × (r.1 ≡ next + gens_in_base (raw_base raw.now))) }
{
    match raw {
        RawBase::Int(number) => Ok((Base::Int(*number), next)),
        RawBase::Bool(truth) => Ok((Base::Bool(*truth), next)),
        RawBase::Text(text) => Ok((Base::Text(text.copy(alloc)?), next)),
        RawBase::Column { back, column } => {
            let generator = scope.at(*back)?;
            let column = column.copy(alloc)?;
            Ok((Base::Column { generator, column }, next))
        }
        RawBase::Unary { op, of } => {
            let (of, next) = number_boxed(alloc, of, next, scope)?;
            Ok((Base::Unary { op: *op, of }, next))
        }
        RawBase::Binary { op, left, right } => {
            let (left, next) = number_boxed(alloc, left, next, scope)?;
            let (right, next) = number_boxed(alloc, right, next, scope)?;
            let op = *op;
            Ok((Base::Binary { op, left, right }, next))
        }
        RawBase::Chain { op, first, more } => {
            let (first, next) = number_boxed(alloc, first, next, scope)?;
            let (more, next) = number_conds(alloc, more.as_slice(), next, scope)?;
            let op = *op;
            Ok((Base::Chain { op, first, more }, next))
        }
        RawBase::Choose { test, yes, no } => {
            let (test, next) = number_boxed(alloc, test, next, scope)?;
            let (yes, next) = number_boxed(alloc, yes, next, scope)?;
            let (no, next) = number_boxed(alloc, no, next, scope)?;
            Ok((Base::Choose { test, yes, no }, next))
        }
        RawBase::Empty(tests) => {
            let (tests, next) = number_tests(alloc, tests.as_slice(), next, scope)?;
            Ok((Base::Empty(tests), next))
        }
        RawBase::Count(test) => {
            let (test, next) = number_test(alloc, test, next, scope)?;
            Ok((Base::Count(test), next))
        }
        RawBase::Sum { over, value } => {
            // the generators of the comprehension are in scope in the value too
            let inner = Numbers::Dealt {
                first: next,
                count: over.tables.len() as u64,
                outer: &*scope,
            };
            let (over, next) = number_test(alloc, over, next, scope)?;
            let (value, next) = number_boxed(alloc, value, next, &inner)?;
            Ok((Base::Sum { over, value }, next))
        }
        RawBase::Moved(moved) => number_moved(alloc, moved, next, scope),
    }
}

/// The same of a base term that is moved under more generators: it does not name their numbers.
#[cycle(number_base)]
pub(crate) fn number_moved(
    alloc: Global,
    moved: &MovedBase,
    next: u64,
    scope: &Numbers,
) -> Result<(Base, u64), Memory>
    ensures { IfOk result (λ r.
        (base_tree r.0 ≡ number_base next (numbers scope.now) (moved_base moved.now))
        × (r.1 ≡ next + gens_in_base (moved_base moved.now))) }
{
    let inner = scope.without(moved.more, moved.from);
    number_base(alloc, &moved.base, next, &inner)
}

// The same on the heap.
#[cycle(number_base)]
fn number_boxed(
    alloc: Global,
    moved: &MovedBase,
    next: u64,
    scope: &Numbers,
) -> Result<(Box<Base>, u64), Memory>
    ensures { IfOk result (λ r.
        (base_tree r.0.value ≡ number_base next (numbers scope.now) (moved_base moved.now))
        × (r.1 ≡ next + gens_in_base (moved_base moved.now))) }
{
    let (base, after) = number_moved(alloc, moved, next, scope)?;
    Ok((boxed(alloc, base)?, after))
}

/// Conditions, or parts of a chain, with numbers from `first` on, and the number after their last.
#[cycle(number_base)]
pub(crate) fn number_conds(
    alloc: Global,
    conds: &[MovedBase],
    first: u64,
    scope: &Numbers,
) -> Result<(List<Base>, u64), Memory>
    ensures { IfOk result (λ r.
        (map base_tree r.0 ≡ bases_numbered first (numbers scope.now) (map moved_base conds.now))
        × (r.1 ≡ first + gens_in_bases (map moved_base conds.now))) }
{
    let mut numbered = List::with_capacity(alloc, conds.len())?;
    let mut next = first;
    for cond in conds {
        let (base, after) = number_moved(alloc, cond, next, scope)?;
        numbered.push(base)?;
        next = after;
    }
    Ok((numbered, next))
}

#[cycle(number_base)]
fn number_tests(
    alloc: Global,
    tests: &[RawTest],
    first: u64,
    scope: &Numbers,
) -> Result<(List<Test>, u64), Memory>
    ensures { IfOk result (λ r.
        (map numbered_part r.0 ≡ tests_numbered first (numbers scope.now) (map test_part tests.now))
        × (r.1 ≡ first + gens_in_parts (map test_part tests.now))) }
{
    let mut numbered = List::with_capacity(alloc, tests.len())?;
    let mut next = first;
    for test in tests {
        let (part, after) = number_test(alloc, test, next, scope)?;
        numbered.push(part)?;
        next = after;
    }
    Ok((numbered, next))
}

#[cycle(number_base)]
fn number_test(
    alloc: Global,
    test: &RawTest,
    next: u64,
    scope: &Numbers,
) -> Result<(Test, u64), Memory>
    ensures { IfOk result (λ r.
        (numbered_part r.0 ≡ test_numbered next (numbers scope.now) (test_part test.now))
        × (r.1 ≡ next + gens_in_test (test_part test.now))) }
{
    let count = test.tables.len() as u64;
    let start = plus(next, count)?;
    let gens = number_gens(alloc, test.tables.as_slice(), next)?;
    let inner = Numbers::Dealt {
        first: next,
        count,
        outer: &*scope,
    };
    let (conds, after) = number_conds(alloc, test.conds.as_slice(), start, &inner)?;
    Ok((Test { gens, conds }, after))
}

/// Generators with numbers from `next` on.
pub(crate) fn number_gens(alloc: Global, tables: &[Label], next: u64) -> Result<List<Gen>, Memory>
    ensures { IfOk result (λ gens. gens ≡ number_gens next tables.now) }
{
    let mut gens = List::with_capacity(alloc, tables.len())?;
    let mut number = next;
    for table in tables {
        gens.push(Gen {
            number,
            table: table.copy(alloc)?,
        })?;
        number = plus(number, 1)?;
    }
    Ok(gens)
}
