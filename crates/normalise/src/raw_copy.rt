// Copies of tables, and conditions shared and under more generators.
ghost use Rattle.std.specs.Prelude.{◌≡◌, ◌+◌, IfOk, map};
ghost use Rattle.nq_ir.specs.RawForms.{up_base, up_index};
ghost use Rattle.normalise.specs.Raw.{moved_base, test_part};

use crate::raw::{MovedBase, RawTest};
use nq_model::{Label, List, Memory};
use std::alloc::Global;

/// A sum. One of 2^64 or more counts what has no place in memory.
pub(crate) fn plus(a: u64, b: u64) -> Result<u64, Memory>
    ensures { IfOk result (λ n. n ≡ a + b) }
{
    match a.checked_add(b) {
        Some(sum) => Ok(sum),
        None => Err(Memory),
    }
}

/// How many generators stand between, where `more` come around all but the first `from`.
pub(crate) fn index_under(back: u64, more: u64, from: u64) -> Result<u64, Memory>
    ensures { IfOk result (λ i. i ≡ up_index more from back) }
{
    if back < from {
        Ok(back)
    } else {
        plus(more, back)
    }
}

/// Copies of labels.
pub(crate) fn copy_labels(alloc: Global, labels: &[Label]) -> Result<List<Label>, Memory>
    ensures { IfOk result (λ copies. copies ≡ labels.now) }
{
    let mut copies = List::with_capacity(alloc, labels.len())?;
    for label in labels {
        copies.push(label.copy(alloc)?)?;
    }
    Ok(copies)
}

/// Conditions under `more` generators, outside the first `from`.
pub(crate) fn conds_under(
    alloc: Global,
    conds: &[MovedBase],
    more: u64,
    from: u64,
) -> Result<List<MovedBase>, Memory>
    ensures { IfOk result (λ moved.
        map moved_base moved ≡ map (up_base more from) (map moved_base conds.now)) }
{
    let mut moved = List::with_capacity(alloc, conds.len())?;
    for cond in conds {
        moved.push(cond.under(alloc, more, from)?)?;
    }
    Ok(moved)
}

/// The same generators and conditions.
pub(crate) fn shared_test(alloc: Global, test: &RawTest) -> Result<RawTest, Memory>
    ensures { IfOk result (λ same. test_part same ≡ test_part test.now) }
{
    let tables = copy_labels(alloc, test.tables.as_slice())?;
    let conds = conds_under(alloc, test.conds.as_slice(), 0, 0)?;
    Ok(RawTest {
        tables,
        conds,
        deepest: test.deepest,
    })
}

/// These conditions under `more` generators.
pub(crate) fn all_under(
    alloc: Global,
    conds: List<MovedBase>,
    more: u64,
) -> Result<List<MovedBase>, Memory>
    ensures { IfOk result (λ moved.
        map moved_base moved ≡ map (up_base more 0) (map moved_base conds)) }
{
    if more == 0 {
        Ok(conds)
    } else {
        conds_under(alloc, conds.as_slice(), more, 0)
    }
}
