// What stands for a variable: the last use moves it, and earlier ones copy it.
ghost use Rattle.std.specs.Prelude.{◌≡◌, IfOk};
ghost use Rattle.nq_model.specs.Terms.{placed};
ghost use Rattle.nq_model.specs.Substitution.{shift, put};
ghost use Rattle.unfold.specs.Slots.{Puts};

use crate::built::{Built, leaf};
use crate::raise::raise;
use nq_model::{Memory, Node, Term};
use std::alloc::Global;

/// A term for a variable, if it is still there, and how many uses of the variable are to come.
#[derive(Drop)]
pub(crate) struct Slot {
    pub value: Option<Built<Term>>,
    pub left: u64,
}

// A value, moved under `under` binders.
#[tactic(auto, using(crate::proofs::Shifts::shift_zero))]
fn moved(alloc: Global, under: u64, value: Built<Term>) -> Result<Built<Term>, Memory>
    ensures { IfOk result (λ b. placed b.term ≡ shift under 0 (placed value.term)) }
{
    if under == 0 {
        return Ok(value);
    }
    Ok(Built {
        term: raise(alloc, under, 0, value.term)?,
        deep: value.deep,
    })
}

/// The term in the slot under `under` binders, moved where this is the last use.
pub(crate) fn take(alloc: Global, under: u64, slot: &mut Slot) -> Result<Built<Term>, Memory>
    ensures { IfOk result (λ b. Puts slot.old slot.new (λ s. placed b.term ≡ shift under 0 s)) }
{
    let left = slot.left;
    slot.left = left.saturating_sub(1);
    if left <= 1 {
        match slot.value.take() {
            Some(value) => moved(alloc, under, value),
            None => Err(Memory),
        }
    } else {
        match &slot.value {
            Some(value) => { moved(alloc, under, value.copy(alloc)?) }
            None => Err(Memory),
        }
    }
}

/// What stands for the variable `k` of that place, where the slot is for the variable `from`.
#[inline(never)]
pub(crate) fn put(
    alloc: Global,
    place: u64,
    k: u64,
    from: u64,
    slot: &mut Slot,
) -> Result<Built<Term>, Memory>
    ensures { IfOk result (λ b. Puts slot.old slot.new (λ s. placed b.term ≡ put from s place k)) }
{
    if k < from {
        Ok(leaf(Term {
            place,
            node: Node::Var(k),
        }))
    } else if k == from {
        take(alloc, from, slot)
    } else {
        Ok(leaf(Term {
            place,
            node: Node::Var(k - 1),
        }))
    }
}
