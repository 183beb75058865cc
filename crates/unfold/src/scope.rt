// What the binders around a part of the query stand for.
ghost use Rattle.std.specs.Prelude.{◌≡◌, ◌+◌, ◌∷◌, List, IfOk};
ghost use Rattle.nq_model.specs.Terms.{placed, at, PlacedNode};
ghost use Rattle.unfold.specs.Environments.{Entry, stands_for, looked_up};
ghost use Rattle.unfold.specs.Scopes.{IsFor, Stands, Keeps};

use crate::built::{Built, leaf};
use crate::slot::{Slot, take};
use nq_model::{Memory, Node, Term};
use std::alloc::Global;

/// A binder of the query, and how many binders that stay are around it.
#[derive(Drop)]
pub(crate) enum Binder {
    /// It stays.
    Stays(u64),
    /// A done term is put in for its variable.
    Given(u64, Slot),
}

/// The binders around a part of the query, the innermost last, and how often the variables of those
/// to come are used, where a term is put in for them: the next one last.
#[derive(Drop)]
pub(crate) struct Scope {
    pub binders: Vec<Binder>,
    pub uses: Vec<u64>,
}

impl Scope {
    /// Goes under a binder.
    pub(crate) fn enter(&mut self, binder: Binder) -> Result<(), Memory>
        ensures { IfOk result (λ _. (es : List Entry) → (e : Entry) → Stands self.old es
            → IsFor binder e → Stands self.new (e ∷ es)) }
    {
        self.binders.push(binder)?;
        Ok(())
    }

    /// Comes out from under the innermost binder.
    pub(crate) fn leave(&mut self)
        ensures { (es : List Entry) → (e : Entry) → Stands self.old (e ∷ es) → Stands self.new es }
    {
        drop(self.binders.pop());
    }

    /// How often the variable of the next binder is used for which a term is put in.
    pub(crate) fn next_uses(&mut self) -> u64
        ensures { Keeps self.old self.new (λ _. Unit {0}) }
    {
        self.uses.pop().unwrap_or(0)
    }

    /// What stands for the variable `k`, of that place, under `level` binders that stay.
    #[inline(never)]
    pub(crate) fn look_up(
        &mut self,
        alloc: Global,
        level: u64,
        place: u64,
        k: u64,
    ) -> Result<Built<Term>, Memory>
        ensures { IfOk result (λ b. Keeps self.old self.new
            (λ es. placed b.term ≡ looked_up level place es k)) }
    {
        let count = self.binders.len();
        let outwards = k as usize;
        if outwards >= count {
            return outer(level, place, outwards - count);
        }
        let at = count - 1 - outwards;
        put_binder(alloc, level, place, &mut self.binders[at])
    }
}

// A variable of that binder.
fn put_binder(
    alloc: Global,
    level: u64,
    place: u64,
    binder: &mut Binder,
) -> Result<Built<Term>, Memory>
    ensures { IfOk result (λ b. (e : Entry) → IsFor binder.old e
        → (placed b.term ≡ stands_for level place e) × IsFor binder.new e) }
{
    match binder {
        Binder::Stays(own) => {
            let inner = level.saturating_sub(*own).saturating_sub(1);
            Ok(leaf(Term {
                place,
                node: Node::Var(inner),
            }))
        }
        Binder::Given(own, slot) => {
            let under = level.saturating_sub(*own);
            take(alloc, under, slot)
        }
    }
}

// A variable of the whole term, under `level` binders that stay.
fn outer(level: u64, place: u64, k: usize) -> Result<Built<Term>, Memory>
    ensures { IfOk result (λ b. placed b.term ≡ at place (PlacedNode.var (k + level))) }
{
    match (k as u64).checked_add(level) {
        Some(k) => Ok(leaf(Term {
            place,
            node: Node::Var(k),
        })),
        None => Err(Memory),
    }
}
