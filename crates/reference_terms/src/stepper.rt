// Unfolding by single steps.
ghost use Rattle.std.specs.Prelude.{◌≡◌, false, IfOk};
ghost use Rattle.nq_model.specs.Terms.{at, placed, placed_node, placed_fields};
ghost use Rattle.nq_model.specs.Unfolding.{Unfolds, step, step_fields};
ghost use Rattle.reference_terms.specs.Stepping.{Tells, Then};

use crate::contraction::{Stepped, step_apply, step_bind, step_field};
use nq_model::{Label, List, Memory, Node, Term, boxed};
use std::alloc::Global;

/// What a term unfolds to, reached by one step after the other. Fails only if memory runs out;
/// steps past 2^64 - 1 count as that too.
#[tactic(auto, using(crate::proofs::Stepping::one_more_step, crate::proofs::Stepping::no_more_steps))]
pub fn unfold_by_steps(alloc: Global, term: Term) -> Result<Term, Memory>
    ensures { IfOk result (λ t. Unfolds (placed term) (placed t)) }
{
    let mut now = term;
    for _ in 0..u64::MAX {
        let stepped = step(alloc, now)?;
        now = stepped.term;
        if !stepped.moved {
            return Ok(now);
        }
    }
    Err(Memory)
}

/// One step of unfolding: the first contractible node in post-order is contracted. Where there is
/// none, the term stays. Fails only if memory runs out; a variable past 2^64 - 1 counts as that
/// too.
#[cycle(step)]
pub fn step(alloc: Global, term: Term) -> Result<Stepped, Memory>
    ensures { IfOk result (λ s. Tells (step (placed term)) s.moved (placed term) (placed s.term)) }
{
    let Term { place, node } = term;
    match node {
        Node::Var(k) => Ok(still(place, Node::Var(k))),
        Node::Int(number) => Ok(still(place, Node::Int(number))),
        Node::Bool(truth) => Ok(still(place, Node::Bool(truth))),
        Node::Text(text) => Ok(still(place, Node::Text(text))),
        Node::Table(name) => Ok(still(place, Node::Table(name))),
        Node::Unary { op, of } => {
            let (moved, of) = step_box(alloc, false, of)?;
            Ok(stepped(moved, place, Node::Unary { op, of }))
        }
        Node::Binary { op, left, right } => {
            let (moved, left) = step_box(alloc, false, left)?;
            let (moved, right) = step_box(alloc, moved, right)?;
            Ok(stepped(moved, place, Node::Binary { op, left, right }))
        }
        Node::If { test, yes, no } => {
            let (moved, test) = step_box(alloc, false, test)?;
            let (moved, yes) = step_box(alloc, moved, yes)?;
            let (moved, no) = step_box(alloc, moved, no)?;
            Ok(stepped(moved, place, Node::If { test, yes, no }))
        }
        Node::Fun { taken, body } => {
            let (moved, body) = step_box(alloc, false, body)?;
            Ok(stepped(moved, place, Node::Fun { taken, body }))
        }
        Node::Apply { func, arg } => {
            let (moved, func) = step_box(alloc, false, func)?;
            let (moved, arg) = step_box(alloc, moved, arg)?;
            step_apply(alloc, place, moved, func, arg)
        }
        Node::Rec(fields) => {
            let (moved, fields) = step_fields(alloc, fields)?;
            Ok(stepped(moved, place, Node::Rec(fields)))
        }
        Node::Field { of, label } => {
            let (moved, of) = step_box(alloc, false, of)?;
            step_field(alloc, place, moved, of, label)
        }
        Node::Empty(of) => {
            let (moved, of) = step_box(alloc, false, of)?;
            Ok(stepped(moved, place, Node::Empty(of)))
        }
        Node::Count(of) => {
            let (moved, of) = step_box(alloc, false, of)?;
            Ok(stepped(moved, place, Node::Count(of)))
        }
        Node::Sum(of) => {
            let (moved, of) = step_box(alloc, false, of)?;
            Ok(stepped(moved, place, Node::Sum(of)))
        }
        Node::Single(of) => {
            let (moved, of) = step_box(alloc, false, of)?;
            Ok(stepped(moved, place, Node::Single(of)))
        }
        Node::Nil(element) => Ok(still(place, Node::Nil(element))),
        Node::Union { left, right } => {
            let (moved, left) = step_box(alloc, false, left)?;
            let (moved, right) = step_box(alloc, moved, right)?;
            Ok(stepped(moved, place, Node::Union { left, right }))
        }
        Node::For { source, body } => {
            let (moved, source) = step_box(alloc, false, source)?;
            let (moved, body) = step_box(alloc, moved, body)?;
            Ok(stepped(moved, place, Node::For { source, body }))
        }
        Node::Guard { test, body } => {
            let (moved, test) = step_box(alloc, false, test)?;
            let (moved, body) = step_box(alloc, moved, body)?;
            Ok(stepped(moved, place, Node::Guard { test, body }))
        }
        Node::Bind { value, body } => {
            let (moved, value) = step_box(alloc, false, value)?;
            let (moved, body) = step_box(alloc, moved, body)?;
            step_bind(alloc, place, moved, value, body)
        }
    }
}

// A step of a part, unless a part before it has moved.
#[cycle(step)]
fn step_box(alloc: Global, moved: bool, term: Box<Term>) -> Result<(bool, Box<Term>), Memory>
    ensures { IfOk result (λ s.
        Then moved (step (placed term.value)) (placed term.value) s.0 (placed s.1.value)) }
{
    if moved {
        return Ok((true, term));
    }
    let stepped = step(alloc, Box::into_inner(term))?;
    Ok((stepped.moved, boxed(alloc, stepped.term)?))
}

// A step of the first field that has one.
#[cycle(step)]
fn step_fields(
    alloc: Global,
    fields: List<(Label, Term)>,
) -> Result<(bool, List<(Label, Term)>), Memory>
    ensures { IfOk result (λ s.
        Tells (step_fields (placed_fields fields)) s.0 (placed_fields fields) (placed_fields s.1)) }
{
    let mut moved = false;
    let mut all = List::new(alloc);
    for (label, term) in fields.into_vec() {
        if moved {
            all.push((label, term))?;
        } else {
            let stepped = step(alloc, term)?;
            moved = stepped.moved;
            all.push((label, stepped.term))?;
        }
    }
    Ok((moved, all))
}

fn stepped(moved: bool, place: u64, node: Node) -> Stepped
    ensures moved { result.moved ≡ moved }
    ensures term { placed result.term ≡ at place (placed_node node) }
{
    let term = Term { place, node };
    Stepped { moved, term }
}

fn still(place: u64, node: Node) -> Stepped
    ensures moved { result.moved ≡ false }
    ensures term { placed result.term ≡ at place (placed_node node) }
{
    stepped(false, place, node)
}
