// Contractible nodes, whose parts have no step, and what they become.
ghost use Rattle.std.specs.Prelude.{◌≡◌, IfOk, option_map};
ghost use Rattle.nq_model.specs.Substitution.{subst};
ghost use Rattle.nq_model.specs.Terms.{PlacedNode, at, placed, placed_fields};
ghost use Rattle.nq_model.specs.Unfolding.{contract_apply, contract_field, picked};
ghost use Rattle.reference_terms.specs.Stepping.{Then};

use crate::subst::subst;
use nq_model::{Label, Memory, Node, Term, boxed};
use std::alloc::Global;

/// A term after a step, or the same again where there is none.
#[derive(Drop)]
pub struct Stepped {
    pub moved: bool,
    pub term: Term,
}

// A function's body with the argument in it, or a choice between applications.
fn contract_apply(
    alloc: Global,
    place: u64,
    func: &Term,
    arg: &Term,
) -> Result<Option<Term>, Memory>
    ensures { IfOk result (λ made.
        option_map placed made ≡ contract_apply place (placed func.now) (placed arg.now)) }
{
    match &func.node {
        Node::Fun { taken: _, body } => Ok(Some(subst(alloc, body, arg, 0)?)),
        Node::If { test, yes, no } => {
            let test = boxed(alloc, test.copy(alloc)?)?;
            let yes = boxed(alloc, applied(alloc, place, yes, arg)?)?;
            let no = boxed(alloc, applied(alloc, place, no, arg)?)?;
            Ok(Some(Term {
                place,
                node: Node::If { test, yes, no },
            }))
        }
        _ => Ok(None),
    }
}

fn applied(alloc: Global, place: u64, func: &Term, arg: &Term) -> Result<Term, Memory>
    ensures { IfOk result (λ t.
        placed t ≡ at place (PlacedNode.apply (placed func.now) (placed arg.now))) }
{
    let func = boxed(alloc, func.copy(alloc)?)?;
    let arg = boxed(alloc, arg.copy(alloc)?)?;
    Ok(Term {
        place,
        node: Node::Apply { func, arg },
    })
}

// The first field of that label, or a choice between fields.
fn contract_field(
    alloc: Global,
    place: u64,
    of: &Term,
    label: &Label,
) -> Result<Option<Term>, Memory>
    ensures { IfOk result (λ made.
        option_map placed made ≡ contract_field place (placed of.now) label.now) }
{
    match &of.node {
        Node::Rec(fields) => picked(alloc, label.as_str(), fields.as_slice()),
        Node::If { test, yes, no } => {
            let test = boxed(alloc, test.copy(alloc)?)?;
            let yes = boxed(alloc, field_of(alloc, place, yes, label)?)?;
            let no = boxed(alloc, field_of(alloc, place, no, label)?)?;
            Ok(Some(Term {
                place,
                node: Node::If { test, yes, no },
            }))
        }
        _ => Ok(None),
    }
}

fn field_of(alloc: Global, place: u64, of: &Term, label: &Label) -> Result<Term, Memory>
    ensures { IfOk result (λ t. placed t ≡ at place (PlacedNode.field (placed of.now) label.now)) }
{
    let of = boxed(alloc, of.copy(alloc)?)?;
    let label = label.copy(alloc)?;
    Ok(Term {
        place,
        node: Node::Field { of, label },
    })
}

// A copy of the first field of that label.
fn picked(alloc: Global, label: &str, fields: &[(Label, Term)]) -> Result<Option<Term>, Memory>
    ensures { IfOk result (λ made.
        option_map placed made ≡ picked label.now (placed_fields fields.now)) }
{
    for field in fields {
        if label == field.0.as_str() {
            return Ok(Some(field.1.copy(alloc)?));
        }
    }
    Ok(None)
}

/// The step of an application, where its parts have moved or have no step.
pub fn step_apply(
    alloc: Global,
    place: u64,
    moved: bool,
    func: Box<Term>,
    arg: Box<Term>,
) -> Result<Stepped, Memory>
    ensures { IfOk result (λ s.
        Then moved (contract_apply place (placed func.value) (placed arg.value))
        (at place (PlacedNode.apply (placed func.value) (placed arg.value))) s.moved
        (placed s.term)) }
{
    if !moved {
        if let Some(term) = contract_apply(alloc, place, &func, &arg)? {
            return Ok(Stepped { moved: true, term });
        }
    }
    let node = Node::Apply { func, arg };
    Ok(Stepped {
        moved,
        term: Term { place, node },
    })
}

/// The step of a field, where its part has moved or has no step.
pub fn step_field(
    alloc: Global,
    place: u64,
    moved: bool,
    of: Box<Term>,
    label: Label,
) -> Result<Stepped, Memory>
    ensures { IfOk result (λ s.
        Then moved (contract_field place (placed of.value) label)
        (at place (PlacedNode.field (placed of.value) label)) s.moved (placed s.term)) }
{
    if !moved {
        if let Some(term) = contract_field(alloc, place, &of, &label)? {
            return Ok(Stepped { moved: true, term });
        }
    }
    let node = Node::Field { of, label };
    Ok(Stepped {
        moved,
        term: Term { place, node },
    })
}

/// The step of a `let`, where its parts have moved or have no step.
pub fn step_bind(
    alloc: Global,
    place: u64,
    moved: bool,
    value: Box<Term>,
    body: Box<Term>,
) -> Result<Stepped, Memory>
    ensures { IfOk result (λ s.
        Then moved (Some (subst 0 (placed value.value) (placed body.value)))
        (at place (PlacedNode.bind (placed value.value) (placed body.value))) s.moved
        (placed s.term)) }
{
    if moved {
        let node = Node::Bind { value, body };
        return Ok(Stepped {
            moved,
            term: Term { place, node },
        });
    }
    let term = subst(alloc, &body, &value, 0)?;
    Ok(Stepped { moved: true, term })
}
