// A term put under more binders: its variables are renumbered, and all else is moved.
ghost use Rattle.std.specs.Prelude.{◌≡◌, map, IfOk};
ghost use Rattle.nq_model.specs.Terms.{placed};
ghost use Rattle.nq_model.specs.Substitution.{fields_with_places, shift, shift_index};

use crate::built::one_more;
use nq_model::{Label, List, Memory, Node, Term, boxed};
use std::alloc::Global;

/// The term under `by` more binders, where the variables below `from` are its own.
#[cycle(raise)]
pub(crate) fn raise(alloc: Global, by: u64, from: u64, term: Term) -> Result<Term, Memory>
    ensures { IfOk result (λ t. placed t ≡ shift by from (placed term)) }
{
    let Term { place, node } = term;
    match node {
        Node::Var(k) => Ok(Term {
            place,
            node: Node::Var(raised(k, by, from)?),
        }),
        Node::Int(_) | Node::Bool(_) | Node::Text(_) | Node::Table(_) | Node::Nil(_) => {
            Ok(Term { place, node })
        }
        Node::Unary { op, of } => {
            let of = raise_box(alloc, by, from, of)?;
            Ok(Term {
                place,
                node: Node::Unary { op, of },
            })
        }
        Node::Binary { op, left, right } => {
            let left = raise_box(alloc, by, from, left)?;
            let right = raise_box(alloc, by, from, right)?;
            Ok(Term {
                place,
                node: Node::Binary { op, left, right },
            })
        }
        Node::If { test, yes, no } => {
            let test = raise_box(alloc, by, from, test)?;
            let yes = raise_box(alloc, by, from, yes)?;
            let no = raise_box(alloc, by, from, no)?;
            Ok(Term {
                place,
                node: Node::If { test, yes, no },
            })
        }
        Node::Fun { taken, body } => {
            let body = raise_box(alloc, by, one_more(from)?, body)?;
            Ok(Term {
                place,
                node: Node::Fun { taken, body },
            })
        }
        Node::Apply { func, arg } => {
            let func = raise_box(alloc, by, from, func)?;
            let arg = raise_box(alloc, by, from, arg)?;
            Ok(Term {
                place,
                node: Node::Apply { func, arg },
            })
        }
        Node::Rec(fields) => Ok(Term {
            place,
            node: Node::Rec(raise_fields(alloc, by, from, fields)?),
        }),
        Node::Field { of, label } => {
            let of = raise_box(alloc, by, from, of)?;
            Ok(Term {
                place,
                node: Node::Field { of, label },
            })
        }
        Node::Empty(of) => Ok(Term {
            place,
            node: Node::Empty(raise_box(alloc, by, from, of)?),
        }),
        Node::Count(of) => Ok(Term {
            place,
            node: Node::Count(raise_box(alloc, by, from, of)?),
        }),
        Node::Sum(of) => Ok(Term {
            place,
            node: Node::Sum(raise_box(alloc, by, from, of)?),
        }),
        Node::Single(of) => Ok(Term {
            place,
            node: Node::Single(raise_box(alloc, by, from, of)?),
        }),
        Node::Union { left, right } => {
            let left = raise_box(alloc, by, from, left)?;
            let right = raise_box(alloc, by, from, right)?;
            Ok(Term {
                place,
                node: Node::Union { left, right },
            })
        }
        Node::For { source, body } => {
            let source = raise_box(alloc, by, from, source)?;
            let body = raise_box(alloc, by, one_more(from)?, body)?;
            Ok(Term {
                place,
                node: Node::For { source, body },
            })
        }
        Node::Guard { test, body } => {
            let test = raise_box(alloc, by, from, test)?;
            let body = raise_box(alloc, by, from, body)?;
            Ok(Term {
                place,
                node: Node::Guard { test, body },
            })
        }
        Node::Bind { value, body } => {
            let value = raise_box(alloc, by, from, value)?;
            let body = raise_box(alloc, by, one_more(from)?, body)?;
            Ok(Term {
                place,
                node: Node::Bind { value, body },
            })
        }
    }
}

#[cycle(raise)]
fn raise_box(alloc: Global, by: u64, from: u64, term: Box<Term>) -> Result<Box<Term>, Memory>
    ensures { IfOk result (λ t. placed t.value ≡ shift by from (placed term.value)) }
{
    let raised = raise(alloc, by, from, Box::into_inner(term))?;
    boxed(alloc, raised)
}

#[cycle(raise)]
fn raise_fields(
    alloc: Global,
    by: u64,
    from: u64,
    fields: List<(Label, Term)>,
) -> Result<List<(Label, Term)>, Memory>
    ensures { IfOk result (λ new. fields_with_places new ≡ map
        (λ f. (f.0, shift by from f.1)) (fields_with_places fields)) }
{
    let mut all = List::new(alloc);
    let mut rest = fields;
    while let Some(last) = rest.pop() {
        let (label, term) = last;
        all.push((label, raise(alloc, by, from, term)?))?;
    }
    let mut turned = all.into_vec();
    turned.reverse();
    Ok(List::from_vec(turned))
}

// A variable under `by` more binders.
fn raised(k: u64, by: u64, from: u64) -> Result<u64, Memory>
    ensures { IfOk result (λ j. j ≡ shift_index by from k) }
{
    if k < from {
        return Ok(k);
    }
    match k.checked_add(by) {
        Some(sum) => Ok(sum),
        None => Err(Memory),
    }
}
