// Terms under more binders.
ghost use Rattle.std.specs.Prelude.{◌≡◌, ◌+◌, map, IfOk};
ghost use Rattle.nq_model.specs.Terms.{placed};
ghost use Rattle.nq_model.specs.Substitution.{fields_with_places, shift};

use nq_model::{Label, List, Memory, Node, Term, boxed};
use std::alloc::Global;

/// The term under `by` more binders, where the variables below `from` are its own. A variable past
/// 2^64 - 1 counts as want of memory: no term in memory has so many binders around it.
///
/// After de Bruijn, "Lambda calculus notation with nameless dummies", Indagationes Mathematicae
/// 1972.
#[cycle(shift)]
pub(crate) fn shift(alloc: Global, term: &Term, by: u64, from: u64) -> Result<Term, Memory>
    ensures { IfOk result (λ t. placed t ≡ shift by from (placed term.now)) }
{
    let place = term.place;
    match &term.node {
        Node::Var(k) => {
            if *k < from {
                Ok(Term {
                    place,
                    node: Node::Var(*k),
                })
            } else {
                match k.checked_add(by) {
                    Some(sum) => Ok(Term {
                        place,
                        node: Node::Var(sum),
                    }),
                    None => Err(Memory),
                }
            }
        },
        Node::Int(n) => Ok(Term {
            place,
            node: Node::Int(*n),
        }),
        Node::Bool(b) => Ok(Term {
            place,
            node: Node::Bool(*b),
        }),
        Node::Text(text) => Ok(Term {
            place,
            node: Node::Text(text.copy(alloc)?),
        }),
        Node::Table(label) => Ok(Term {
            place,
            node: Node::Table(label.copy(alloc)?),
        }),
        Node::Unary { op, of } => Ok(Term {
            place,
            node: Node::Unary {
                op: *op,
                of: shift_box(alloc, of, by, from)?,
            },
        }),
        Node::Binary { op, left, right } => Ok(Term {
            place,
            node: Node::Binary {
                op: *op,
                left: shift_box(alloc, left, by, from)?,
                right: shift_box(alloc, right, by, from)?,
            },
        }),
        Node::If { test, yes, no } => Ok(Term {
            place,
            node: Node::If {
                test: shift_box(alloc, test, by, from)?,
                yes: shift_box(alloc, yes, by, from)?,
                no: shift_box(alloc, no, by, from)?,
            },
        }),
        Node::Fun { taken, body } => Ok(Term {
            place,
            node: Node::Fun {
                taken: taken.copy(alloc)?,
                body: shift_box(alloc, body, by, deeper(from)?)?,
            },
        }),
        Node::Apply { func, arg } => Ok(Term {
            place,
            node: Node::Apply {
                func: shift_box(alloc, func, by, from)?,
                arg: shift_box(alloc, arg, by, from)?,
            },
        }),
        Node::Rec(fields) => Ok(Term {
            place,
            node: Node::Rec(shift_fields(alloc, fields.as_slice(), by, from)?),
        }),
        Node::Field { of, label } => Ok(Term {
            place,
            node: Node::Field {
                of: shift_box(alloc, of, by, from)?,
                label: label.copy(alloc)?,
            },
        }),
        Node::Empty(of) => Ok(Term {
            place,
            node: Node::Empty(shift_box(alloc, of, by, from)?),
        }),
        Node::Count(of) => Ok(Term {
            place,
            node: Node::Count(shift_box(alloc, of, by, from)?),
        }),
        Node::Sum(of) => Ok(Term {
            place,
            node: Node::Sum(shift_box(alloc, of, by, from)?),
        }),
        Node::Single(of) => Ok(Term {
            place,
            node: Node::Single(shift_box(alloc, of, by, from)?),
        }),
        Node::Nil(element) => Ok(Term {
            place,
            node: Node::Nil(element.copy(alloc)?),
        }),
        Node::Union { left, right } => Ok(Term {
            place,
            node: Node::Union {
                left: shift_box(alloc, left, by, from)?,
                right: shift_box(alloc, right, by, from)?,
            },
        }),
        Node::For { source, body } => Ok(Term {
            place,
            node: Node::For {
                source: shift_box(alloc, source, by, from)?,
                body: shift_box(alloc, body, by, deeper(from)?)?,
            },
        }),
        Node::Guard { test, body } => Ok(Term {
            place,
            node: Node::Guard {
                test: shift_box(alloc, test, by, from)?,
                body: shift_box(alloc, body, by, from)?,
            },
        }),
        Node::Bind { value, body } => Ok(Term {
            place,
            node: Node::Bind {
                value: shift_box(alloc, value, by, from)?,
                body: shift_box(alloc, body, by, deeper(from)?)?,
            },
        }),
    }
}

#[cycle(shift)]
fn shift_box(alloc: Global, term: &Term, by: u64, from: u64) -> Result<Box<Term>, Memory>
    ensures { IfOk result (λ t. placed t.value ≡ shift by from (placed term.now)) }
{
    let shifted = shift(alloc, term, by, from)?;
    boxed(alloc, shifted)
}

#[cycle(shift)]
fn shift_fields(
    alloc: Global,
    fields: &[(Label, Term)],
    by: u64,
    from: u64,
) -> Result<List<(Label, Term)>, Memory>
    ensures { IfOk result (λ new. fields_with_places new ≡ map
        (λ f. (f.0, shift by from f.1)) (fields_with_places fields.now)) }
{
    let mut all = List::new(alloc);
    for field in fields {
        all.push((field.0.copy(alloc)?, shift(alloc, &field.1, by, from)?))?;
    }
    Ok(all)
}

/// One more binder. A term with 2^64 of them has no place in memory.
pub(crate) fn deeper(level: u64) -> Result<u64, Memory>
    ensures { IfOk result (λ n. n ≡ level + 1) }
{
    match level.checked_add(1) {
        Some(next) => Ok(next),
        None => Err(Memory),
    }
}
