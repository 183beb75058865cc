// A term in the place of a variable.
ghost use Rattle.std.specs.Prelude.{◌≡◌, map, IfOk};
ghost use Rattle.nq_model.specs.Terms.{placed};
ghost use Rattle.nq_model.specs.Substitution.{fields_with_places, put, subst};

use crate::shift::{deeper, shift};
use nq_model::{Label, List, Memory, Node, Term, boxed};
use std::alloc::Global;

/// The term with `by` in place of the variable `from`, which is taken away. No variable is
/// captured.
///
/// After de Bruijn, "Lambda calculus notation with nameless dummies", Indagationes Mathematicae
/// 1972.
#[cycle(subst)]
pub(crate) fn subst(alloc: Global, term: &Term, by: &Term, from: u64) -> Result<Term, Memory>
    ensures { IfOk result (λ t. placed t ≡ subst from (placed by.now) (placed term.now)) }
{
    let place = term.place;
    match &term.node {
        Node::Var(k) => put(alloc, place, *k, by, from),
        Node::Int(n) => Ok(Term {
            place,
            node: Node::Int(*n),
        }),
        Node::Bool(b) => Ok(Term {
            place,
            node: Node::Bool(*b),
        }),
        Node::Text(text) => Ok(Term {
            place,
            node: Node::Text(text.copy(alloc)?),
        }),
        Node::Table(label) => Ok(Term {
            place,
            node: Node::Table(label.copy(alloc)?),
        }),
        Node::Unary { op, of } => Ok(Term {
            place,
            node: Node::Unary {
                op: *op,
                of: subst_box(alloc, of, by, from)?,
            },
        }),
        Node::Binary { op, left, right } => Ok(Term {
            place,
            node: Node::Binary {
                op: *op,
                left: subst_box(alloc, left, by, from)?,
                right: subst_box(alloc, right, by, from)?,
            },
        }),
        Node::If { test, yes, no } => Ok(Term {
            place,
            node: Node::If {
                test: subst_box(alloc, test, by, from)?,
                yes: subst_box(alloc, yes, by, from)?,
                no: subst_box(alloc, no, by, from)?,
            },
        }),
        Node::Fun { taken, body } => Ok(Term {
            place,
            node: Node::Fun {
                taken: taken.copy(alloc)?,
                body: subst_box(alloc, body, by, deeper(from)?)?,
            },
        }),
        Node::Apply { func, arg } => Ok(Term {
            place,
            node: Node::Apply {
                func: subst_box(alloc, func, by, from)?,
                arg: subst_box(alloc, arg, by, from)?,
            },
        }),
        Node::Rec(fields) => Ok(Term {
            place,
            node: Node::Rec(subst_fields(alloc, fields.as_slice(), by, from)?),
        }),
        Node::Field { of, label } => Ok(Term {
            place,
            node: Node::Field {
                of: subst_box(alloc, of, by, from)?,
                label: label.copy(alloc)?,
            },
        }),
        Node::Empty(of) => Ok(Term {
            place,
            node: Node::Empty(subst_box(alloc, of, by, from)?),
        }),
        Node::Count(of) => Ok(Term {
            place,
            node: Node::Count(subst_box(alloc, of, by, from)?),
        }),
        Node::Sum(of) => Ok(Term {
            place,
            node: Node::Sum(subst_box(alloc, of, by, from)?),
        }),
        Node::Single(of) => Ok(Term {
            place,
            node: Node::Single(subst_box(alloc, of, by, from)?),
        }),
        Node::Nil(element) => Ok(Term {
            place,
            node: Node::Nil(element.copy(alloc)?),
        }),
        Node::Union { left, right } => Ok(Term {
            place,
            node: Node::Union {
                left: subst_box(alloc, left, by, from)?,
                right: subst_box(alloc, right, by, from)?,
            },
        }),
        Node::For { source, body } => Ok(Term {
            place,
            node: Node::For {
                source: subst_box(alloc, source, by, from)?,
                body: subst_box(alloc, body, by, deeper(from)?)?,
            },
        }),
        Node::Guard { test, body } => Ok(Term {
            place,
            node: Node::Guard {
                test: subst_box(alloc, test, by, from)?,
                body: subst_box(alloc, body, by, from)?,
            },
        }),
        Node::Bind { value, body } => Ok(Term {
            place,
            node: Node::Bind {
                value: subst_box(alloc, value, by, from)?,
                body: subst_box(alloc, body, by, deeper(from)?)?,
            },
        }),
    }
}

#[cycle(subst)]
fn subst_box(alloc: Global, term: &Term, by: &Term, from: u64) -> Result<Box<Term>, Memory>
    ensures { IfOk result (λ t. placed t.value ≡ subst from (placed by.now) (placed term.now)) }
{
    let substituted = subst(alloc, term, by, from)?;
    boxed(alloc, substituted)
}

#[cycle(subst)]
fn subst_fields(
    alloc: Global,
    fields: &[(Label, Term)],
    by: &Term,
    from: u64,
) -> Result<List<(Label, Term)>, Memory>
    ensures { IfOk result (λ new. fields_with_places new ≡ map
        (λ f. (f.0, subst from (placed by.now) f.1)) (fields_with_places fields.now)) }
{
    let mut all = List::new(alloc);
    for field in fields {
        all.push((field.0.copy(alloc)?, subst(alloc, &field.1, by, from)?))?;
    }
    Ok(all)
}

// What stands for the variable `k` of that place.
fn put(alloc: Global, place: u64, k: u64, by: &Term, from: u64) -> Result<Term, Memory>
    ensures { IfOk result (λ t. placed t ≡ put from (placed by.now) place k) }
{
    if k < from {
        Ok(Term {
            place,
            node: Node::Var(k),
        })
    } else if k == from {
        shift(alloc, by, from, 0)
    } else {
        Ok(Term {
            place,
            node: Node::Var(k - 1),
        })
    }
}
