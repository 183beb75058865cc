// Copies of terms.
ghost use Rattle.std.specs.Prelude.{◌≡◌, IfOk};
ghost use Rattle.nq_model.specs.Terms.{placed};
ghost use Rattle.nq_model.specs.Substitution.{fields_with_places};

use crate::list::List;
use crate::memory::{Memory, boxed};
use crate::term::{Node, Term};
use crate::text::Label;
use std::alloc::Global;

impl Term {
    /// A copy of the term, places included.
    #[cycle(copy_term)]
    pub fn copy(&self, alloc: Global) -> Result<Term, Memory>
        ensures { IfOk result (λ t. placed t ≡ placed self.now) }
    {
        let place = self.place;
        match &self.node {
            Node::Var(k) => Ok(Term {
                place,
                node: Node::Var(*k),
            }),
            Node::Int(n) => Ok(Term {
                place,
                node: Node::Int(*n),
            }),
            Node::Bool(b) => Ok(Term {
                place,
                node: Node::Bool(*b),
            }),
            Node::Text(text) => Ok(Term {
                place,
                node: Node::Text(text.copy(alloc)?),
            }),
            Node::Table(label) => Ok(Term {
                place,
                node: Node::Table(label.copy(alloc)?),
            }),
            Node::Unary { op, of } => Ok(Term {
                place,
                node: Node::Unary {
                    op: *op,
                    of: copy_box(alloc, of)?,
                },
            }),
            Node::Binary { op, left, right } => Ok(Term {
                place,
                node: Node::Binary {
                    op: *op,
                    left: copy_box(alloc, left)?,
                    right: copy_box(alloc, right)?,
                },
            }),
            Node::If { test, yes, no } => Ok(Term {
                place,
                node: Node::If {
                    test: copy_box(alloc, test)?,
                    yes: copy_box(alloc, yes)?,
                    no: copy_box(alloc, no)?,
                },
            }),
            Node::Fun { taken, body } => Ok(Term {
                place,
                node: Node::Fun {
                    taken: taken.copy(alloc)?,
                    body: copy_box(alloc, body)?,
                },
            }),
            Node::Apply { func, arg } => Ok(Term {
                place,
                node: Node::Apply {
                    func: copy_box(alloc, func)?,
                    arg: copy_box(alloc, arg)?,
                },
            }),
            Node::Rec(fields) => Ok(Term {
                place,
                node: Node::Rec(copy_fields(alloc, fields.as_slice())?),
            }),
            Node::Field { of, label } => Ok(Term {
                place,
                node: Node::Field {
                    of: copy_box(alloc, of)?,
                    label: label.copy(alloc)?,
                },
            }),
            Node::Empty(of) => Ok(Term {
                place,
                node: Node::Empty(copy_box(alloc, of)?),
            }),
            Node::Count(of) => Ok(Term {
                place,
                node: Node::Count(copy_box(alloc, of)?),
            }),
            Node::Sum(of) => Ok(Term {
                place,
                node: Node::Sum(copy_box(alloc, of)?),
            }),
            Node::Single(of) => Ok(Term {
                place,
                node: Node::Single(copy_box(alloc, of)?),
            }),
            Node::Nil(element) => Ok(Term {
                place,
                node: Node::Nil(element.copy(alloc)?),
            }),
            Node::Union { left, right } => Ok(Term {
                place,
                node: Node::Union {
                    left: copy_box(alloc, left)?,
                    right: copy_box(alloc, right)?,
                },
            }),
            Node::For { source, body } => Ok(Term {
                place,
                node: Node::For {
                    source: copy_box(alloc, source)?,
                    body: copy_box(alloc, body)?,
                },
            }),
            Node::Guard { test, body } => Ok(Term {
                place,
                node: Node::Guard {
                    test: copy_box(alloc, test)?,
                    body: copy_box(alloc, body)?,
                },
            }),
            Node::Bind { value, body } => Ok(Term {
                place,
                node: Node::Bind {
                    value: copy_box(alloc, value)?,
                    body: copy_box(alloc, body)?,
                },
            }),
        }
    }
}

#[cycle(copy_term)]
fn copy_box(alloc: Global, term: &Term) -> Result<Box<Term>, Memory>
    ensures { IfOk result (λ t. placed t.value ≡ placed term.now) }
{
    let copied = term.copy(alloc)?;
    boxed(alloc, copied)
}

#[cycle(copy_term)]
fn copy_fields(alloc: Global, fields: &[(Label, Term)]) -> Result<List<(Label, Term)>, Memory>
    ensures { IfOk result (λ new. fields_with_places new ≡ fields_with_places fields.now) }
{
    let mut all = List::new(alloc);
    for field in fields {
        all.push((field.0.copy(alloc)?, field.1.copy(alloc)?))?;
    }
    Ok(all)
}
