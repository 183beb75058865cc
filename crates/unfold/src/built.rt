// Terms and how deep they are. The stack is memory, so a term deeper than a limit is refused as
// soon as it is built.
ghost use Rattle.std.specs.Prelude.{◌≡◌, ◌+◌, IfOk, max};
ghost use Rattle.nq_model.specs.Terms.{placed, term_tree, term_fields_of, fields_view};
ghost use Rattle.unfold.specs.Depths.{term_depth, fields_depth};

use nq_model::{Label, Memory, Node, Term};
use std::alloc::Global;

/// The deepest term that is built on the way.
pub(crate) const DEEPEST_BUILT: u64 = 3_000;

/// A term, or a part of one, that is at most so many nodes deep.
#[derive(Drop)]
pub(crate) struct Built<T> {
    pub term: T,
    pub deep: u64,
}

impl Built<Term> {
    /// A copy of the term.
    #[inline(never)]
    pub(crate) fn copy(&self, alloc: Global) -> Result<Built<Term>, Memory>
        ensures { IfOk result (λ copy. placed copy.term ≡ placed self.now.term) }
    {
        Ok(Built {
            term: self.term.copy(alloc)?,
            deep: self.deep,
        })
    }
}

/// A term out of its box.
pub(crate) fn opened(term: Box<Term>, deep: u64) -> Built<Term>
    ensures { placed result.term ≡ placed term.value }
{
    Built {
        term: Box::into_inner(term),
        deep,
    }
}

/// A term of one node.
pub(crate) fn leaf(term: Term) -> Built<Term>
    ensures { placed result.term ≡ placed term }
{
    Built { term, deep: 1 }
}

/// A term over parts that are at most `below` deep.
pub(crate) fn grown(below: u64, term: Term) -> Result<Built<Term>, Memory>
    ensures { IfOk result (λ b. placed b.term ≡ placed term) }
{
    let deep = deep_over(below, &term)?;
    Ok(Built { term, deep })
}

// How deep such a term is at most, where that is not too deep.
fn deep_over(below: u64, term: &Term) -> Result<u64, Memory> {
    let deep = below.saturating_add(1);
    if deep <= DEEPEST_BUILT {
        return Ok(deep);
    }
    let deep = depth(term)?;
    if deep <= DEEPEST_BUILT {
        Ok(deep)
    } else {
        Err(Memory)
    }
}

/// The number of nodes on the longest way from a term to a leaf.
#[cycle(depth)]
pub(crate) fn depth(term: &Term) -> Result<u64, Memory>
    ensures { IfOk result (λ n. n ≡ term_depth (term_tree term.now)) }
{
    match &term.node {
        Node::Var(_)
        | Node::Int(_)
        | Node::Bool(_)
        | Node::Text(_)
        | Node::Table(_)
        | Node::Nil(_) => Ok(1),
        Node::Unary { op: _, of: only }
        | Node::Fun {
            taken: _,
            body: only,
        }
        | Node::Field { of: only, label: _ }
        | Node::Empty(only)
        | Node::Count(only)
        | Node::Sum(only)
        | Node::Single(only) => one_more(depth(only)?),
        Node::Binary { op: _, left, right }
        | Node::Apply {
            func: left,
            arg: right,
        }
        | Node::Union { left, right }
        | Node::For {
            source: left,
            body: right,
        }
        | Node::Guard {
            test: left,
            body: right,
        }
        | Node::Bind {
            value: left,
            body: right,
        } => one_more(depth(left)?.max(depth(right)?)),
        Node::If { test, yes, no } => one_more(depth(test)?.max(depth(yes)?).max(depth(no)?)),
        Node::Rec(fields) => one_more(fields_depth(fields.as_slice())?),
    }
}

#[cycle(depth)]
fn fields_depth(fields: &[(Label, Term)]) -> Result<u64, Memory>
    ensures { IfOk result (λ n. n ≡ fields_depth (term_fields_of (fields_view fields.now))) }
{
    let mut deepest: u64 = 0;
    for field in fields {
        deepest = deepest.max(depth(&field.1)?);
    }
    Ok(deepest)
}

/// One more node, or one more binder. A term with 2^64 of them has no place in memory.
pub(crate) fn one_more(n: u64) -> Result<u64, Memory>
    ensures { IfOk result (λ m. m ≡ n + 1) }
{
    match n.checked_add(1) {
        Some(more) => Ok(more),
        None => Err(Memory),
    }
}
