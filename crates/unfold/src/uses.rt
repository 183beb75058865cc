// How often a variable is used.
use nq_model::{Label, Node, Term};

/// How many times the variable `k` stands in the term. Where it counts too few or too many, a value
/// is copied or missed, and nothing else.
#[cycle(uses)]
pub(crate) fn uses(term: &Term, k: u64) -> u64 {
    let under = k.saturating_add(1);
    match &term.node {
        Node::Var(j) => { if *j == k { 1 } else { 0 } }
        Node::Int(_) | Node::Bool(_) | Node::Text(_) | Node::Table(_) | Node::Nil(_) => 0,
        Node::Unary { op: _, of: only }
        | Node::Field { of: only, label: _ }
        | Node::Empty(only)
        | Node::Count(only)
        | Node::Sum(only)
        | Node::Single(only) => uses(only, k),
        Node::Fun { taken: _, body } => uses(body, under),
        Node::Binary { op: _, left, right }
        | Node::Apply {
            func: left,
            arg: right,
        }
        | Node::Union { left, right }
        | Node::Guard {
            test: left,
            body: right,
        } => both(uses(left, k), uses(right, k)),
        Node::For {
            source: outside,
            body,
        }
        | Node::Bind {
            value: outside,
            body,
        } => { both(uses(outside, k), uses(body, under)) }
        Node::If { test, yes, no } => both(uses(test, k), both(uses(yes, k), uses(no, k))),
        Node::Rec(fields) => fields_uses(fields.as_slice(), k),
    }
}

#[cycle(uses)]
fn fields_uses(fields: &[(Label, Term)], k: u64) -> u64 {
    let mut all = 0;
    for field in fields {
        all = both(all, uses(&field.1, k));
    }
    all
}

fn both(a: u64, b: u64) -> u64 {
    a.saturating_add(b)
}
