// Terms that are the same, places aside.
use nq_model::{Label, Node, Term};

/// Whether two terms are the same, places aside. Those with functions or `let` never are, since no plain term has them.
#[cycle(is_alike)]
pub fn is_alike(one: &Term, two: &Term) -> bool {
    match (&one.node, &two.node) {
        (Node::Var(one), Node::Var(two)) => one == two,
        (Node::Int(one), Node::Int(two)) => one == two,
        (Node::Bool(one), Node::Bool(two)) => one == two,
        (Node::Text(one), Node::Text(two)) => one.as_str() == two.as_str(),
        (Node::Table(one), Node::Table(two)) => one.as_str() == two.as_str(),
        (Node::Nil(one), Node::Nil(two)) => one.same(two),
        (Node::Empty(one), Node::Empty(two)) => is_alike(one, two),
        (Node::Count(one), Node::Count(two)) => is_alike(one, two),
        (Node::Sum(one), Node::Sum(two)) => is_alike(one, two),
        (Node::Single(one), Node::Single(two)) => is_alike(one, two),
        (Node::Rec(one), Node::Rec(two)) => are_alike(one.as_slice(), two.as_slice()),
        (
            Node::Unary { op, of },
            Node::Unary {
                op: op_two,
                of: of_two,
            },
        ) => { op == op_two && is_alike(of, of_two) }
        (
            Node::Binary { op, left, right },
            Node::Binary {
                op: op_two,
                left: left_two,
                right: right_two,
            },
        ) => op == op_two && is_alike(left, left_two) && is_alike(right, right_two),
        (
            Node::If { test, yes, no },
            Node::If {
                test: test_two,
                yes: yes_two,
                no: no_two,
            },
        ) => is_alike(test, test_two) && is_alike(yes, yes_two) && is_alike(no, no_two),
        (
            Node::Field { of, label },
            Node::Field {
                of: of_two,
                label: label_two,
            },
        ) => label.as_str() == label_two.as_str() && is_alike(of, of_two),
        (
            Node::Union { left, right },
            Node::Union {
                left: left_two,
                right: right_two,
            },
        ) => is_alike(left, left_two) && is_alike(right, right_two),
        (
            Node::For { source, body },
            Node::For {
                source: source_two,
                body: body_two,
            },
        ) => is_alike(source, source_two) && is_alike(body, body_two),
        (
            Node::Guard { test, body },
            Node::Guard {
                test: test_two,
                body: body_two,
            },
        ) => is_alike(test, test_two) && is_alike(body, body_two),
        _ => false,
    }
}

#[cycle(is_alike)]
fn are_alike(one: &[(Label, Term)], two: &[(Label, Term)]) -> bool {
    if one.len() != two.len() {
        return false;
    }
    for at in 0..one.len() {
        let (label, term) = &one[at];
        let (label_two, term_two) = &two[at];
        if label.as_str() != label_two.as_str() || !is_alike(term, term_two) {
            return false;
        }
    }
    true
}
