// The nodes that every walk treats alike.
ghost use Rattle.std.specs.Prelude.{◌≡◌, IfOk};
ghost use Rattle.nq_model.specs.Terms.{placed, placed_node};
ghost use Rattle.unfold.specs.Shapes.{one_node, two_node, inside};

use crate::built::one_more;
use nq_model::{Binary, Memory, Node, Term, Unary};

/// A node over one part, under no more binders than the node.
#[derive(Clone, Copy)]
pub(crate) enum One {
    Unary(Unary),
    Empty,
    Count,
    Sum,
    Single,
}

/// A node over two parts.
#[derive(Clone, Copy)]
pub(crate) enum Two {
    Binary(Binary),
    Union,
    For,
    Guard,
    Bind,
}

impl One {
    pub(crate) fn over(self, of: Box<Term>) -> Node
        ensures { placed_node result ≡ one_node self (placed of.value) }
    {
        match self {
            One::Unary(op) => Node::Unary { op, of },
            One::Empty => Node::Empty(of),
            One::Count => Node::Count(of),
            One::Sum => Node::Sum(of),
            One::Single => Node::Single(of),
        }
    }
}

impl Two {
    pub(crate) fn over(self, left: Box<Term>, right: Box<Term>) -> Node
        ensures { placed_node result ≡ two_node self (placed left.value) (placed right.value) }
    {
        match self {
            Two::Binary(op) => Node::Binary { op, left, right },
            Two::Union => Node::Union { left, right },
            Two::For => Node::For {
                source: left,
                body: right,
            },
            Two::Guard => Node::Guard {
                test: left,
                body: right,
            },
            Two::Bind => Node::Bind {
                value: left,
                body: right,
            },
        }
    }

    /// The first variable that is not the second part's own, where `from` is the first that is not
    /// the node's.
    pub(crate) fn inside(self, from: u64) -> Result<u64, Memory>
        ensures { IfOk result (λ inner. inner ≡ inside self from) }
    {
        match self {
            Two::For | Two::Bind => one_more(from),
            Two::Binary(_) | Two::Union | Two::Guard => Ok(from),
        }
    }
}
