// Places of expressions.
ghost use Rattle.std.specs.Prelude.{◌≡◌};
ghost use Rattle.sql_profile.specs.Scope.{expr_place};
ghost use Rattle.sql_profile.specs.Trees.{placed_expr};

use sql_profile::{Expr, ExprNode};

// The place at which a fault of the whole expression is reported: that of a chain is its last
// operator's.
pub(crate) fn place_of(expr: &Expr) -> u64
    ensures { result ≡ expr_place (placed_expr expr.now) }
{
    match &expr.node {
        ExprNode::Chain { first, more, .. } => match more.as_slice().last() {
            Some(link) => link.place,
            None => place_of(first),
        },
        ExprNode::Int(_)
        | ExprNode::Bool(_)
        | ExprNode::Text(_)
        | ExprNode::Column { .. }
        | ExprNode::Unary { .. }
        | ExprNode::Binary { .. }
        | ExprNode::Choose { .. }
        | ExprNode::NotExists(_)
        | ExprNode::Count(_)
        | ExprNode::Sum { .. } => expr.place,
    }
}
