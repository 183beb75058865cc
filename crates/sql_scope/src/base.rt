// What operators give on base types.
ghost use Rattle.std.specs.Prelude.{◌≡◌};
ghost use Rattle.nq_model.specs.Operators.{unary_type, binary_type};

use nq_model::{Binary, ColumnType, Unary};

// What an operator gives on an operand of this type.
pub(crate) fn unary_type(op: Unary, of: ColumnType) -> Option<ColumnType>
    ensures { result ≡ unary_type op of }
{
    match (op, of) {
        (Unary::Minus, ColumnType::Int) => Some(ColumnType::Int),
        (Unary::Not, ColumnType::Bool) => Some(ColumnType::Bool),
        _ => None,
    }
}

// What an operator gives on operands of these types.
pub(crate) fn binary_type(op: Binary, left: ColumnType, right: ColumnType) -> Option<ColumnType>
    ensures { result ≡ binary_type op left right }
{
    if left != right {
        return None;
    }
    match op {
        Binary::Add | Binary::Sub | Binary::Mul => match left {
            ColumnType::Int => Some(ColumnType::Int),
            ColumnType::Bool | ColumnType::Text => None,
        },
        Binary::And | Binary::Or => match left {
            ColumnType::Bool => Some(ColumnType::Bool),
            ColumnType::Int | ColumnType::Text => None,
        },
        Binary::Eq | Binary::Ne | Binary::Lt | Binary::Le | Binary::Gt | Binary::Ge => {
            Some(ColumnType::Bool)
        }
    }
}
