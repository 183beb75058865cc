// What operators give on cells.
ghost use Rattle.std.specs.Prelude.{◌≡◌};
ghost use Rattle.std.specs.Ordering.{is_lt};
ghost use Rattle.nq_model.specs.Cells.{cell_cmp, cell_eq};
ghost use Rattle.nq_model.specs.Operators.{binary_value, int_of, is_true, unary_value};

use crate::table::Cell;
use crate::term::{Binary, Unary};

/// Whether a cell is true; one that is no truth value counts as false.
pub fn is_true(cell: &Cell) -> bool
    ensures { result ≡ is_true cell.now }
{
    match cell {
        Cell::Bool(truth) => *truth,
        _ => false,
    }
}

// The number of a cell; one that is no number counts as 0.
fn int_of(cell: &Cell) -> i64
    ensures { result ≡ int_of cell.now }
{
    match cell {
        Cell::Int(number) => *number,
        _ => 0,
    }
}

// Whether two cells are one.
fn is_equal(left: &Cell, right: &Cell) -> bool
    ensures { result ≡ cell_eq left.now right.now }
{
    left.as_ref() == right.as_ref()
}

// Whether the left cell stands before the right.
fn is_below(left: &Cell, right: &Cell) -> bool
    ensures { result ≡ is_lt (cell_cmp left.now right.now) }
{
    left.as_ref() < right.as_ref()
}

/// What an operator gives for one operand.
pub fn unary_value(op: Unary, of: &Cell) -> Cell
    ensures { result ≡ unary_value op of.now }
{
    match op {
        Unary::Minus => Cell::Int(int_of(of).wrapping_neg()),
        Unary::Not => Cell::Bool(!is_true(of)),
    }
}

/// What an operator gives for two operands.
pub fn binary_value(op: Binary, left: &Cell, right: &Cell) -> Cell
    ensures { result ≡ binary_value op left.now right.now }
{
    match op {
        Binary::Add => Cell::Int(int_of(left).wrapping_add(int_of(right))),
        Binary::Sub => Cell::Int(int_of(left).wrapping_sub(int_of(right))),
        Binary::Mul => Cell::Int(int_of(left).wrapping_mul(int_of(right))),
        Binary::Eq => Cell::Bool(is_equal(left, right)),
        Binary::Ne => Cell::Bool(!is_equal(left, right)),
        Binary::Lt => Cell::Bool(is_below(left, right)),
        Binary::Le => Cell::Bool(!is_below(right, left)),
        Binary::Gt => Cell::Bool(is_below(right, left)),
        Binary::Ge => Cell::Bool(!is_below(left, right)),
        Binary::And => Cell::Bool(is_true(left) && is_true(right)),
        Binary::Or => Cell::Bool(is_true(left) || is_true(right)),
    }
}
