// Values of base types as cells, and cells as values.
ghost use Rattle.std.specs.Prelude.{◌≡◌};
ghost use Rattle.nq_model.specs.Meaning.{cell_of};
ghost use Rattle.nq_model.specs.Values.{nested, base};

use nq_model::{Cell, Value};

/// The value of a base type that a value is, as a cell; another value counts as false.
pub fn cell_in(value: Value) -> Cell
    ensures { result ≡ cell_of (nested value) }
{
    match value {
        Value::Int(number) => Cell::Int(number),
        Value::Bool(truth) => Cell::Bool(truth),
        Value::Text(text) => Cell::Text(text),
        Value::Rec(_) => Cell::Bool(false),
        Value::Bag(_) => Cell::Bool(false),
    }
}

/// A cell as a value.
pub fn value_of(cell: Cell) -> Value
    ensures { nested result ≡ base cell }
{
    match cell {
        Cell::Int(number) => Value::Int(number),
        Cell::Bool(truth) => Value::Bool(truth),
        Cell::Text(text) => Value::Text(text),
    }
}
