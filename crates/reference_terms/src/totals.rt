// How many elements a bag has, and their sum, at 64 bits.
ghost use Rattle.std.specs.Prelude.{◌≡◌, ◌+ℤ◌, map};
ghost use Rattle.std.specs.Int.{int_wrap, w64};
ghost use Rattle.nq_model.specs.Meaning.{cell_of};
ghost use Rattle.nq_model.specs.Operators.{int_of};
ghost use Rattle.nq_model.specs.Totals.{count_of, sum_of};
ghost use Rattle.nq_model.specs.Values.{nested};

use nq_model::{List, Value};

/// How many values there are, wrapped.
#[tactic(auto, using(crate::proofs::Adding::none_counted))]
pub fn count(elements: List<Value>) -> i64
    ensures { result ≡ count_of (map nested elements) }
{
    let mut count: i64 = 0;
    for _value in elements.into_vec() {
        count = plus(count, 1);
    }
    count
}

/// The sum of the values, wrapped; one that is no number counts as 0.
#[tactic(auto, using(crate::proofs::Adding::none_summed))]
pub fn sum(elements: List<Value>) -> i64
    ensures { result ≡ sum_of (map cell_of (map nested elements)) }
{
    let mut sum: i64 = 0;
    for value in elements.into_vec() {
        sum = sum_with(sum, value);
    }
    sum
}

fn plus(left: i64, right: i64) -> i64
    ensures { result ≡ int_wrap w64 (left +ℤ right) }
{
    left.wrapping_add(right)
}

fn sum_with(sum: i64, value: Value) -> i64
    ensures { result ≡ int_wrap w64 (sum +ℤ int_of (cell_of (nested value))) }
{
    sum.wrapping_add(number_in(value))
}

fn number_in(value: Value) -> i64
    ensures { result ≡ int_of (cell_of (nested value)) }
{
    match value {
        Value::Int(number) => number,
        Value::Bool(_) => 0,
        Value::Text(_) => 0,
        Value::Rec(_) => 0,
        Value::Bag(_) => 0,
    }
}
