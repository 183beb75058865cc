// Forms that wait for an expression or a query, with the parts that were read.
use crate::lists::{Begun, Keys, Ranged};
use crate::part::Part;
use nq_model::{Binary, List};
use sql_profile::Source;

/// An unfinished form. `Item`, `OrderKey` and `Where` stand round an expression of a SELECT,
/// `Where` or `Sum` round one of a scalar query, `NotExists` round a query, the others round an
/// expression of an expression.
#[derive(Drop)]
pub enum Form {
    Paren { place: u64 },
    Minus { place: u64 },
    Not { place: u64 },
    When { place: u64 },
    Then { place: u64, test: Part },
    Else { place: u64, test: Part, yes: Part },
    Right { left: Part, place: u64, op: Binary },
    Item { begun: Begun },
    OrderKey { keys: Keys, begun: Begun },
    Where { ranged: Ranged, from: List<Source> },
    NotExists { place: u64 },
    Sum { place: u64 },
}
