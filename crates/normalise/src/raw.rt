// Bodies of terms before their generators are numbered.
use nq_model::{Binary, Label, List, Text, Unary};
use std::rc::Rc;

/// A base term. `Column` names its generator by how many stand between it and its use, so that a
/// body which is used more than once has generators of its own at each use. A `Chain` is an
/// operation on many terms, grouped to the left, in a flat list.
#[cycle(raw)]
#[derive(Drop)]
pub(crate) enum RawBase {
    Int(i64),
    Bool(bool),
    Text(Text),
    Column {
        back: u64,
        column: Label,
    },
    Unary {
        op: Unary,
        of: MovedBase,
    },
    Binary {
        op: Binary,
        left: MovedBase,
        right: MovedBase,
    },
    Chain {
        op: Binary,
        first: MovedBase,
        more: List<MovedBase>,
    },
    Choose {
        test: MovedBase,
        yes: MovedBase,
        no: MovedBase,
    },
    Empty(List<RawTest>),
    Count(RawTest),
    Sum {
        over: RawTest,
        value: MovedBase,
    },
    Moved(MovedBase),
}

/// A base term under `more` generators, which stand outside the first `from` around it. It is
/// shared where it is used more than once, and numbered as if it were moved, so that it is neither
/// copied nor walked before.
#[cycle(raw)]
#[derive(Drop)]
pub(crate) struct MovedBase {
    pub base: Rc<RawBase>,
    pub more: u64,
    pub from: u64,
    pub depth: u64,
}

/// A comprehension without its body, as in an emptiness test, a count or a sum: the tables of its
/// generators, outermost first, and its conditions, of which the deepest is so deep.
#[cycle(raw)]
#[derive(Drop)]
pub(crate) struct RawTest {
    pub tables: List<Label>,
    pub conds: List<MovedBase>,
    pub deepest: u64,
}

/// The body of a term: a base term, the bodies of a record's fields in label order, or
/// comprehensions.
#[cycle(raw_body)]
#[derive(Drop)]
pub(crate) enum RawBody {
    Plain(MovedBase),
    Rec(List<(Label, MovedBody)>),
    Bag(List<RawComp>),
}

/// A body under `more` generators, which stand outside the first `from` around it, shared as a base
/// term is.
#[cycle(raw_body)]
#[derive(Drop)]
pub(crate) struct MovedBody {
    pub body: Rc<RawBody>,
    pub more: u64,
    pub from: u64,
    pub depth: u64,
}

/// A comprehension: the tables of its generators, outermost first, its conditions, of which the
/// deepest is so deep, and its body.
#[cycle(raw_body)]
#[derive(Drop)]
pub(crate) struct RawComp {
    pub tables: List<Label>,
    pub conds: List<MovedBase>,
    pub deepest: u64,
    pub body: MovedBody,
}
