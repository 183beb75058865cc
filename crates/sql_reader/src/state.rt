// Where the reader stands in a text.
use crate::lists::{Base, Name, Ranged, Scalar, Selects, Value};
use crate::part::Part;
use crate::stack::Stack;
use nq_model::List;
use sql_profile::Source;

/// What was read of the head of a scalar query, the last token: SELECT, COUNT, its `(`, `*`,
/// COALESCE, its `(`, or SUM.
#[derive(Clone, Copy)]
pub enum Head {
    Select,
    Count,
    CountOpen,
    CountStar,
    Coalesce,
    CoalesceOpen,
    Sum,
}

/// What was read behind a summed expression, the last token: `)`, `,` or `0`.
#[derive(Clone, Copy)]
pub enum Tail {
    Close,
    Comma,
    Zero,
}

/// What was read last, inside the unfinished forms.
#[derive(Drop)]
pub enum Position {
    /// Nothing was read.
    AtStart,
    /// A WITH query: a comma, or the main query.
    BehindWith,
    /// The name of a WITH query has to come.
    AtDef,
    AtDefName {
        name: Name,
    },
    AtDefAs {
        name: Name,
    },
    /// A SELECT has to begin, behind these of its query.
    WantSelect {
        before: Selects,
    },
    AtUnion {
        before: Selects,
    },
    /// An expression has to begin.
    Want,
    AtName {
        name: Name,
    },
    AtDot {
        name: Name,
    },
    AtCase {
        place: u64,
    },
    /// NOT and EXISTS.
    AtExists {
        place: u64,
    },
    /// A whole expression.
    Have {
        part: Part,
    },
    AtRow,
    AtRowOpen,
    AtRowClose,
    AtOver,
    /// The order of a numbering, or its end.
    InOver,
    AtOrder,
    /// What an item is.
    AtValue {
        value: Value,
    },
    AtAs {
        value: Value,
    },
    /// Whole items or the head of a scalar query, and then whole sources, of which there may be
    /// none.
    HaveItems {
        ranged: Ranged,
        from: List<Source>,
    },
    /// FROM or a comma: a source has to come.
    AtSource {
        ranged: Ranged,
        from: List<Source>,
    },
    AtSourceName {
        ranged: Ranged,
        from: List<Source>,
        table: Name,
    },
    AtSourceAs {
        ranged: Ranged,
        from: List<Source>,
        table: Name,
    },
    /// The head of a scalar query, which has the place of its `(`.
    AtHead {
        place: u64,
        head: Head,
    },
    /// A scalar query behind the expression that it sums.
    AtTail {
        scalar: Scalar,
        tail: Tail,
    },
    AtSemi {
        query: Selects,
    },
    /// The text has ended.
    Ready {
        query: Selects,
    },
}

/// What was read of a text: WITH queries, unfinished forms, and what was read last inside them.
#[derive(Drop)]
pub struct State {
    pub base: Base,
    pub stack: Stack,
    pub at: Position,
}
