// Forms that wait for an expression or a type, with the parts that were read.
use crate::part::{Fields, Part, TypeFields, TypePart};
use nq_model::{Label, Unary};
use query_syntax::{Aggregate, Operator, Variable};

/// What stands before the next field: the `(`, or the fields so far and a comma.
#[derive(Drop)]
pub enum FieldHead {
    First { opening: u64 },
    Next { fields: Fields, comma: u64 },
}

/// What stands before the next field of a record type.
#[derive(Drop)]
pub enum TypeHead {
    First { opening: u64 },
    Next { fields: TypeFields, comma: u64 },
}

/// A form that waits for an expression.
#[derive(Drop)]
pub enum Form {
    Paren {
        opening: u64,
    },
    Bag {
        opening: u64,
    },
    Aggregate {
        aggregate: Aggregate,
        place: u64,
        opening: u64,
    },
    Source {
        place: u64,
        opening: u64,
        variable: Variable,
        from: u64,
    },
    ForBody {
        place: u64,
        opening: u64,
        variable: Variable,
        from: u64,
        source: Part,
        closing: u64,
    },
    Test {
        place: u64,
        opening: u64,
    },
    Guarded {
        place: u64,
        opening: u64,
        test: Part,
        closing: u64,
    },
    If {
        place: u64,
    },
    Then {
        place: u64,
        test: Part,
        then_place: u64,
    },
    Else {
        place: u64,
        test: Part,
        then_place: u64,
        yes: Part,
        else_place: u64,
    },
    FunBody {
        place: u64,
        opening: u64,
        variable: Variable,
        colon: u64,
        taken: TypePart,
        closing: u64,
        arrow: u64,
    },
    LetValue {
        place: u64,
        variable: Variable,
        assign: u64,
    },
    LetBody {
        place: u64,
        variable: Variable,
        assign: u64,
        value: Part,
        semicolon: u64,
    },
    Prefix {
        place: u64,
        op: Unary,
    },
    Right {
        left: Part,
        place: u64,
        op: Operator,
    },
    Argument {
        func: Part,
        opening: u64,
    },
    Field {
        head: FieldHead,
        place: u64,
        label: Label,
        mark: u64,
    },
}

/// A form that waits for a type.
#[derive(Drop)]
pub enum TypeForm {
    Bag {
        opening: u64,
    },
    Paren {
        opening: u64,
    },
    Right {
        taken: TypePart,
        arrow: u64,
    },
    Field {
        head: TypeHead,
        place: u64,
        label: Label,
        mark: u64,
    },
}

/// Where a whole type stands: in an empty bag, or behind the variable of a function.
#[derive(Drop)]
pub enum Around {
    Nil {
        opening: u64,
        colon: u64,
    },
    Fun {
        place: u64,
        opening: u64,
        variable: Variable,
        colon: u64,
    },
}
