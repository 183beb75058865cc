// Syntax trees, which keep the place of every token.
use crate::symbol::{Operator, Whole};
use nq_model::{ColumnType, Label, List, Text, Unary};

/// The name of a field of a record or record type, with the places of the token before it, of
/// itself, and of the `=` or `:` behind it.
#[derive(Drop)]
pub struct FieldName {
    pub before: u64,
    pub place: u64,
    pub label: Label,
    pub mark: u64,
}

/// A variable that a form binds, with the place of its word.
#[derive(Drop)]
pub struct Variable {
    pub place: u64,
    pub name: Label,
}

/// What is asked of a bag: whether it has no element, how many it has, or their sum.
#[derive(Clone, Copy, Debug, PartialEq, Eq)]
pub enum Aggregate {
    Emptiness,
    Count,
    Sum,
}

/// A type as it is written.
#[derive(Drop)]
pub enum TypeSyntax {
    Base {
        place: u64,
        base: ColumnType,
    },
    Bag {
        opening: u64,
        element: Box<TypeSyntax>,
        closing: u64,
    },
    Paren {
        opening: u64,
        inner: Box<TypeSyntax>,
        closing: u64,
    },
    NoFields {
        opening: u64,
        closing: u64,
    },
    Rec {
        first_name: FieldName,
        first: Box<TypeSyntax>,
        others: List<(FieldName, TypeSyntax)>,
        closing: u64,
    },
    Fun {
        taken: Box<TypeSyntax>,
        arrow: u64,
        given: Box<TypeSyntax>,
    },
}

/// An expression or a program as it is written.
#[derive(Drop)]
pub enum Syntax {
    Number {
        place: u64,
        number: Whole,
    },
    Literal {
        place: u64,
        spelled: Text,
    },
    Truth {
        place: u64,
        truth: bool,
    },
    Var {
        place: u64,
        name: Label,
    },
    Table {
        place: u64,
        word: u64,
        name: Label,
    },
    Aggregated {
        aggregate: Aggregate,
        place: u64,
        opening: u64,
        of: Box<Syntax>,
        closing: u64,
    },
    Paren {
        opening: u64,
        inner: Box<Syntax>,
        closing: u64,
    },
    NoFields {
        opening: u64,
        closing: u64,
    },
    Rec {
        first_name: FieldName,
        first: Box<Syntax>,
        others: List<(FieldName, Syntax)>,
        closing: u64,
    },
    Bag {
        opening: u64,
        element: Box<Syntax>,
        closing: u64,
    },
    Nil {
        opening: u64,
        colon: u64,
        element: TypeSyntax,
        closing: u64,
    },
    For {
        place: u64,
        opening: u64,
        variable: Variable,
        from: u64,
        source: Box<Syntax>,
        closing: u64,
        body: Box<Syntax>,
    },
    Where {
        place: u64,
        opening: u64,
        test: Box<Syntax>,
        closing: u64,
        body: Box<Syntax>,
    },
    If {
        place: u64,
        test: Box<Syntax>,
        then_place: u64,
        yes: Box<Syntax>,
        else_place: u64,
        no: Box<Syntax>,
    },
    Fun {
        place: u64,
        opening: u64,
        variable: Variable,
        colon: u64,
        taken: TypeSyntax,
        closing: u64,
        arrow: u64,
        body: Box<Syntax>,
    },
    Let {
        place: u64,
        variable: Variable,
        assign: u64,
        value: Box<Syntax>,
        semicolon: u64,
        body: Box<Syntax>,
    },
    Prefix {
        place: u64,
        op: Unary,
        of: Box<Syntax>,
    },
    Infix {
        left: Box<Syntax>,
        place: u64,
        op: Operator,
        right: Box<Syntax>,
    },
    Apply {
        func: Box<Syntax>,
        opening: u64,
        arg: Box<Syntax>,
        closing: u64,
    },
    Field {
        of: Box<Syntax>,
        dot: u64,
        place: u64,
        label: Label,
    },
}
