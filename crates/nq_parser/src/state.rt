// Where the reader stands in a query.
use crate::form::Around;
use crate::part::{Fields, Part, TypeFields, TypePart};
use crate::stack::Stack;
use crate::type_stack::TypeStack;
use query_syntax::{Aggregate, Variable};

/// The type that is being read: its unfinished forms, and where it stands.
#[derive(Drop)]
pub struct TypeState {
    pub forms: TypeStack,
    pub around: Around,
}

/// What was read last, inside the unfinished forms.
#[derive(Drop)]
pub enum Position {
    /// An expression has to begin.
    Want,
    /// `(` and a word, which may be a label.
    AtWord {
        opening: u64,
        word: Variable,
    },
    AtTable {
        place: u64,
    },
    AtAggregate {
        aggregate: Aggregate,
        place: u64,
    },
    AtFor {
        place: u64,
    },
    AtForOpen {
        place: u64,
        opening: u64,
    },
    AtForName {
        place: u64,
        opening: u64,
        variable: Variable,
    },
    AtWhere {
        place: u64,
    },
    AtFun {
        place: u64,
    },
    AtFunOpen {
        place: u64,
        opening: u64,
    },
    AtFunName {
        place: u64,
        opening: u64,
        variable: Variable,
    },
    /// The `)` behind the type of a function's variable.
    AtFunClose {
        place: u64,
        opening: u64,
        variable: Variable,
        colon: u64,
        taken: TypePart,
        closing: u64,
    },
    AtLet {
        place: u64,
    },
    AtLetName {
        place: u64,
        variable: Variable,
    },
    /// A comma behind fields.
    AtComma {
        fields: Fields,
        comma: u64,
    },
    AtLabel {
        fields: Fields,
        comma: u64,
        label: Variable,
    },
    AtDot {
        of: Part,
        dot: u64,
    },
    /// A type has to begin.
    WantType {
        ty: TypeState,
    },
    /// `(` and a word, which may be a label of a record type.
    AtTypeWord {
        opening: u64,
        word: Variable,
        ty: TypeState,
    },
    AtTypeComma {
        fields: TypeFields,
        comma: u64,
        ty: TypeState,
    },
    AtTypeLabel {
        fields: TypeFields,
        comma: u64,
        label: Variable,
        ty: TypeState,
    },
    /// A whole type.
    HaveType {
        part: TypePart,
        ty: TypeState,
    },
    /// A whole expression.
    Have {
        part: Part,
    },
    /// A whole program, and the end of the text.
    Ready {
        part: Part,
        end: u64,
    },
}

/// A position inside unfinished forms.
#[derive(Drop)]
pub struct State {
    pub stack: Stack,
    pub at: Position,
}
