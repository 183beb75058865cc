// Terms of the query language.
use crate::list::List;
use crate::text::{Label, Text};
use crate::ty::Ty;

/// An operator before one operand.
#[derive(Clone, Copy, Debug, PartialEq, Eq)]
pub enum Unary {
    Minus,
    Not,
}

/// An operator between two operands.
#[derive(Clone, Copy, Debug, PartialEq, Eq)]
pub enum Binary {
    Add,
    Sub,
    Mul,
    Eq,
    Ne,
    Lt,
    Le,
    Gt,
    Ge,
    And,
    Or,
}

/// A term, and the number of bytes before its first, or telling, token in the whole text.
///
/// After Cheney, Lindley and Wadler, "Query Shredding", SIGMOD 2014.
#[cycle(term)]
#[derive(Drop)]
pub struct Term {
    pub place: u64,
    pub node: Node,
}

/// What a term is. `Var(k)` names the k-th binder outwards, from 0 (de Bruijn, 1972): `Fun`, the
/// body of `For` and the body of `Bind` bind one variable each. An `Int` is from 0 to 2^63 - 1. The
/// fields of a `Rec` keep the order of the text.
#[cycle(term)]
#[derive(Drop)]
pub enum Node {
    Var(u64),
    Int(i64),
    Bool(bool),
    Text(Text),
    Table(Label),
    Unary {
        op: Unary,
        of: Box<Term>,
    },
    Binary {
        op: Binary,
        left: Box<Term>,
        right: Box<Term>,
    },
    If {
        test: Box<Term>,
        yes: Box<Term>,
        no: Box<Term>,
    },
    Fun {
        taken: Ty,
        body: Box<Term>,
    },
    Apply {
        func: Box<Term>,
        arg: Box<Term>,
    },
    Rec(List<(Label, Term)>),
    Field {
        of: Box<Term>,
        label: Label,
    },
    Empty(Box<Term>),
    Count(Box<Term>),
    Sum(Box<Term>),
    Single(Box<Term>),
    Nil(Ty),
    Union {
        left: Box<Term>,
        right: Box<Term>,
    },
    For {
        source: Box<Term>,
        body: Box<Term>,
    },
    Guard {
        test: Box<Term>,
        body: Box<Term>,
    },
    Bind {
        value: Box<Term>,
        body: Box<Term>,
    },
}
