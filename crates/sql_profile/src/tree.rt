// Trees of SQL texts.
use nq_model::{Binary, Label, List, Text, Unary};

/// A text: its WITH queries in order, and its main query.
#[derive(Drop)]
pub struct SqlText {
    pub withs: List<With>,
    pub main: Query,
}

/// A WITH query, and the place of its name.
#[derive(Drop)]
pub struct With {
    pub name: Label,
    pub place: u64,
    pub query: Query,
}

/// The SELECTs of a query, joined by UNION ALL. There is at least one.
#[cycle(sql)]
#[derive(Drop)]
pub struct Query {
    pub selects: List<Select>,
}

/// A SELECT: its items, of which there is at least one, its sources, and the condition after WHERE.
#[cycle(sql)]
#[derive(Drop)]
pub struct Select {
    pub place: u64,
    pub items: List<Item>,
    pub from: List<Source>,
    pub keep: Option<Expr>,
}

/// An item of a SELECT, and the place of its name.
#[cycle(sql)]
#[derive(Drop)]
pub struct Item {
    pub name: Label,
    pub place: u64,
    pub value: ItemValue,
}

/// The value of an item: an expression, or the number of the row by these order keys.
#[cycle(sql)]
#[derive(Drop)]
pub enum ItemValue {
    Plain(Expr),
    Number(List<Expr>),
}

/// A source of a SELECT: a table or a WITH query, its alias, and the place of the table's name.
#[derive(Drop)]
pub struct Source {
    pub table: Label,
    pub alias: Label,
    pub place: u64,
}

/// An expression, and the number of bytes before its telling token in the whole text.
#[cycle(sql)]
#[derive(Drop)]
pub struct Expr {
    pub place: u64,
    pub node: ExprNode,
}

/// What an expression is. An `Int` is from 0 to 2^63 - 1. A `Chain` is the `Binary` operations
/// `((first op right) op right) ..`, grouped to the left, in a flat list, so that long sums and
/// conditions are no deeper than their parts. It stands at the places of its links, and at that of
/// `first` where it has none; the place beside the node, that of the last link, tells nothing more.
/// A `Choose` is a CASE of one test, and `NotExists` asks whether no SELECT of the query has a row.
/// `Count` and `Sum` are scalar queries: how many combinations are kept, and the sum of a value
/// over them, at 64 bits.
#[cycle(sql)]
#[derive(Drop)]
pub enum ExprNode {
    Int(i64),
    Bool(bool),
    Text(Text),
    Column {
        alias: Label,
        column: Label,
    },
    Unary {
        op: Unary,
        of: Box<Expr>,
    },
    Binary {
        op: Binary,
        left: Box<Expr>,
        right: Box<Expr>,
    },
    Chain {
        op: Binary,
        first: Box<Expr>,
        more: List<Link>,
    },
    Choose {
        test: Box<Expr>,
        yes: Box<Expr>,
        no: Box<Expr>,
    },
    NotExists(Box<Query>),
    Count(Box<Picked>),
    Sum {
        over: Box<Picked>,
        value: Box<Expr>,
    },
}

/// One more part of a chain, on the right of the operator at this place.
#[cycle(sql)]
#[derive(Drop)]
pub struct Link {
    pub place: u64,
    pub right: Expr,
}

/// The sources of a scalar query, and the condition after WHERE.
#[cycle(sql)]
#[derive(Drop)]
pub struct Picked {
    pub from: List<Source>,
    pub keep: Option<Expr>,
}
