// Traced values.
use nq_model::{Label, List, Text};

/// A value of which each element of a bag, at every depth, has the names of the rows that made it.
///
/// After Fehrenbach and Cheney, "Language-integrated provenance", PPDP 2016.
#[cycle(traced)]
#[derive(Drop)]
pub enum Traced {
    Int(i64),
    Bool(bool),
    Text(Text),
    Rec(List<(Label, Traced)>),
    Bag(List<TracedElement>),
}

/// An element, with the rows at which its own generators stood, the outermost first.
#[cycle(traced)]
#[derive(Drop)]
pub struct TracedElement {
    pub value: Traced,
    pub rows: List<RowName>,
}

/// The name of a row: its table, and its number in it, from 1.
#[derive(Drop)]
pub struct RowName {
    pub table: Label,
    pub row: i64,
}
