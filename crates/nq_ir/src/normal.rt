// Normal forms.
use crate::base::{Base, Gen};
use nq_model::{Label, List, Ty};

/// A query without functions as a union of comprehensions, with the type of its elements.
///
/// After Cheney, Lindley and Wadler, "Query Shredding", SIGMOD 2014, and Cooper, "The
/// script-writer's dream", DBPL 2009.
#[cycle(normal)]
#[derive(Drop)]
pub struct Normal {
    pub element: Ty,
    pub parts: List<Comp>,
}

/// A comprehension: its generators, outermost first, its conditions, and the body that each kept
/// choice of rows gives. The tags of a form's comprehensions differ.
#[cycle(normal)]
#[derive(Drop)]
pub struct Comp {
    pub tag: u64,
    pub gens: List<Gen>,
    pub conds: List<Base>,
    pub body: Body,
}

/// The body of a comprehension. The labels of a `Rec` differ and stand in byte order.
#[cycle(normal)]
#[derive(Drop)]
pub enum Body {
    Plain(Base),
    Rec(List<(Label, Body)>),
    Bag(Normal),
}
