// Let forms: the comprehensions that are parents, each named once, and the parts that range over
// them.
use crate::base::{Base, Gen};
use crate::path::Path;
use crate::shredded::Shape;
use nq_model::{List, Ty};

/// The let form of a shredded form. There is a let for each parent, in the order of the tags, and
/// none at the empty path.
///
/// After the let-insertion of Cheney, Lindley and Wadler, "Query Shredding", SIGMOD 2014.
#[derive(Drop)]
pub struct LetForm {
    pub path: Path,
    pub element: Ty,
    pub lets: List<LetQuery>,
    pub parts: List<LetPart>,
}

/// A comprehension that is a parent: its tag, and all generators and conditions down to it.
#[derive(Drop)]
pub struct LetQuery {
    pub parent: u64,
    pub gens: List<Gen>,
    pub conds: List<Base>,
}

/// A comprehension over the rows of a let. `from` is the number of the let, from 1, and 0 at the
/// empty path.
#[derive(Drop)]
pub struct LetPart {
    pub from: u64,
    pub tag: u64,
    pub gens: List<Gen>,
    pub conds: List<Base>,
    pub shape: Shape,
}
