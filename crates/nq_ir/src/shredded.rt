// Shredded forms: the comprehensions at one path of a normal form, each by itself.
ghost use Rattle.std.specs.Prelude.{◌≡◌, IfOk};
ghost use Rattle.nq_ir.specs.Trees.{shape_tree, shapes_view};

use crate::base::{Base, Gen};
use crate::path::Path;
use nq_model::{Label, List, Memory, Ty};
use std::alloc::Global;

/// The comprehensions at a path, in the order of their tags, with the type of their elements.
///
/// After Cheney, Lindley and Wadler, "Query Shredding", SIGMOD 2014.
#[derive(Drop)]
pub struct Shredded {
    pub path: Path,
    pub element: Ty,
    pub parts: List<Strand>,
}

/// A comprehension at its path: the tag of the comprehension around it, 0 at the empty path; all
/// generators and conditions around it, outermost first; and its own.
#[derive(Drop)]
pub struct Strand {
    pub parent: u64,
    pub outer_gens: List<Gen>,
    pub outer_conds: List<Base>,
    pub tag: u64,
    pub gens: List<Gen>,
    pub conds: List<Base>,
    pub shape: Shape,
}

/// A body with an index in the place of each bag.
#[derive(Drop)]
pub enum Shape {
    Plain(Base),
    Rec(List<(Label, Shape)>),
    Index,
}

impl Shape {
    /// A copy of the shape.
    #[cycle(copy)]
    #[tactic(auto, using(crate::proofs::Forms::shape_plain, crate::proofs::Forms::shape_rec))]
    pub fn copy(&self, alloc: Global) -> Result<Shape, Memory>
        ensures { IfOk result (λ copy. shape_tree copy ≡ shape_tree self.now) }
    {
        match self {
            Shape::Plain(base) => Ok(Shape::Plain(base.copy(alloc)?)),
            Shape::Rec(fields) => Ok(Shape::Rec(copy_shapes(alloc, fields.as_slice())?)),
            Shape::Index => Ok(Shape::Index),
        }
    }
}

#[cycle(copy)]
fn copy_shapes(alloc: Global, fields: &[(Label, Shape)]) -> Result<List<(Label, Shape)>, Memory>
    ensures { IfOk result (λ copies. shapes_view copies ≡ shapes_view fields.now) }
{
    let mut copies = List::with_capacity(alloc, fields.len())?;
    for field in fields {
        copies.push((field.0.copy(alloc)?, field.1.copy(alloc)?))?;
    }
    Ok(copies)
}
