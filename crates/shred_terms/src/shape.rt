// The shape of a body.
ghost use Rattle.std.specs.Prelude.{◌≡◌, IfOk};
ghost use Rattle.nq_ir.specs.Spots.{shape_of};
ghost use Rattle.nq_ir.specs.Trees.{body_tree, shape_tree, shapes_view};
ghost use Rattle.shred_terms.specs.Placed.{field_shapes};

use nq_ir::{Body, Shape};
use nq_model::{Label, List, Memory};
use std::alloc::Global;

/// The body with an index in the place of each bag.
#[cycle(shape)]
#[tactic(auto, using(nq_ir::proofs::Forms::body_plain, nq_ir::proofs::Forms::body_rec, nq_ir::proofs::Forms::body_bag, nq_ir::proofs::Forms::shape_plain, nq_ir::proofs::Forms::shape_rec, nq_ir::proofs::Forms::shape_index, crate::proofs::Steps::shapes_are))]
pub fn shape_of(alloc: Global, body: &Body) -> Result<Shape, Memory>
    ensures { IfOk result (λ shape. shape_tree shape ≡ shape_of (body_tree body.now)) }
{
    match body {
        Body::Plain(base) => Ok(Shape::Plain(base.copy(alloc)?)),
        Body::Rec(fields) => Ok(Shape::Rec(shapes_of(alloc, fields.as_slice())?)),
        Body::Bag(_) => Ok(Shape::Index),
    }
}

#[cycle(shape)]
fn shapes_of(alloc: Global, fields: &[(Label, Body)]) -> Result<List<(Label, Shape)>, Memory>
    ensures { IfOk result (λ shapes. shapes_view shapes ≡ field_shapes fields.now) }
{
    let mut shapes = List::with_capacity(alloc, fields.len())?;
    for field in fields {
        shapes.push((field.0.copy(alloc)?, shape_of(alloc, &field.1)?))?;
    }
    Ok(shapes)
}
