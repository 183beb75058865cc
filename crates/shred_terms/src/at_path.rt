// The shredded form of a normal form at a path.
ghost use Rattle.std.specs.Prelude.{◌≡◌, IfOk, MatchOption, map};
ghost use Rattle.nq_model.specs.Types.{bag, int, type_tree};
ghost use Rattle.nq_ir.specs.Paths.{element_at};
ghost use Rattle.nq_ir.specs.Shredded.{shredded, shredded_tree};
ghost use Rattle.nq_ir.specs.Spots.{by_tag, comps_at, shaped, strand_tree};
ghost use Rattle.nq_ir.specs.Trees.{bag_body, form_tree, no_cond};
ghost use Rattle.std.specs.Prelude.{[]};

use crate::around::Around;
use crate::order::in_tag_order;
use crate::walk::push_in_bag;
use nq_ir::{Normal, Path, Shredded, Step, Strand};
use nq_model::{List, Memory, Ty};
use shred_types::element_at;
use std::alloc::Global;

/// The shredded form at a path: one strand for each comprehension there, in the order of their
/// tags. A path that the form's type lacks has no strands, and counts as one to a bag of int. Fails
/// only if memory runs out.
///
/// After Cheney, Lindley and Wadler, "Query Shredding", SIGMOD 2014.
pub fn shred(alloc: Global, normal: &Normal, path: &Path) -> Result<Shredded, Memory>
    ensures { IfOk result (λ form.
        shredded_tree form ≡ shredded (form_tree normal.now) path.now.steps) }
{
    let steps = path.steps.as_slice();
    Ok(Shredded {
        path: path.copy(alloc)?,
        element: element_copy(alloc, normal, steps)?,
        parts: in_tag_order(strands_at(alloc, normal, steps)?)?,
    })
}

// The strands at a path, in the order of the form.
fn strands_at(alloc: Global, normal: &Normal, steps: &[Step]) -> Result<List<Strand>, Memory>
    ensures { IfOk result (λ strands.
        map strand_tree strands
        ≡ map shaped (comps_at 0 [] no_cond
        (bag_body (form_tree normal.now).element (form_tree normal.now).comps) steps.now)) }
{
    let top = Around {
        parent: 0,
        gens: List::new(alloc),
        conds: List::new(alloc),
    };
    let mut strands = List::new(alloc);
    push_in_bag(alloc, &top, normal, steps, &mut strands)?;
    Ok(strands)
}

/// The type of the elements at a path.
#[tactic(auto, using(nq_ir::proofs::Forms::form_is))]
pub fn element_copy(alloc: Global, normal: &Normal, steps: &[Step]) -> Result<Ty, Memory>
    ensures { IfOk result (λ element.
        type_tree element ≡ element_at (bag (form_tree normal.now).element) steps.now) }
{
    let found = match steps.split_first() {
        None => Some(&normal.element),
        Some((Step::Down, rest)) => element_at(&normal.element, rest),
        Some((Step::Field(_), _)) => None,
    };
    match found {
        Some(element) => element.copy(alloc),
        None => Ok(Ty::Int),
    }
}
