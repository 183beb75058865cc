// The let form of a shredded form.
ghost use Rattle.std.specs.Prelude.{◌≡◌, IfOk};
ghost use Rattle.nq_ir.specs.Lets.{insert_lets, let_form_tree};
ghost use Rattle.nq_ir.specs.Shredded.{shredded_tree};

use crate::lets::{lets_of, parents_of};
use crate::order::in_parent_order;
use crate::parts::parts_of;
use nq_ir::{LetForm, Shredded};
use nq_model::Memory;
use std::alloc::Global;

/// The let form of a shredded form: one let for each parent that has a strand, in the order of the
/// parents, and none for the parent 0; each strand is a part on its parent's let, in the same
/// order. Fails only if memory runs out.
///
/// After the let-insertion of Cheney, Lindley and Wadler, "Query Shredding", SIGMOD 2014.
pub fn insert_lets(alloc: Global, shredded: &Shredded) -> Result<LetForm, Memory>
    ensures { IfOk result (λ form. let_form_tree form ≡ insert_lets (shredded_tree shredded.now)) }
{
    let strands = shredded.parts.as_slice();
    let sorted = in_parent_order(alloc, strands)?;
    let lets = lets_of(alloc, sorted.as_slice())?;
    let parents = parents_of(alloc, lets.as_slice())?;
    let parts = parts_of(alloc, strands, parents.as_slice())?;
    Ok(LetForm {
        path: shredded.path.copy(alloc)?,
        element: shredded.element.copy(alloc)?,
        lets,
        parts,
    })
}
