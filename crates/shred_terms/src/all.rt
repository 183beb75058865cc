// The shredded forms at all paths of a normal form, by one walk.
ghost use Rattle.std.specs.Prelude.{◌≡◌, IfOk, map};
ghost use Rattle.nq_model.specs.Types.{bag};
ghost use Rattle.nq_model.specs.declared.table.Schema.{Schema};
ghost use Rattle.nq_ir.specs.Paths.{paths};
ghost use Rattle.nq_ir.specs.Shredded.{shredded, shredded_tree};
ghost use Rattle.nq_ir.specs.Spots.{strand_tree, strands};
ghost use Rattle.nq_ir.specs.Trees.{form_tree};
ghost use Rattle.nq_ir.specs.WellFormed.{IsWellFormed};
ghost use Rattle.shred_terms.specs.Levels.{form_of, levels_view, paired};

use crate::around::Around;
use crate::at_path::element_copy;
use crate::levels::push_levels;
use crate::nodes::{push_nodes, strands_of};
use crate::order::in_tag_order;
use nq_ir::{Normal, Path, Shredded, Strand};
use nq_model::{List, Memory, Ty, boxed};
use shred_types::paths;
use std::alloc::Global;

/// The shredded forms at all paths of a well-formed form's type, in path order, as `shred` gives
/// each. The comprehensions are walked once. Fails only if memory runs out.
pub fn shred_all(alloc: Global, normal: &Normal) -> Result<List<Shredded>, Memory>
    ensures { (schema : Schema) → IsWellFormed schema.tables (form_tree normal.now)
        → IfOk result (λ all.
        map shredded_tree all
        ≡ map (shredded (form_tree normal.now)) (paths (bag (form_tree normal.now).element))) }
{
    let levels = all_levels(alloc, normal)?;
    let places = all_paths(alloc, normal)?;
    forms_of(alloc, normal, &places, levels)
}

// The shredded forms of these strands at these paths, as far as there are both.
fn forms_of(
    alloc: Global,
    normal: &Normal,
    places: &List<Path>,
    levels: Vec<List<Strand>>,
) -> Result<List<Shredded>, Memory>
    ensures { IfOk result (λ forms.
        map shredded_tree forms ≡ paired (bag (form_tree normal.now).element) (map
        (λ p. p.steps) places.now) (levels_view levels.items)) }
{
    let mut forms = List::with_capacity(alloc, places.len())?;
    for strands in levels {
        if let Some(path) = places.get(forms.len()) {
            forms.push(form_at(alloc, normal, path, strands)?)?;
        }
    }
    Ok(forms)
}

// The strands at each path, in the order of the form.
#[tactic(auto, using(nq_ir::proofs::Forms::form_is))]
fn all_levels(alloc: Global, normal: &Normal) -> Result<Vec<List<Strand>>, Memory>
    ensures { IfOk result (λ levels.
        levels_view levels.items
        ≡ strands (form_tree normal.now).element (form_tree normal.now).comps) }
{
    let top = Around {
        parent: 0,
        gens: List::new(alloc),
        conds: List::new(alloc),
    };
    let mut here = Vec::new(alloc);
    push_nodes(alloc, &top, normal.parts.as_slice(), &mut here)?;
    let mut below = Vec::new(alloc);
    push_levels(alloc, &normal.element, &mut 0, here.as_slice(), &mut below)?;
    let mut levels = Vec::with_capacity(alloc, below.len())?;
    levels.push(strands_of(alloc, here)?)?;
    levels.append(&mut below)?;
    Ok(levels)
}

// The paths of the form's type.
#[tactic(auto, using(nq_ir::proofs::Forms::form_is))]
fn all_paths(alloc: Global, normal: &Normal) -> Result<List<Path>, Memory>
    ensures { IfOk result (λ list. map
        (λ p. p.steps) list ≡ paths (bag (form_tree normal.now).element)) }
{
    let whole = Ty::Bag(boxed(alloc, normal.element.copy(alloc)?)?);
    paths(alloc, &whole)
}

// The shredded form of these strands.
fn form_at(
    alloc: Global,
    normal: &Normal,
    path: &Path,
    strands: List<Strand>,
) -> Result<Shredded, Memory>
    ensures { IfOk result (λ form.
        shredded_tree form ≡ form_of (bag (form_tree normal.now).element) path.now.steps
        (map strand_tree strands)) }
{
    Ok(Shredded {
        path: path.copy(alloc)?,
        element: element_copy(alloc, normal, path.steps.as_slice())?,
        parts: in_tag_order(strands)?,
    })
}
