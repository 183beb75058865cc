// The strands at all paths inside a type, path by path.
ghost use Rattle.std.specs.Prelude.{◌≡◌, ◌+◌, ◌++◌, OnOk, map};
ghost use Rattle.nq_model.specs.Types.{type_tree, field_types_of, fields_view};
ghost use Rattle.nq_ir.specs.Parts.{slots, slots_in};
ghost use Rattle.nq_ir.specs.Spots.{strand_tree};
ghost use Rattle.shred_terms.specs.Levels.{levels_view, node_fields, node_levels, node_view};

use crate::nodes::{Node, nodes_under, strands_of};
use nq_ir::Strand;
use nq_model::{Label, List, Memory, Ty};
use std::alloc::Global;

/// Puts a list of strands at the end for each path inside the type, below the comprehensions here,
/// of whose inner bags `slot` stand before. Then it is the number of those before what follows.
#[cycle(levels)]
#[tactic(auto, using(nq_model::proofs::Terms::type_of_record))]
pub fn push_levels(
    alloc: Global,
    of: &Ty,
    slot: &mut usize,
    here: &[Node<'_>],
    levels: &mut Vec<List<Strand>>,
) -> Result<(), Memory>
    ensures levels { OnOk result (levels_view levels.new.items
        ≡ levels_view levels.old.items
        ++ node_levels (type_tree of.now) slot.old (map node_view here.now)) }
    ensures slot { OnOk result (slot.new ≡ slot.old + slots (type_tree of.now)) }
{
    match of {
        Ty::Int | Ty::Bool | Ty::Text | Ty::Fun(_, _) => Ok(()),
        Ty::Rec(fields) => push_field_levels(alloc, fields.as_slice(), slot, here, levels),
        Ty::Bag(element) => {
            let next = nodes_under(alloc, here, *slot)?;
            let mut below = Vec::new(alloc);
            push_levels(alloc, element, &mut 0, next.as_slice(), &mut below)?;
            levels.push(strands_of(alloc, next)?)?;
            levels.append(&mut below)?;
            *slot = slot.checked_add(1).ok_or(Memory)?;
            Ok(())
        }
    }
}

#[cycle(levels)]
#[tactic(auto, using(nq_model::proofs::Terms::type_of_record))]
fn push_field_levels(
    alloc: Global,
    fields: &[(Label, Ty)],
    slot: &mut usize,
    here: &[Node<'_>],
    levels: &mut Vec<List<Strand>>,
) -> Result<(), Memory>
    ensures levels { OnOk result (levels_view levels.new.items
        ≡ levels_view levels.old.items
        ++ node_fields (field_types_of (fields_view fields.now)) slot.old
        (map node_view here.now)) }
    ensures slot { OnOk result (slot.new
        ≡ slot.old + slots_in (field_types_of (fields_view fields.now))) }
{
    for field in fields {
        push_levels(alloc, &field.1, slot, here, levels)?;
    }
    Ok(())
}
