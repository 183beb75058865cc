// Where the bags of the paths of a type stand.
ghost use Rattle.std.specs.Prelude.{◌≡◌, ◌+◌, ◌++◌, IfOk, OnOk, length};
ghost use Rattle.nq_model.specs.Types.{type_tree, field_types_of, fields_view};
ghost use Rattle.nq_ir.specs.Parts.{slots, slots_in};
ghost use Rattle.stitcher.specs.Linked.{homes, homes_in, homes_fields};

use nq_model::{Label, List, Memory, Ty};
use std::alloc::Global;

/// For each path of a type, in path order, the path of the element in which its bag stands, and
/// which of the inner bags of that element it is.
pub(crate) fn homes_of(alloc: Global, of: &Ty) -> Result<List<(u64, u64)>, Memory>
    ensures { IfOk result (λ all. all ≡ homes (type_tree of.now)) }
{
    let mut all = List::new(alloc);
    push_homes(of, 0, 0, &mut all)?;
    Ok(all)
}

// Puts the homes of the paths inside a part of the element at a path, behind so many inner bags.
// Tells how many are behind the part.
#[cycle(homes)]
#[tactic(auto, using(nq_model::proofs::Terms::type_of_record))]
fn push_homes(part: &Ty, path: u64, slot: u64, all: &mut List<(u64, u64)>) -> Result<u64, Memory>
    ensures next { IfOk result (λ next. next ≡ slot + slots (type_tree part.now)) }
    ensures homes { OnOk result (all.new ≡ all.old ++ homes_in (type_tree part.now)
        path slot (length all.old)) }
{
    match part {
        Ty::Int | Ty::Bool | Ty::Text | Ty::Fun(_, _) => Ok(slot),
        Ty::Rec(fields) => push_field_homes(fields.as_slice(), path, slot, all),
        Ty::Bag(element) => {
            let next = slot.checked_add(1).ok_or(Memory)?;
            let inner = all.len() as u64;
            all.push((path, slot))?;
            push_homes(element, inner, 0, all)?;
            Ok(next)
        }
    }
}

#[cycle(homes)]
fn push_field_homes(
    fields: &[(Label, Ty)],
    path: u64,
    slot: u64,
    all: &mut List<(u64, u64)>,
) -> Result<u64, Memory>
    ensures next { IfOk result (λ next. next
        ≡ slot + slots_in (field_types_of (fields_view fields.now))) }
    ensures homes { OnOk result (all.new ≡ all.old ++
        homes_fields (field_types_of (fields_view fields.now)) path slot (length all.old)) }
{
    let mut next = slot;
    for field in fields {
        next = push_homes(&field.1, path, next, all)?;
    }
    Ok(next)
}
