// How many parts a type has.
ghost use Rattle.std.specs.Prelude.{◌≡◌, ◌+◌, IfOk};
ghost use Rattle.nq_model.specs.Types.{type_tree, field_types_of, fields_view};
ghost use Rattle.nq_ir.specs.Parts.{leaves, leaves_in, slots, slots_in, bags, bags_in};

use nq_model::{Label, Memory, Ty};

/// How many base parts an element of the type has.
#[cycle(leaves)]
#[tactic(auto, using(nq_model::proofs::Terms::type_of_record))]
pub(crate) fn leaves(of: &Ty) -> Result<u64, Memory>
    ensures { IfOk result (λ count. count ≡ leaves (type_tree of.now)) }
{
    match of {
        Ty::Int | Ty::Bool | Ty::Text => Ok(1),
        Ty::Rec(fields) => leaves_in(fields.as_slice()),
        Ty::Bag(_) | Ty::Fun(_, _) => Ok(0),
    }
}

#[cycle(leaves)]
#[tactic(auto, using(nq_model::proofs::Terms::type_of_record))]
fn leaves_in(fields: &[(Label, Ty)]) -> Result<u64, Memory>
    ensures { IfOk result (λ count. count ≡ leaves_in (field_types_of (fields_view fields.now))) }
{
    let mut count: u64 = 0;
    for field in fields {
        count = count.checked_add(leaves(&field.1)?).ok_or(Memory)?;
    }
    Ok(count)
}

/// How many inner bags an element of the type has.
#[cycle(slots)]
#[tactic(auto, using(nq_model::proofs::Terms::type_of_record))]
pub(crate) fn slots(of: &Ty) -> Result<u64, Memory>
    ensures { IfOk result (λ count. count ≡ slots (type_tree of.now)) }
{
    match of {
        Ty::Int | Ty::Bool | Ty::Text | Ty::Fun(_, _) => Ok(0),
        Ty::Rec(fields) => slots_in(fields.as_slice()),
        Ty::Bag(_) => Ok(1),
    }
}

#[cycle(slots)]
#[tactic(auto, using(nq_model::proofs::Terms::type_of_record))]
fn slots_in(fields: &[(Label, Ty)]) -> Result<u64, Memory>
    ensures { IfOk result (λ count. count ≡ slots_in (field_types_of (fields_view fields.now))) }
{
    let mut count: u64 = 0;
    for field in fields {
        count = count.checked_add(slots(&field.1)?).ok_or(Memory)?;
    }
    Ok(count)
}

/// How many bags the type has at every depth, each of which has a path.
#[cycle(bags)]
#[tactic(auto, using(nq_model::proofs::Terms::type_of_record))]
pub(crate) fn bags(of: &Ty) -> Result<u64, Memory>
    ensures { IfOk result (λ count. count ≡ bags (type_tree of.now)) }
{
    match of {
        Ty::Int | Ty::Bool | Ty::Text | Ty::Fun(_, _) => Ok(0),
        Ty::Rec(fields) => bags_in(fields.as_slice()),
        Ty::Bag(element) => bags(element)?.checked_add(1).ok_or(Memory),
    }
}

#[cycle(bags)]
#[tactic(auto, using(nq_model::proofs::Terms::type_of_record))]
fn bags_in(fields: &[(Label, Ty)]) -> Result<u64, Memory>
    ensures { IfOk result (λ count. count ≡ bags_in (field_types_of (fields_view fields.now))) }
{
    let mut count: u64 = 0;
    for field in fields {
        count = count.checked_add(bags(&field.1)?).ok_or(Memory)?;
    }
    Ok(count)
}
