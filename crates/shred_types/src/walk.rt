// The paths of a type.
ghost use Rattle.std.specs.Prelude.{◌≡◌, [], ◌∷◌, ◌++◌, IfOk, OnOk};
ghost use Rattle.nq_model.specs.Types.{type_tree, field_types_of, fields_view};
ghost use Rattle.nq_ir.specs.Paths.{paths, paths_in};
ghost use Rattle.shred_types.specs.Under.{steps_of, under};

use nq_ir::{Path, Step};
use nq_model::{Label, List, Memory, Ty};
use std::alloc::Global;

/// The paths to the bags of a type, in pre-order, fields in label order. There are as many as bag
/// constructors in the type.
///
/// After Cheney, Lindley and Wadler, "Query Shredding", SIGMOD 2014.
pub fn paths(alloc: Global, of: &Ty) -> Result<List<Path>, Memory>
    ensures { IfOk result (λ list. steps_of list ≡ paths (type_tree of.now)) }
{
    let mut all = List::new(alloc);
    push_paths(alloc, of, &[], &mut all)?;
    Ok(all)
}

// Puts the paths of a type at the end, each after the steps to the type.
#[cycle(paths)]
#[tactic(auto, using(crate::proofs::Under::steps_pushed, crate::proofs::Under::under_field, nq_model::proofs::Terms::type_of_record))]
fn push_paths(alloc: Global, of: &Ty, steps: &[Step], all: &mut List<Path>) -> Result<(), Memory>
    ensures { OnOk result (steps_of all.new
        ≡ steps_of all.old ++ under steps.now (paths (type_tree of.now))) }
{
    match of {
        Ty::Int | Ty::Bool | Ty::Text | Ty::Fun(_, _) => Ok(()),
        Ty::Rec(fields) => push_field_paths(alloc, fields.as_slice(), steps, all),
        Ty::Bag(element) => {
            all.push(Path {
                steps: copied(alloc, steps)?,
            })?;
            let deeper = extended(alloc, steps, Step::Down)?;
            push_paths(alloc, element, deeper.as_slice(), all)
        }
    }
}

#[cycle(paths)]
#[tactic(auto, using(crate::proofs::Under::steps_pushed, crate::proofs::Under::under_field, nq_model::proofs::Terms::type_of_record))]
fn push_field_paths(
    alloc: Global,
    fields: &[(Label, Ty)],
    steps: &[Step],
    all: &mut List<Path>,
) -> Result<(), Memory>
    ensures { OnOk result (steps_of all.new
        ≡ steps_of all.old ++ under steps.now
        (paths_in (field_types_of (fields_view fields.now)))) }
{
    for field in fields {
        let deeper = extended(alloc, steps, Step::Field(field.0.copy(alloc)?))?;
        push_paths(alloc, &field.1, deeper.as_slice(), all)?;
    }
    Ok(())
}

// A copy of the steps.
fn copied(alloc: Global, steps: &[Step]) -> Result<List<Step>, Memory>
    ensures { IfOk result (λ copies. copies ≡ steps.now) }
{
    let mut copies = List::with_capacity(alloc, steps.len())?;
    for step in steps {
        copies.push(step.copy(alloc)?)?;
    }
    Ok(copies)
}

// The steps and one more.
fn extended(alloc: Global, steps: &[Step], last: Step) -> Result<List<Step>, Memory>
    ensures { IfOk result (λ more. more ≡ steps.now ++ last ∷ []) }
{
    let mut more = copied(alloc, steps)?;
    more.push(last)?;
    Ok(more)
}
