// The strands at one path: the walk from a bag along the steps.
ghost use Rattle.std.specs.Prelude.{◌≡◌, ◌++◌, OnOk, map};
ghost use Rattle.nq_ir.specs.Spots.{shaped, strand_tree};
ghost use Rattle.shred_terms.specs.Placed.{at_bag, at_body, at_field, below, placed_in};

use crate::around::{Around, entered, strand};
use nq_ir::{Body, Comp, Normal, Step, Strand};
use nq_model::{Label, List, Memory};
use std::alloc::Global;

// Puts the strands of comprehensions at the end.
fn push_placed(
    alloc: Global,
    around: &Around,
    comps: &[Comp],
    strands: &mut List<Strand>,
) -> Result<(), Memory>
    ensures { OnOk result (map strand_tree strands.new
        ≡ map strand_tree strands.old ++ map shaped (placed_in around.now comps.now)) }
{
    for comp in comps {
        strands.push(strand(alloc, around, comp)?)?;
    }
    Ok(())
}

/// Puts the strands at the end that stand at a path of a bag.
#[cycle(walk)]
#[tactic(auto, using(nq_ir::proofs::Forms::form_is))]
pub fn push_in_bag(
    alloc: Global,
    around: &Around,
    bag: &Normal,
    steps: &[Step],
    strands: &mut List<Strand>,
) -> Result<(), Memory>
    ensures { OnOk result (map strand_tree strands.new
        ≡ map strand_tree strands.old ++ map shaped (at_bag around.now bag.now steps.now)) }
{
    match steps.split_first() {
        None => push_placed(alloc, around, bag.parts.as_slice(), strands),
        Some((Step::Down, rest)) => push_below(alloc, around, bag.parts.as_slice(), rest, strands),
        Some((Step::Field(_), _)) => Ok(()),
    }
}

// Those that stand at a path below these comprehensions.
#[cycle(walk)]
fn push_below(
    alloc: Global,
    around: &Around,
    comps: &[Comp],
    steps: &[Step],
    strands: &mut List<Strand>,
) -> Result<(), Memory>
    ensures { OnOk result (map strand_tree strands.new
        ≡ map strand_tree strands.old ++ map shaped (below around.now comps.now steps.now)) }
{
    for comp in comps {
        let inner = entered(alloc, around, comp)?;
        push_at(alloc, &inner, &comp.body, steps, strands)?;
    }
    Ok(())
}

#[cycle(walk)]
#[tactic(auto, using(nq_ir::proofs::Forms::body_plain, nq_ir::proofs::Forms::body_rec, nq_ir::proofs::Forms::body_bag))]
fn push_at(
    alloc: Global,
    around: &Around,
    body: &Body,
    steps: &[Step],
    strands: &mut List<Strand>,
) -> Result<(), Memory>
    ensures { OnOk result (map strand_tree strands.new
        ≡ map strand_tree strands.old ++ map shaped (at_body around.now body.now steps.now)) }
{
    match (body, steps.split_first()) {
        (Body::Rec(fields), Some((Step::Field(label), rest))) => {
            push_in_field(
                alloc,
                around,
                fields.as_slice(),
                label.as_str(),
                rest,
                strands,
            )
        }
        (Body::Bag(bag), _) => push_in_bag(alloc, around, bag, steps, strands),
        _ => Ok(()),
    }
}

#[cycle(walk)]
fn push_in_field(
    alloc: Global,
    around: &Around,
    fields: &[(Label, Body)],
    label: &str,
    steps: &[Step],
    strands: &mut List<Strand>,
) -> Result<(), Memory>
    ensures { OnOk result (map strand_tree strands.new
        ≡ map strand_tree strands.old
        ++ map shaped (at_field around.now fields.now label.now steps.now)) }
{
    for field in fields {
        if label == field.0.as_str() {
            return push_at(alloc, around, &field.1, steps, strands);
        }
    }
    Ok(())
}
