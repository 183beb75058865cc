// What stands around comprehensions, and a comprehension as a strand.
ghost use Rattle.std.specs.Prelude.{◌≡◌, ◌++◌, IfOk, map};
ghost use Rattle.nq_ir.specs.Spots.{both, shaped, strand_tree};
ghost use Rattle.nq_ir.specs.Trees.{base_tree, body_tree, conds_tree};
ghost use Rattle.shred_terms.specs.Placed.{whole};

use crate::shape::shape_of;
use nq_ir::{Base, Comp, Gen, Strand, copy_conds, copy_gens};
use nq_model::{List, Memory};
use std::alloc::Global;

/// The tag of the comprehension around, 0 at the top, and all generators and conditions down to its
/// body.
#[derive(Drop)]
pub struct Around {
    pub parent: u64,
    pub gens: List<Gen>,
    pub conds: List<Base>,
}

/// Generators and then more, copied.
pub fn joined_gens(alloc: Global, outer: &[Gen], own: &[Gen]) -> Result<List<Gen>, Memory>
    ensures { IfOk result (λ all. all ≡ outer.now ++ own.now) }
{
    let mut all = List::with_capacity(alloc, outer.len())?;
    for generator in outer {
        all.push(generator.copy(alloc)?)?;
    }
    for generator in own {
        all.push(generator.copy(alloc)?)?;
    }
    Ok(all)
}

/// Conditions and then more, copied.
pub fn joined_conds(alloc: Global, outer: &[Base], own: &[Base]) -> Result<List<Base>, Memory>
    ensures { IfOk result (λ all.
        map base_tree all ≡ map base_tree outer.now ++ map base_tree own.now) }
{
    let mut all = List::with_capacity(alloc, outer.len())?;
    for cond in outer {
        all.push(cond.copy(alloc)?)?;
    }
    for cond in own {
        all.push(cond.copy(alloc)?)?;
    }
    Ok(all)
}

/// What stands around the body of a comprehension.
#[tactic(auto, using(crate::proofs::Steps::conds_joined))]
pub fn entered(alloc: Global, around: &Around, comp: &Comp) -> Result<Around, Memory>
    ensures parent { IfOk result (λ inner. inner.parent ≡ comp.now.tag) }
    ensures gens { IfOk result (λ inner. inner.gens ≡ around.now.gens ++ comp.now.gens) }
    ensures conds { IfOk result
        (λ inner. conds_tree inner.conds
        ≡ both (conds_tree around.now.conds) (conds_tree comp.now.conds)) }
{
    Ok(Around {
        parent: comp.tag,
        gens: joined_gens(alloc, around.gens.as_slice(), comp.gens.as_slice())?,
        conds: joined_conds(alloc, around.conds.as_slice(), comp.conds.as_slice())?,
    })
}

/// The strand of a comprehension.
pub fn strand(alloc: Global, around: &Around, comp: &Comp) -> Result<Strand, Memory>
    ensures { IfOk result (λ strand. strand_tree strand ≡ shaped (whole around.now comp.now)) }
{
    Ok(Strand {
        parent: around.parent,
        outer_gens: copy_gens(alloc, around.gens.as_slice())?,
        outer_conds: copy_conds(alloc, around.conds.as_slice())?,
        tag: comp.tag,
        gens: copy_gens(alloc, comp.gens.as_slice())?,
        conds: copy_conds(alloc, comp.conds.as_slice())?,
        shape: shape_of(alloc, &comp.body)?,
    })
}
