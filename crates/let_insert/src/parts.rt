// The parts of a let form.
ghost use Rattle.std.specs.Prelude.{◌≡◌, IfOk, List, map};
ghost use Rattle.nq_ir.specs.Lets.{LetTree, let_number, part_from, part_tree, parts_on};
ghost use Rattle.nq_ir.specs.Shredded.{IsRising};
ghost use Rattle.nq_ir.specs.Spots.{strand_tree};

use nq_ir::{LetPart, Strand, copy_conds, copy_gens};
use nq_model::{List, Memory};
use std::alloc::Global;

/// Each strand as a part on its parent's let, of which the parents are these, in the same order.
pub fn parts_of(alloc: Global, strands: &[Strand], parents: &[u64]) -> Result<List<LetPart>, Memory>
    requires { IsRising parents.now }
    ensures { (lets : List LetTree) → map (λ l. l.parent) lets ≡ parents.now
        → IfOk result (λ parts. map part_tree parts ≡ parts_on lets (map strand_tree strands.now)) }
{
    let mut parts = List::with_capacity(alloc, strands.len())?;
    for strand in strands {
        parts.push(part(alloc, strand, let_number(parents, strand.parent))?)?;
    }
    Ok(parts)
}

fn part(alloc: Global, strand: &Strand, from: u64) -> Result<LetPart, Memory>
    ensures { IfOk result (λ part. part_tree part ≡ part_from from (strand_tree strand.now)) }
{
    Ok(LetPart {
        from,
        tag: strand.tag,
        gens: copy_gens(alloc, strand.gens.as_slice())?,
        conds: copy_conds(alloc, strand.conds.as_slice())?,
        shape: strand.shape.copy(alloc)?,
    })
}

// The number of a parent's let, from 1; 0 for the parent 0, which has none.
fn let_number(parents: &[u64], parent: u64) -> u64
    requires { IsRising parents.now }
    ensures { (lets : List LetTree) → map (λ l. l.parent) lets ≡ parents.now
        → result ≡ let_number lets parent }
{
    if parent == 0 {
        return 0;
    }
    match parents.binary_search(&parent) {
        Ok(before) => before as u64 + 1,
        Err(_) => parents.len() as u64 + 1,
    }
}
