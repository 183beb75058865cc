// A let for each parent.
ghost use Rattle.std.specs.Prelude.{◌≡◌, IfOk, map};
ghost use Rattle.nq_ir.specs.Lets.{let_around, let_tree, lets_after};
ghost use Rattle.nq_ir.specs.Spots.{strand_tree};

use nq_ir::{LetQuery, Strand, copy_conds, copy_gens};
use nq_model::{List, Memory};
use std::alloc::Global;

/// A let for each run of strands with one parent, but none for the parent 0 at the front.
pub fn lets_of(alloc: Global, strands: &[&Strand]) -> Result<List<LetQuery>, Memory>
    ensures { IfOk result (λ lets.
        map let_tree lets ≡ lets_after 0 (map (λ d. strand_tree d.now) strands.now)) }
{
    let mut lets = List::new(alloc);
    let mut last = 0;
    for strand in strands {
        if strand.parent != last {
            lets.push(let_around(alloc, strand)?)?;
            last = strand.parent;
        }
    }
    Ok(lets)
}

// The let of a strand's parent.
fn let_around(alloc: Global, strand: &Strand) -> Result<LetQuery, Memory>
    ensures { IfOk result (λ around. let_tree around ≡ let_around (strand_tree strand.now)) }
{
    Ok(LetQuery {
        parent: strand.parent,
        gens: copy_gens(alloc, strand.outer_gens.as_slice())?,
        conds: copy_conds(alloc, strand.outer_conds.as_slice())?,
    })
}

/// The parents of lets.
pub fn parents_of(alloc: Global, lets: &[LetQuery]) -> Result<Vec<u64>, Memory>
    ensures { IfOk result (λ parents. parents.items ≡ map (λ l. l.parent) lets.now) }
{
    let mut parents = Vec::with_capacity(alloc, lets.len())?;
    for around in lets {
        parents.push(around.parent)?;
    }
    Ok(parents)
}
