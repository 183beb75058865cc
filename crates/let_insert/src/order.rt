// Strands in the order of their parents.
ghost use Rattle.std.specs.Prelude.{◌≡◌, IfOk, map};
ghost use Rattle.nq_ir.specs.Lets.{by_parent};
ghost use Rattle.nq_ir.specs.Spots.{strand_tree};

use nq_ir::Strand;
use nq_model::Memory;
use std::alloc::Global;

/// The strands in the order of their parents, those of one parent as they stand.
pub fn in_parent_order<'a>(alloc: Global, strands: &'a [Strand]) -> Result<Vec<&'a Strand>, Memory>
    ensures { IfOk result (λ sorted. map
        (λ d. strand_tree d.now) sorted.items ≡ by_parent (map strand_tree strands.now)) }
{
    let mut sorted = lent(alloc, strands)?;
    sorted.sort_by(|left, right| left.parent.cmp(&right.parent))?;
    Ok(sorted)
}

fn lent<'a>(alloc: Global, strands: &'a [Strand]) -> Result<Vec<&'a Strand>, Memory>
    ensures { IfOk result (λ refs. map (λ d. d.now) refs.items ≡ strands.now) }
{
    let mut refs = Vec::with_capacity(alloc, strands.len())?;
    for strand in strands {
        refs.push(strand)?;
    }
    Ok(refs)
}
