// Strands in the order of their tags.
ghost use Rattle.std.specs.Prelude.{◌≡◌, IfOk, map};
ghost use Rattle.nq_ir.specs.Spots.{by_tag, strand_tree};

use nq_ir::Strand;
use nq_model::{List, Memory};

/// The strands in the order of their tags. Fails only if memory runs out.
pub fn in_tag_order(strands: List<Strand>) -> Result<List<Strand>, Memory>
    ensures { IfOk result (λ sorted. map strand_tree sorted ≡ by_tag (map strand_tree strands)) }
{
    let mut sorted = strands.into_vec();
    sorted.sort_by(|left, right| left.tag.cmp(&right.tag))?;
    Ok(List::from_vec(sorted))
}
