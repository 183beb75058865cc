// Where a part of an element stands.
ghost use Rattle.std.specs.Prelude.{◌≡◌, suc, IfOk};
ghost use Rattle.nq_model.specs.Types.{type_tree};
ghost use Rattle.reference_stitching.specs.Places.{behind};

use crate::counts::{bags, leaves, slots};
use nq_model::{Memory, Ty};

/// The path and the place of the row in its answer, how many base parts and inner bags of the row's
/// element stand before the part, and the number of the next inner path.
#[derive(Clone, Copy)]
pub(crate) struct Place {
    pub(crate) path: u64,
    pub(crate) row: usize,
    pub(crate) leaf: u64,
    pub(crate) slot: u64,
    pub(crate) inner: u64,
}

/// The whole element of a row.
pub(crate) fn whole(path: u64, row: usize) -> Result<Place, Memory>
    ensures { IfOk result (λ at.
        at ≡ record { path = path; row = row; leaf = 0; slot = 0; inner = suc path }) }
{
    let inner = path.checked_add(1).ok_or(Memory)?;
    Ok(Place {
        path,
        row,
        leaf: 0,
        slot: 0,
        inner,
    })
}

/// The part behind one of this type.
pub(crate) fn behind(at: Place, part: &Ty) -> Result<Place, Memory>
    ensures { IfOk result (λ next. next ≡ behind at (type_tree part.now)) }
{
    let leaf = at.leaf.checked_add(leaves(part)?).ok_or(Memory)?;
    let slot = at.slot.checked_add(slots(part)?).ok_or(Memory)?;
    let inner = at.inner.checked_add(bags(part)?).ok_or(Memory)?;
    Ok(Place {
        path: at.path,
        row: at.row,
        leaf,
        slot,
        inner,
    })
}
