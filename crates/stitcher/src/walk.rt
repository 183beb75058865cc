// How far a walk over the element of a row has come.
ghost use Rattle.std.specs.Prelude.{◌≡◌, suc, IfOk};

use nq_model::Memory;

/// A walk over the element of a row: the path and the place of the row in its answer, how many base
/// parts and inner bags of the element are behind, and the number of the next inner path.
#[derive(Drop)]
pub(crate) struct Walk {
    pub(crate) path: u64,
    pub(crate) row: usize,
    pub(crate) leaf: u64,
    pub(crate) slot: u64,
    pub(crate) inner: u64,
}

impl Walk {
    /// The walk that begins at a row.
    pub(crate) fn new(path: u64, row: usize) -> Result<Walk, Memory>
        ensures { IfOk result (λ walk.
            walk ≡ record { path = path; row = row; leaf = 0; slot = 0; inner = suc path }) }
    {
        let inner = path.checked_add(1).ok_or(Memory)?;
        Ok(Walk {
            path,
            row,
            leaf: 0,
            slot: 0,
            inner,
        })
    }
}
