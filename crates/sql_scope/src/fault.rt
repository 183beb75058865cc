// Why a tree is not well scoped.
ghost use Rattle.std.specs.Prelude.{◌≡◌};
ghost use Rattle.sql_scope.specs.declared.fault.ScopeFault.TheVariants.{Memory as want};

use nq_model::Memory;

/// Why a tree is not well scoped: the number of the first broken scope rule in judging order, and
/// the place of the part that breaks it. `Memory` where there is too little memory.
#[derive(Clone, Copy, Debug, PartialEq, Eq)]
pub enum ScopeFault {
    Memory,
    Broken { rule: u8, place: u64 },
}

impl From<Memory> for ScopeFault {
    ghost from_gives = { λ _ e. e ≡ want };

    fn from(_error: Memory) -> ScopeFault {
        ScopeFault::Memory
    }
}
