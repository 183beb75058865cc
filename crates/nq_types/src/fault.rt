// Why a program is not accepted.
ghost use Rattle.std.specs.Prelude.{◌≡◌};
ghost use Rattle.nq_types.specs.declared.fault.CheckFault.TheVariants.{Memory as want};

use nq_model::Memory;

/// Why a program is not accepted: the number of the first broken typing rule in judging order, and
/// the place of the node that breaks it. `Memory` where there is too little memory.
#[derive(Clone, Copy, Debug, PartialEq, Eq)]
pub enum CheckFault {
    Memory,
    Ill { rule: u8, place: u64 },
}

impl From<Memory> for CheckFault {
    ghost from_gives = { λ _ e. e ≡ want };

    fn from(_error: Memory) -> CheckFault {
        CheckFault::Memory
    }
}
