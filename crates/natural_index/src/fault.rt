// Why a normal form has no natural texts.
use nq_model::{Label, Memory};

/// Why a normal form has no natural texts.
#[derive(Drop)]
pub enum NaturalFault {
    /// Memory ran out.
    Memory,
    /// An index would name the rows of a table that has no key. Of all generators of which that is
    /// so, this is the table of the one with the least number.
    NoKey { table: Label },
}

impl From<Memory> for NaturalFault {
    ghost use Rattle.std.specs.Prelude.{◌≡◌};
    ghost use Rattle.natural_index.specs.declared.fault.NaturalFault.TheVariants as fault;

    ghost from_gives = { λ _ e. e ≡ fault.Memory };

    fn from(_: Memory) -> Self {
        NaturalFault::Memory
    }
}
