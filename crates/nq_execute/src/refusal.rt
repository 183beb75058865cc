// Why a server gives no text.
use nq_model::{Label, Memory};

/// Why a server gave no answers that fit.
#[derive(Drop)]
pub enum ServerRefusal {
    Memory,
    /// The table of this name was not loaded.
    TableFailed(Label),
    /// The text of this number, counted from 1, was not answered.
    TextFailed(u64),
    /// The answer to the text of this number does not fit, first at this row and column, all
    /// counted from 1.
    BadAnswer { text: u64, row: u64, column: u64 },
}

impl From<Memory> for ServerRefusal {
    ghost use Rattle.std.specs.Prelude.{◌≡◌};
    ghost use Rattle.nq_execute.specs.declared.refusal.ServerRefusal.TheVariants as refusal;

    ghost from_gives = { λ _ e. e ≡ refusal.Memory };

    fn from(_: Memory) -> ServerRefusal {
        ServerRefusal::Memory
    }
}
