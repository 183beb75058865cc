// What is read, by name.
ghost use Rattle.std.specs.Prelude.{◌≡◌, ◌≤◌, List, ℕ, length, IfOk, IfSome, Option, is_some};
ghost use Rattle.nq_edge.specs.Edge.{Files, bytes_at, FetchCounts, FetchTells, FetchAnswers};

use nq_model::{List, Memory};
use std::alloc::Global;

/// Why a fetch gave no bytes.
#[derive(Clone, Copy, Debug, PartialEq, Eq)]
pub enum FetchFault {
    /// There was too little memory.
    Memory,
    /// The input was not read.
    Failed,
    /// The input has more bytes than the limit.
    Long,
}

impl From<Memory> for FetchFault {
    ghost use Rattle.std.specs.Prelude.{◌≡◌};
    ghost use Rattle.nq_edge.specs.declared.inputs.FetchFault.TheVariants as fault;

    ghost from_gives = { λ _ e. e ≡ fault.Memory };

    fn from(_: Memory) -> FetchFault {
        FetchFault::Memory
    }
}

/// What is read, by name. What it holds, and whether it tells that, never changes.
pub trait Inputs {
    /// The names that are held, each with its bytes, where they are told.
    ghost held: { Self → Option Files };

    /// The names of the calls so far, in their order, where they are told.
    ghost fetched: { Self → Option (List (List ℕ)) };

    /// How many calls failed.
    ghost faults: { Self → ℕ };

    /// The bytes under a name, of which there are at most `limit`. `Failed` comes where the input
    /// was not read, and `Long` where it has more bytes. A call that finds too little memory is not
    /// among the told names.
    fn fetch(&mut self, alloc: Global, name: &str, limit: u64) -> Result<List<u8>, FetchFault>
        ensures bound { IfOk result (λ bytes. length bytes ≤ limit) }
        ensures answers { IfSome (held self.old)
            (λ files. FetchAnswers (bytes_at files name.now) limit result) }
        ensures tells { FetchTells (fetched self.old) (fetched self.new) name.now result }
        ensures counts { FetchCounts (faults self.old) (faults self.new) result }
        ensures same { held self.new ≡ held self.old };

    /// The bytes and the names are both told, or neither.
    ghost both: { (inputs : Self) → is_some (held inputs) ≡ is_some (fetched inputs) };
}
