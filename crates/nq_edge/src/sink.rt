// What is written.
ghost use Rattle.std.specs.Prelude.{◌≡◌, [], List, ℕ, IsOk, Option};
ghost use Rattle.nq_edge.specs.Edge.{PutAppends, PutCounts};

/// Why a put did not take all bytes.
#[derive(Clone, Copy, Debug, PartialEq, Eq)]
pub enum PutFault {
    /// Some of the bytes were not taken.
    Failed,
}

/// What is written. Whether it tells its bytes never changes.
pub trait Sink {
    /// The bytes so far, where they are told.
    ghost written: { Self → Option (List ℕ) };

    /// How many puts failed.
    ghost faults: { Self → ℕ };

    /// Appends all the bytes, or fails after a prefix of them. It takes no memory.
    fn put(&mut self, bytes: &[u8]) -> Result<(), PutFault>
        ensures appends { PutAppends (written self.old) (written self.new) bytes.now result }
        ensures counts { PutCounts (faults self.old) (faults self.new) result }
        ensures nothing { bytes.now ≡ [] → IsOk result };
}
