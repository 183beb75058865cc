// A sink in memory.
ghost use Rattle.std.specs.Prelude.{◌≡◌, ◌≤◌, ◌+◌, ◌++◌, ◌↔◌, [], length, IfOk, OnErr, Some, IsOk, vec_len, vec_capacity};
ghost use Rattle.nq_edge.specs.Edge.{PutAppends, PutCounts};

use crate::sink::{PutFault, Sink};
use nq_model::Memory;
use std::alloc::Global;

/// A sink in memory, with room for so many bytes.
#[derive(Drop)]
pub struct HeldSink {
    bytes: Vec<u8>,
    room: usize,
    faults: u64,
    ghost reserved: { room ≤ vec_capacity bytes },
    ghost fits: { vec_len bytes ≤ room },
}

impl HeldSink {
    ghost use Rattle.nq_edge.specs.HeldSink.{sink_bytes, sink_room, sink_faults};

    /// An empty sink, with `room` bytes reserved.
    pub fn new(alloc: Global, room: u64) -> Result<HeldSink, Memory>
        ensures written { IfOk result (λ sink. ⟦<HeldSink as Sink>⟧.written sink ≡ Some []) }
        ensures faults { IfOk result (λ sink. ⟦<HeldSink as Sink>⟧.faults sink ≡ 0) }
        ensures room { IfOk result (λ sink. sink_room sink ≡ room) }
    {
        let room = room as usize;
        Ok(HeldSink {
            bytes: Vec::with_capacity(alloc, room)?,
            room,
            faults: 0,
        })
    }

    /// The bytes so far.
    pub fn bytes(&self) -> &[u8]
        ensures { result.now ≡ sink_bytes self.now }
    {
        self.bytes.as_slice()
    }

    // Takes bytes for which there is room.
    fn take(&mut self, bytes: &[u8])
        requires { length (sink_bytes self.old) + length bytes.now ≤ sink_room self.old }
        ensures bytes { sink_bytes self.new ≡ sink_bytes self.old ++ bytes.now }
        ensures room { sink_room self.new ≡ sink_room self.old }
        ensures faults { sink_faults self.new ≡ sink_faults self.old }
    {
        let result = self.bytes.extend_from_slice(bytes);
        prove!(result.is_ok());
        let _ = result;
    }
}

impl Sink for HeldSink {
    ghost use Rattle.nq_edge.specs.HeldSink.{sink_bytes, sink_room, sink_faults};

    ghost written = { λ sink. Some (sink_bytes sink) };

    ghost faults = { sink_faults };

    fn put(&mut self, bytes: &[u8]) -> Result<(), PutFault>
        ensures appends { PutAppends (Some (sink_bytes self.old)) (Some (sink_bytes self.new))
            bytes.now result }
        ensures counts { PutCounts (sink_faults self.old) (sink_faults self.new) result }
        ensures nothing { bytes.now ≡ [] → IsOk result }

        // It is Ok exactly where the bytes fit, and else appends what fits.
        ensures fits { IsOk result
            ↔ (length (sink_bytes self.old) + length bytes.now ≤ sink_room self.old) }
        ensures full { OnErr result (length (sink_bytes self.new) ≡ sink_room self.old) }
        ensures room { sink_room self.new ≡ sink_room self.old }
    {
        let left = self.room - self.bytes.len();
        if bytes.len() <= left {
            self.take(bytes);
            Ok(())
        } else {
            self.take(&bytes[..left]);
            self.faults = self.faults.saturating_add(1);
            Err(PutFault::Failed)
        }
    }
}
