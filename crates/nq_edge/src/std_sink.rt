// A sink over a writer, which does not tell its content.
ghost use Rattle.std.specs.Prelude.{◌≡◌, [], None, IsOk};
ghost use Rattle.nq_edge.specs.Edge.{PutAppends, PutCounts};
ghost use Rattle.nq_edge.specs.Streams.{Writes};

use crate::sink::{PutFault, Sink};
use std::io::Write;

/// A writer, to which all of each piece is written. Nothing is told of its content, and it is not
/// flushed.
#[derive(Drop)]
pub struct StdSink<W: Write + Drop> {
    to: W,
    faults: u64,
}

impl<W: Write + Drop> StdSink<W> {
    ghost use Rattle.nq_edge.specs.StdSink.{sink_writer};

    /// A sink over this writer.
    pub fn new(to: W) -> StdSink<W>
        ensures writer { sink_writer result ≡ to }
        ensures written { ⟦<StdSink<W> as Sink>⟧.written result ≡ None }
        ensures faults { ⟦<StdSink<W> as Sink>⟧.faults result ≡ 0 }
    {
        StdSink { to, faults: 0 }
    }
}

// Writes all of the bytes, or fails after a prefix of them.
fn write_whole<W: Write>(to: &mut W, bytes: &[u8]) -> Result<(), PutFault>
    ensures writes { Writes (W.contents to.old) (W.contents to.new) bytes.now result }
    ensures nothing { bytes.now ≡ [] → IsOk result }
{
    let mut rest = bytes;
    'writes: while !rest.is_empty() {
        match to.write(rest) {
            Ok(0) | Err(_) => return Err(PutFault::Failed),
            Ok(count) => rest = &rest[count..],
        }
    }
    Ok(())
}

impl<W: Write + Drop> Sink for StdSink<W> {
    ghost use Rattle.nq_edge.specs.StdSink.{sink_writer, sink_faults};

    ghost written = { λ _. None };

    ghost faults = { sink_faults };

    fn put(&mut self, bytes: &[u8]) -> Result<(), PutFault>
        ensures appends { PutAppends None None bytes.now result }
        ensures counts { PutCounts (sink_faults self.old) (sink_faults self.new) result }
        ensures nothing { bytes.now ≡ [] → IsOk result }

        // What the writer took, where it tells that.
        ensures writes { Writes (W.contents (sink_writer self.old))
            (W.contents (sink_writer self.new)) bytes.now result }
    {
        let result = write_whole(&mut self.to, bytes);
        if result.is_err() {
            self.faults = self.faults.saturating_add(1);
        }
        result
    }
}
