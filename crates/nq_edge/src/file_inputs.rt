// Inputs over files, which do not tell their content.
ghost use Rattle.std.specs.Prelude.{◌≡◌, ◌≤◌, ◌+◌, length, IfOk, IfSome, None, Some, refl};
ghost use Rattle.nq_edge.specs.Edge.{FetchAnswers};
ghost use Rattle.nq_edge.specs.Streams.{LosesAtMost};

use crate::inputs::{FetchFault, Inputs};
use nq_model::List;
use std::alloc::Global;
use std::fs;
use std::io::Read;
use std::rt::Files;

// How many bytes one read asks for at most.
const CHUNK: usize = 8192;

/// Files, each read whole at a fetch. Nothing is told of their content.
#[derive(Drop)]
pub struct FileInputs<'a, R: Files> {
    rt: &'a R,
    faults: u64,
}

impl<'a, R: Files> FileInputs<'a, R> {
    /// The files that the runtime reaches, by their paths.
    pub fn new(rt: &'a R) -> FileInputs<'a, R>
        ensures held { ⟦<FileInputs<'a, R> as Inputs>⟧.held result ≡ None }
        ensures fetched { ⟦<FileInputs<'a, R> as Inputs>⟧.fetched result ≡ None }
        ensures faults { ⟦<FileInputs<'a, R> as Inputs>⟧.faults result ≡ 0 }
    {
        FileInputs { rt, faults: 0 }
    }
}

// Reads a source to its end, or to one byte more than the limit. A read that is interrupted has
// failed.
fn read_up_to<F: Read>(alloc: Global, source: &mut F, limit: u64) -> Result<List<u8>, FetchFault>
    ensures bound { IfOk result (λ bytes. length bytes ≤ limit) }
    ensures answers { IfSome (F.remaining source.old)
        (λ bytes. FetchAnswers (Some bytes) limit result) }
    ensures takes { LosesAtMost (limit + 1) (F.remaining source.old) (F.remaining source.new) }
{
    let mut bytes = List::new(alloc);
    let mut buffer = [0u8; CHUNK];
    'reads: while bytes.len() as u64 <= limit {
        let left = limit - bytes.len() as u64;
        let room = if left < CHUNK as u64 {
            left as usize + 1
        } else {
            CHUNK
        };
        let Ok(count) = source.read(&mut buffer[..room]) else {
            return Err(FetchFault::Failed);
        };
        if count == 0 {
            return Ok(bytes);
        }
        bytes.extend_from_slice(&buffer[..count])?;
    }
    Err(FetchFault::Long)
}

impl<R: Files> Inputs for FileInputs<'_, R> {
    ghost use Rattle.nq_edge.specs.FileInputs.{file_faults};

    ghost held = { λ _. None };

    ghost fetched = { λ _. None };

    ghost faults = { file_faults };

    ghost both = { λ _. refl };

    fn fetch(&mut self, alloc: Global, name: &str, limit: u64) -> Result<List<u8>, FetchFault> {
        let answer = match fs::open(self.rt, name) {
            Ok(mut file) => read_up_to(alloc, &mut file, limit),
            Err(_) => Err(FetchFault::Failed),
        };
        if let Err(FetchFault::Failed) = answer {
            self.faults = self.faults.saturating_add(1);
        }
        answer
    }
}
