// Inputs in memory, some of whose calls fail.
ghost use Rattle.std.specs.Prelude.{◌≡◌, ◌≤◌, ◌++◌, ◌∷◌, [], length, map, IfOk, OnErr, OnOk, Some, refl, option_copied};
ghost use Rattle.nq_model.specs.Orders.{AreDistinct};
ghost use Rattle.nq_edge.specs.Edge.{bytes_at, FetchCounts, FetchTells, FetchAnswers};

use crate::inputs::{FetchFault, Inputs};
use failing_calls::is_next_listed;
use nq_model::{List, Memory, Text};
use std::alloc::Global;

/// Files in memory, some of whose calls fail.
#[derive(Drop)]
pub struct HeldInputs {
    files: List<(Text, List<u8>)>,
    failing: List<u64>,
    fetched: List<Text>,
    faults: u64,
}

impl HeldInputs {
    ghost use Rattle.failing_calls.specs.Calls.{FailsWhere};
    ghost use Rattle.nq_edge.specs.HeldInputs.{held_files, held_failing, fails_next, is_failure};

    /// Inputs that hold these files. The calls with these numbers fail, and so do those with a name
    /// that is not held; no other call fails. Calls are counted from 1. One that finds too little
    /// memory, or that comes after call 2^64 - 1, takes no number.
    pub fn new(
        alloc: Global,
        files: List<(Text, List<u8>)>,
        failing: List<u64>,
    ) -> Result<HeldInputs, Memory>
        requires { AreDistinct (map (λ file. file.0) files) }
        ensures held { IfOk result (λ inputs. ⟦<HeldInputs as Inputs>⟧.held inputs ≡ Some files) }
        ensures fetched { IfOk result
            (λ inputs. ⟦<HeldInputs as Inputs>⟧.fetched inputs ≡ Some []) }
        ensures faults { IfOk result (λ inputs. ⟦<HeldInputs as Inputs>⟧.faults inputs ≡ 0) }
        ensures failing { IfOk result (λ inputs. held_failing inputs ≡ failing) }
    {
        Ok(HeldInputs {
            files,
            failing,
            fetched: List::new(alloc),
            faults: 0,
        })
    }

    // What the next call answers.
    fn answer(&self, alloc: Global, name: &str, limit: u64) -> Result<List<u8>, FetchFault>
        ensures bound { IfOk result (λ bytes. length bytes ≤ limit) }
        ensures right { FetchAnswers (bytes_at (held_files self.now) name.now) limit result }
        ensures failed { FailsWhere is_failure (fails_next self.now name.now) result }
    {
        if is_next_listed(self.failing.as_slice(), self.fetched.len() as u64) {
            return Err(FetchFault::Failed);
        }
        match bytes_under(self.files.as_slice(), name) {
            None => Err(FetchFault::Failed),
            Some(bytes) => {
                if bytes.len() as u64 > limit {
                    return Err(FetchFault::Long);
                }
                Ok(List::from_slice(alloc, bytes.as_slice())?)
            }
        }
    }

    // Notes the name of a call.
    fn note(&mut self, alloc: Global, name: &str) -> Result<(), Memory>
        ensures ok { OnOk result
            (self.new ≡ record self.old { fetched = self.old.fetched ++ name.now ∷ [] }) }
        ensures err { OnErr result (self.new ≡ self.old) }
    {
        let copy = Text::from_str(alloc, name)?;
        self.fetched.push(copy)
    }
}

// The bytes under a name.
fn bytes_under<'a>(files: &'a [(Text, List<u8>)], name: &str) -> Option<&'a List<u8>>
    ensures { option_copied result ≡ bytes_at files.now name.now }
{
    files
        .iter()
        .find(|file| file.0.as_str() == name)
        .map(|file| &file.1)
}

impl Inputs for HeldInputs {
    ghost use Rattle.failing_calls.specs.Calls.{FailsWhere};
    ghost use Rattle.nq_edge.specs.HeldInputs.{held_files, held_failing, held_fetched, held_faults, fails_next, is_failure};

    ghost held = { λ inputs. Some (held_files inputs) };

    ghost fetched = { λ inputs. Some (held_fetched inputs) };

    ghost faults = { held_faults };

    ghost both = { λ _. refl };

    fn fetch(&mut self, alloc: Global, name: &str, limit: u64) -> Result<List<u8>, FetchFault>
        ensures bound { IfOk result (λ bytes. length bytes ≤ limit) }
        ensures answers { FetchAnswers (bytes_at (held_files self.old) name.now) limit result }
        ensures tells { FetchTells (Some (held_fetched self.old)) (Some (held_fetched self.new))
            name.now result }
        ensures counts { FetchCounts (held_faults self.old) (held_faults self.new) result }
        ensures same { held_files self.new ≡ held_files self.old }

        // Which calls fail, so that a test can tell.
        ensures failed { FailsWhere is_failure (fails_next self.old name.now) result }
        ensures failing { held_failing self.new ≡ held_failing self.old }
    {
        match self.answer(alloc, name, limit) {
            Ok(bytes) => {
                self.note(alloc, name)?;
                Ok(bytes)
            }
            Err(FetchFault::Memory) => Err(FetchFault::Memory),
            Err(FetchFault::Failed) => {
                self.note(alloc, name)?;
                self.faults = self.faults.saturating_add(1);
                Err(FetchFault::Failed)
            }
            Err(FetchFault::Long) => {
                self.note(alloc, name)?;
                Err(FetchFault::Long)
            }
        }
    }
}
