// Integers that take little memory: none while they are one, and then one, four or eight bytes
// each.
ghost use Rattle.std.specs.Prelude.{◌≡◌, ◌-◌, ◌++◌, [], ◌∷◌, IsTrue, IsFalse};
ghost use Rattle.std.specs.Prelude.{OnErr, OnOk, length, slice_get};

use nq_model::Memory;
use std::alloc::Global;
use std::marker::Model;

// Integers, seen as the list of them. The first is not held again while it is repeated; behind
// them, those before the first beyond 8 bits take a byte each, and those before the first beyond 32
// bits four.
#[derive(Drop)]
pub(crate) struct Integers {
    len: usize,
    first: i64,
    times: usize,
    tiny: Vec<i8>,
    small: Vec<i32>,
    wide: Vec<i64>,
}

impl Model for Integers {
    ghost use Rattle.std.specs.Prelude.{List, ℤ, ◌≡◌, ◌+◌, ◌++◌, length, replicate};

    ghost Value = { List ℤ };

    ghost view = { λ integers. replicate integers.times integers.first
        ++ (integers.tiny.items ++ (integers.small.items ++ integers.wide.items)) };

    ghost invariant = { λ integers. integers.len ≡ integers.times
        + length (integers.tiny.items ++ (integers.small.items ++ integers.wide.items)) };
}

// Puts an integer at the end of the list of the fewest bytes that may take it. If memory runs out,
// all lists stay.
fn put(
    tiny: &mut Vec<i8>,
    small: &mut Vec<i32>,
    wide: &mut Vec<i64>,
    integer: i64,
) -> Result<(), Memory>
    ensures ok { OnOk result (tiny.new.items ++ (small.new.items ++ wide.new.items)
        ≡ (tiny.old.items ++ (small.old.items ++ wide.old.items)) ++ integer ∷ []) }
    ensures err { OnErr result (tiny.new.items ++ (small.new.items ++ wide.new.items)
        ≡ tiny.old.items ++ (small.old.items ++ wide.old.items)) }
{
    match i8::try_from(integer) {
        Ok(byte) if small.is_empty() && wide.is_empty() => return Ok(tiny.push(byte)?),
        _ => {}
    }
    match i32::try_from(integer) {
        Ok(half) if wide.is_empty() => Ok(small.push(half)?),
        _ => Ok(wide.push(integer)?),
    }
}

impl Integers {
    // No integers, which take no memory.
    pub(crate) fn new(alloc: Global) -> Integers
        ensures { result ≡ [] }
    {
        Integers {
            len: 0,
            first: 0,
            times: 0,
            tiny: Vec::new(alloc),
            small: Vec::new(alloc),
            wide: Vec::new(alloc),
        }
    }

    // How far a place is behind the last integer.
    pub(crate) fn behind(&self, at: usize) -> usize
        ensures { result ≡ at - length self.now }
    {
        at.saturating_sub(self.len)
    }

    // The integer at a place, if there is one.
    pub(crate) fn get(&self, at: usize) -> Option<i64>
        ensures { result ≡ slice_get self.now at }
    {
        if at >= self.len {
            return None;
        }
        if at < self.times {
            return Some(self.first);
        }
        let at = at - self.times;
        if at < self.tiny.len() {
            return Some(i64::from(self.tiny[at]));
        }
        let at = at - self.tiny.len();
        if at < self.small.len() {
            return Some(i64::from(self.small[at]));
        }
        self.wide.get(at - self.small.len()).copied()
    }

    // Counts the first integer once more, if this is it again and there are no others yet.
    fn repeat(&mut self, integer: i64) -> bool
        ensures put { IsTrue result → (self.new ≡ self.old ++ integer ∷ []) }
        ensures stays { IsFalse result → (self.new ≡ self.old) }
    {
        let Some(times) = self.times.checked_add(1) else {
            return false;
        };
        if self.times > 0 && integer != self.first {
            return false;
        }
        if !(self.tiny.is_empty() && self.small.is_empty() && self.wide.is_empty()) {
            return false;
        }
        self.first = integer;
        self.times = times;
        self.len = times;
        true
    }

    // Puts an integer at the end. If memory runs out, the integers stay.
    pub(crate) fn push(&mut self, integer: i64) -> Result<(), Memory>
        ensures ok { OnOk result (self.new ≡ self.old ++ integer ∷ []) }
        ensures err { OnErr result (self.new ≡ self.old) }
    {
        if self.repeat(integer) {
            return Ok(());
        }
        let Some(len) = self.len.checked_add(1) else {
            return Err(Memory);
        };
        put(&mut self.tiny, &mut self.small, &mut self.wide, integer)?;
        self.len = len;
        Ok(())
    }
}
