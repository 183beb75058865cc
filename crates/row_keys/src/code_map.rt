// A map from codes to the places of rows. Most codes stand in a slot of their own and are found at
// once. A code whose slot is taken stands in an ordered map, so that no choice of keys makes the
// look-ups slow.
ghost use Rattle.std.specs.Prelude.{◌≡◌, ◌<◌, ◌==◌, ℕ, cond, length, slice_get, IfOk, IsTrue, OnOk, None, Some};
ghost use Rattle.row_keys.specs.Slots.{is_empty, slot_of, IsSound};

use nq_model::Memory;
use std::alloc::Global;
use std::collections::BTreeMap;

const SLOTS_PER_ROW: usize = 3;

const BYTES_PER_SLOT: usize = 4;

// A code, and the number of its row. Rows are counted from 1, and an empty slot has the number 0.
#[derive(Clone, Copy)]
struct Slot {
    code: u32,
    number: u32,
}

#[derive(Drop)]
pub(crate) struct CodeMap {
    slots: Vec<Slot>,
    crowded: BTreeMap<u32, u32>,
    // A code stands in the ordered map only where its slot is taken.
    ghost sound: { IsSound slots.items crowded },
}

// How many slots the codes of a text's keys get: some for each line, so that most stay empty, but
// no more than for so many bytes, so that lines without a row take little.
pub(crate) fn slots_for(text: &[u8]) -> usize {
    let lines = text.iter().filter(|byte| **byte == b'\n').count();
    slots_for_rows(lines).min(text.len() / BYTES_PER_SLOT)
}

// How many slots the codes of the keys of so many rows get.
pub(crate) fn slots_for_rows(count: usize) -> usize {
    count.saturating_mul(SLOTS_PER_ROW)
}

impl CodeMap {
    ghost use Rattle.row_keys.specs.CodeMaps.{place_under};

    // No place under any code, with so many slots.
    pub(crate) fn new(alloc: Global, count: usize) -> Result<CodeMap, Memory>
        ensures { IfOk result (λ map. (code : ℕ) → place_under map code ≡ None) }
    {
        let mut slots = Vec::new(alloc);
        slots.resize(count, Slot { code: 0, number: 0 })?;
        Ok(CodeMap {
            slots,
            crowded: BTreeMap::new(alloc),
        })
    }

    // The slot in which a code belongs: neighbouring codes have neighbouring slots.
    fn slot_of(&self, code: u32) -> usize
        ensures { result ≡ slot_of (length self.now.slots.items) code }
    {
        code as usize % self.slots.len().max(1)
    }

    // Whether there is such a slot, and it is empty.
    fn is_free(&self, at: usize) -> bool
        ensures empty { result ≡ is_empty (slice_get self.now.slots.items at) }
        ensures within { IsTrue result → at < length self.now.slots.items }
    {
        match self.slots.get(at) {
            Some(slot) => slot.number == 0,
            None => false,
        }
    }

    // The place under a code.
    pub(crate) fn get(&self, code: u32) -> Option<u32>
        ensures { result ≡ place_under self.now code }
    {
        if let Some(slot) = self.slots.get(self.slot_of(code)) {
            if slot.number == 0 {
                return None;
            }
            if slot.code == code {
                return Some(slot.number - 1);
            }
        }
        self.crowded.get(&code).copied()
    }

    // Puts a place under a code that has none.
    #[tactic(auto, using(crate::proofs::CodeMapFacts::slot_rules))]
    pub(crate) fn insert(&mut self, code: u32, place: u32) -> Result<(), Memory>
        ensures { OnOk result (place_under self.old code ≡ None → (other : ℕ)
            → place_under self.new other
            ≡ cond (code == other) (Some place) (place_under self.old other)) }
    {
        let number = place.checked_add(1).ok_or(Memory)?;
        let at = self.slot_of(code);
        if self.is_free(at) {
            self.slots[at] = Slot { code, number };
            return Ok(());
        }
        self.crowded.insert(code, place)?;
        Ok(())
    }
}
