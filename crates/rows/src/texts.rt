// Texts that take little memory: their bytes stand in one list.
ghost use Rattle.std.specs.Prelude.{◌≡◌, ◌≤◌, ◌<◌, ◌++◌, [], ◌∷◌, IfOk};
ghost use Rattle.std.specs.Prelude.{OnOk, OnErr, length, slice_index_or, slice_range};
ghost use Rattle.std.specs.Str.{IsUtf8};
ghost use Rattle.rows.specs.Packed.{start_of};

use nq_model::Memory;
use std::alloc::Global;
use std::marker::Model;
use std::str;

// Where the piece of this number begins.
fn start_of(ends: &[u32], at: usize) -> usize
    requires { at ≤ length ends.now }
    ensures { result ≡ start_of ends.now at }
{
    if at == 0 {
        return 0;
    }
    ends[at - 1] as usize
}

// A place as it is held. Fails where it is past the greatest that can be held.
fn place(at: usize) -> Result<u32, Memory>
    ensures { IfOk result (λ held. held ≡ at) }
{
    if at > u32::MAX as usize {
        return Err(Memory);
    }
    Ok(at as u32)
}

// The part of bytes between two places.
fn part(bytes: &[u8], start: usize, end: usize) -> &[u8]
    requires order { start ≤ end }
    requires within { end ≤ length bytes.now }
    ensures { result.now ≡ slice_range bytes.now start end }
{
    &bytes[start..end]
}

// The text that bytes are. They are proved to be UTF-8, and so are not looked through again.
fn text_of(bytes: &[u8]) -> &str
    requires { IsUtf8 bytes.now }
    ensures { result.now ≡ bytes.now }
{
    unsafe { str::from_utf8_unchecked(bytes) }
}

// Texts, seen as the list of them.
#[derive(Drop)]
pub(crate) struct Texts {
    bytes: Vec<u8>,
    ends: Vec<u32>,
}

impl Model for Texts {
    ghost use Rattle.std.specs.Prelude.{List, ℕ, All, length};
    ghost use Rattle.std.specs.Str.{IsUtf8};

    ghost Value = { List (List ℕ) };

    ghost use Rattle.rows.specs.Packed.{pieces, AreEnds};

    ghost view = { λ texts. pieces 0 texts.ends.items texts.bytes.items };

    ghost invariant = { λ texts. AreEnds 0 texts.ends.items (length texts.bytes.items)
        × All IsUtf8 (pieces 0 texts.ends.items texts.bytes.items) };
}

impl Texts {
    pub(crate) fn new(alloc: Global) -> Texts
        ensures { result ≡ [] }
    {
        Texts {
            bytes: Vec::new(alloc),
            ends: Vec::new(alloc),
        }
    }

    pub(crate) fn len(&self) -> usize
        ensures { result ≡ length self.now }
    {
        self.ends.len()
    }

    // The text at a place.
    pub(crate) fn get(&self, at: usize) -> &str
        requires { at < length self.now }
        ensures { result.now ≡ slice_index_or self.now at [] }
    {
        let start = start_of(self.ends.as_slice(), at);
        let end = self.ends[at] as usize;
        text_of(part(self.bytes.as_slice(), start, end))
    }

    // Puts a text at the end. If memory runs out, the texts stay.
    pub(crate) fn push(&mut self, text: &str) -> Result<(), Memory>
        ensures ok { OnOk result (self.new ≡ self.old ++ text.now ∷ []) }
        ensures err { OnErr result (self.new ≡ self.old) }
    {
        let end = place(self.bytes.len().saturating_add(text.len()))?;
        self.bytes.reserve(text.len())?;
        self.ends.push(end)?;
        self.bytes.extend_from_slice(text.as_bytes())?;
        Ok(())
    }
}
