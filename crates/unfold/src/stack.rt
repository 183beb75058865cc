// How much of the stack unfolding may take. The stack is memory: where too little is left,
// memory has run out.
//
// The frames are those of the program as LLVM builds it for x86-64, read from its code and rounded
// up. A main thread has 8 MiB, 8,388,608 bytes. Beside the walks, at their deepest, a value may be
// copied, or moved under binders: 624 or 720 bytes for each of the nodes that stand in one another,
// at most `DEEPEST_BUILT`.
ghost use Rattle.std.specs.Prelude.{◌≡◌, ◌+◌, IfOk};

use nq_model::Memory;

/// The bytes that the walks may take together. With 2,160,000 for a value, 7,660,000 of the stack
/// are in use.
pub(crate) const ROOM: u64 = 5_500_000;

/// `walk` with the largest of the calls that lie between it and the next one.
pub(crate) const WALK: u64 = 2_300;

/// `substitute` with the largest of the calls that lie between it and the next one.
pub(crate) const SUBSTITUTE: u64 = 1_600;

pub(crate) const APPLY: u64 = 900;

pub(crate) const APPLY_BRANCHES: u64 = 1_500;

/// `walk_parts` or `substitute_apply`.
pub(crate) const ARGUMENT: u64 = 800;

pub(crate) const BIND: u64 = 1_000;

pub(crate) const FIELD: u64 = 1_500;

/// What is left of the room after a call that takes so many bytes.
///
/// It is asked for while a term is whole. What takes the term apart is a function of its own.
pub(crate) fn further(room: u64, frame: u64) -> Result<u64, Memory>
    ensures { IfOk result (λ left. left + frame ≡ room) }
{
    match room.checked_sub(frame) {
        Some(left) => Ok(left),
        None => Err(Memory),
    }
}
