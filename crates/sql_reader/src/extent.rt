// How deep parts are.
ghost use Rattle.std.specs.Prelude.{◌≡◌, suc, max, IfOk};

use nq_model::Memory;

// A tree of more levels is not built: whoever goes through it by recursion has a stack of some 8
// MiB.
const MOST_LEVELS: u64 = 2000;

/// How deep a part is in the text, and how many levels of expressions its tree has, where
/// parentheses are none and a chain is one.
#[derive(Clone, Copy)]
pub struct Extent {
    pub depth: u64,
    pub levels: u64,
}

/// That of no part.
pub fn nothing() -> Extent
    ensures { result.depth ≡ 0 }
{
    Extent {
        depth: 0,
        levels: 0,
    }
}

/// That of a part that has no parts.
pub fn flat() -> Extent
    ensures { result.depth ≡ 1 }
{
    Extent {
        depth: 1,
        levels: 1,
    }
}

/// The greater of two.
pub fn greater(one: Extent, other: Extent) -> Extent
    ensures { result.depth ≡ max one.depth other.depth }
{
    Extent {
        depth: one.depth.max(other.depth),
        levels: one.levels.max(other.levels),
    }
}

/// One more; no memory holds a text that is too deep for a `u64`.
pub fn one_more(depth: u64) -> Result<u64, Memory>
    ensures { IfOk result (λ more. more ≡ suc depth) }
{
    match depth.checked_add(1) {
        Some(more) => Ok(more),
        None => Err(Memory),
    }
}

/// That of a part in parentheses, or of a SELECT or a query round its parts.
pub fn enclosed(inner: Extent) -> Result<Extent, Memory>
    ensures { IfOk result (λ whole. whole.depth ≡ suc inner.depth) }
{
    let depth = one_more(inner.depth)?;
    Ok(Extent {
        depth,
        levels: inner.levels,
    })
}

/// That of an expression of its parts; want of memory where its tree has too many levels.
pub fn deeper(inner: Extent) -> Result<Extent, Memory>
    ensures { IfOk result (λ whole. whole.depth ≡ suc inner.depth) }
{
    let depth = one_more(inner.depth)?;
    if inner.levels < MOST_LEVELS {
        Ok(Extent {
            depth,
            levels: inner.levels + 1,
        })
    } else {
        Err(Memory)
    }
}

/// That of a chain with one more part behind it. However long it is, its tree has one level more
/// than its deepest part; want of memory where that is too many.
pub fn longer(chain: Extent, part: Extent) -> Result<Extent, Memory>
    ensures { IfOk result (λ whole. whole.depth ≡ suc (max chain.depth part.depth)) }
{
    let beside = deeper(part)?;
    let depth = one_more(chain.depth.max(part.depth))?;
    Ok(Extent {
        depth,
        levels: chain.levels.max(beside.levels),
    })
}
