// The numbers of the generators in scope.
ghost use Rattle.std.specs.Prelude.{◌≡◌, IfOk, get_or};
ghost use Rattle.normalise.specs.Numbers.{numbers, without};

use crate::raw_copy::{index_under, plus};
use nq_model::Memory;

/// The numbers of the generators in scope, of which those of one comprehension follow one another.
/// `Without` leaves out `count` numbers behind the first `from`.
#[derive(Clone, Copy)]
pub(crate) enum Numbers<'a> {
    Top,
    Dealt {
        first: u64,
        count: u64,
        outer: &'a Numbers<'a>,
    },
    Without {
        from: u64,
        count: u64,
        outer: &'a Numbers<'a>,
    },
}

impl<'a> Numbers<'a> {
    /// The numbers without `count` of them behind the first `from`.
    pub(crate) fn without(&self, count: u64, from: u64) -> Numbers
        ensures { numbers result ≡ without count from (numbers self.now) }
    {
        if count == 0 {
            *self
        } else {
            Numbers::Without {
                from,
                count,
                outer: self,
            }
        }
    }

    /// The number of the generator with so many between, or 0 where there is none, as in no typed
    /// term.
    pub(crate) fn at(&self, back: u64) -> Result<u64, Memory>
        ensures { IfOk result (λ n. n ≡ get_or (numbers self.now) back 0) }
    {
        match self {
            Numbers::Top => Ok(0),
            Numbers::Dealt {
                first,
                count,
                outer,
            } => {
                if back < *count {
                    plus(*first, *count - 1 - back)
                } else {
                    outer.at(back - *count)
                }
            }
            Numbers::Without { from, count, outer } => {
                outer.at(index_under(back, *count, *from)?)
            }
        }
    }
}
