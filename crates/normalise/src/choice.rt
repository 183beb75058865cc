// The choice between two bodies of one shape.
ghost use Rattle.std.specs.Prelude.{◌≡◌, IfOk, MatchOption};
ghost use Rattle.nq_ir.specs.RawForms.{choice, choice_of_fields, raw_bag, raw_plain};
ghost use Rattle.normalise.specs.Raw.{moved_base, moved_body, raw_body, raw_comps, raw_fields_of};

use crate::comps::{append, guarded, reversed};
use crate::moved::{choose, negation};
use crate::raw::{MovedBase, MovedBody, RawBody, RawComp};
use nq_model::{Label, List, Memory};
use std::alloc::Global;

/// The choice between two bodies, whose parts are shared and not copied.
#[cycle(choice)]
#[inline(never)]
pub(crate) fn chosen(
    alloc: Global,
    test: &MovedBase,
    yes: MovedBody,
    no: MovedBody,
) -> Result<MovedBody, Memory>
    ensures { IfOk result (λ r.
        moved_body r ≡ choice (moved_base test.now) (moved_body yes) (moved_body no)) }
{
    let yes = yes.opened(alloc)?;
    let no = no.opened(alloc)?;
    MovedBody::new(alloc, choice(alloc, test, yes, no)?)
}

// Of two bodies of one shape: a choice at each base part; and for each bag the comprehensions of
// `yes` under the test, and then those of `no` under its negation.
#[cycle(choice)]
fn choice(alloc: Global, test: &MovedBase, yes: RawBody, no: RawBody) -> Result<RawBody, Memory>
    ensures { IfOk result (λ r.
        raw_body r ≡ choice (moved_base test.now) (raw_body yes) (raw_body no)) }
{
    match yes {
        RawBody::Plain(yes) => plain_choice(alloc, test, yes, no),
        RawBody::Rec(yes) => match no {
            RawBody::Rec(no) => {
                let fields = fields_choice(alloc, test, yes, no)?;
                Ok(RawBody::Rec(fields))
            }
            RawBody::Plain(_) | RawBody::Bag(_) => Ok(RawBody::Rec(yes)),
        },
        RawBody::Bag(yes) => bag_choice(alloc, test, yes, no),
    }
}

// The fields stand in the same order in both.
#[cycle(choice)]
fn fields_choice(
    alloc: Global,
    test: &MovedBase,
    yes: List<(Label, MovedBody)>,
    no: List<(Label, MovedBody)>,
) -> Result<List<(Label, MovedBody)>, Memory>
    ensures { IfOk result (λ fs.
        raw_fields_of fs ≡ choice_of_fields (moved_base test.now) (raw_fields_of yes)
        (raw_fields_of no)) }
{
    let mut right = reversed(no);
    let mut all = List::with_capacity(alloc, yes.len())?;
    for field in yes.into_vec() {
        all.push(field_choice(alloc, test, field, right.pop())?)?;
    }
    Ok(all)
}

#[cycle(choice)]
fn field_choice(
    alloc: Global,
    test: &MovedBase,
    yes: (Label, MovedBody),
    no: Option<(Label, MovedBody)>,
) -> Result<(Label, MovedBody), Memory>
    ensures { IfOk result (λ r. (r.0 ≡ yes.0) × MatchOption no (moved_body r.1 ≡ moved_body yes.1)
        (λ f. moved_body r.1 ≡ choice (moved_base test.now) (moved_body yes.1) (moved_body f.1))) }
{
    match no {
        Some((_, no)) => {
            let (label, yes) = yes;
            Ok((label, chosen(alloc, test, yes, no)?))
        }
        None => Ok(yes),
    }
}

fn plain_choice(
    alloc: Global,
    test: &MovedBase,
    yes: MovedBase,
    no: RawBody,
) -> Result<RawBody, Memory>
    ensures { IfOk result (λ r.
        raw_body r ≡ choice (moved_base test.now) (raw_plain (moved_base yes)) (raw_body no)) }
{
    match no {
        RawBody::Plain(no) => Ok(RawBody::Plain(choose(alloc, test.shared()?, yes, no)?)),
        RawBody::Rec(_) | RawBody::Bag(_) => Ok(RawBody::Plain(yes)),
    }
}

fn bag_choice(
    alloc: Global,
    test: &MovedBase,
    yes: List<RawComp>,
    no: RawBody,
) -> Result<RawBody, Memory>
    ensures { IfOk result (λ r.
        raw_body r ≡ choice (moved_base test.now) (raw_bag (raw_comps yes)) (raw_body no)) }
{
    match no {
        RawBody::Bag(no) => {
            let yes = guarded(alloc, test.shared()?, yes)?;
            let negated = negation(alloc, test.shared()?)?;
            let no = guarded(alloc, negated, no)?;
            Ok(RawBody::Bag(append(yes, no)?))
        }
        RawBody::Plain(_) | RawBody::Rec(_) => Ok(RawBody::Bag(yes)),
    }
}
