// Bodies that are shared, and moved under more generators without a walk over them.
ghost use Rattle.std.specs.Prelude.{◌≡◌, IfOk, map};
ghost use Rattle.nq_ir.specs.RawForms.{up_body};
ghost use Rattle.normalise.specs.Raw.{comp_part, fields_view, moved_body, raw_body, up_comp};

use crate::depth::{body_depth, deepest};
use crate::raw::{MovedBody, RawBody, RawComp};
use crate::raw_copy::{conds_under, copy_labels, plus};
use nq_model::{Label, List, Memory};
use std::alloc::Global;
use std::rc::Rc;

impl MovedBody {
    /// A body where it stands.
    pub(crate) fn new(alloc: Global, body: RawBody) -> Result<MovedBody, Memory>
        ensures { IfOk result (λ m. moved_body m ≡ raw_body body) }
    {
        let depth = body_depth(&body)?;
        Ok(MovedBody {
            body: Rc::new(alloc, body)?,
            more: 0,
            from: 0,
            depth,
        })
    }

    /// The same body.
    pub(crate) fn shared(&self) -> Result<MovedBody, Memory>
        ensures { IfOk result (λ m. moved_body m ≡ moved_body self.now) }
    {
        self.moved(self.more, self.from)
    }

    /// The same body under `more` generators, which stand outside the first `from` around it.
    #[cycle(move_body)]
    pub(crate) fn under(&self, alloc: Global, more: u64, from: u64) -> Result<MovedBody, Memory>
        ensures { IfOk result (λ m. moved_body m ≡ up_body more from (moved_body self.now)) }
    {
        if more == 0 {
            self.shared()
        } else if self.more == 0 {
            self.moved(more, from)
        } else if self.from <= from && from - self.from <= self.more {
            // beside or among the generators that it was moved under before
            self.moved(plus(more, self.more)?, self.from)
        } else {
            self.moved_again(alloc, more, from)
        }
    }

    fn moved(&self, more: u64, from: u64) -> Result<MovedBody, Memory>
        ensures { IfOk result (λ m.
            moved_body m ≡ up_body more from (raw_body self.now.body.value)) }
    {
        Ok(MovedBody {
            body: self.body.clone()?,
            more,
            from,
            depth: self.depth,
        })
    }

    // Its parts are moved as it was before.
    #[cycle(move_body)]
    fn moved_again(&self, alloc: Global, more: u64, from: u64) -> Result<MovedBody, Memory>
        ensures { IfOk result (λ m. moved_body m ≡ up_body more from (moved_body self.now)) }
    {
        let body = body_under(alloc, &self.body, self.more, self.from)?;
        let depth = body_depth(&body)?;
        Ok(MovedBody {
            body: Rc::new(alloc, body)?,
            more,
            from,
            depth,
        })
    }

    /// The body with its parts moved as it is. No part is copied, and none is walked.
    pub(crate) fn opened(self, alloc: Global) -> Result<RawBody, Memory>
        ensures { IfOk result (λ b. raw_body b ≡ moved_body self) }
    {
        let MovedBody {
            body,
            more,
            from,
            ..
        } = self;
        if more == 0 {
            match Rc::try_unwrap(body) {
                Ok(body) => Ok(body),
                Err(shared) => body_under(alloc, &shared, 0, 0),
            }
        } else {
            body_under(alloc, &body, more, from)
        }
    }
}

// The parts of a body, under `more` generators, which stand outside the first `from` around it.
#[cycle(move_body)]
fn body_under(alloc: Global, body: &RawBody, more: u64, from: u64) -> Result<RawBody, Memory>
    ensures { IfOk result (λ b. raw_body b ≡ up_body more from (raw_body body.now)) }
{
    match body {
        RawBody::Plain(base) => Ok(RawBody::Plain(base.under(alloc, more, from)?)),
        RawBody::Rec(fields) => {
            let fields = fields_under(alloc, fields.as_slice(), more, from)?;
            Ok(RawBody::Rec(fields))
        }
        RawBody::Bag(comps) => {
            let comps = comps_under(alloc, comps.as_slice(), more, from)?;
            Ok(RawBody::Bag(comps))
        }
    }
}

#[cycle(move_body)]
fn fields_under(
    alloc: Global,
    fields: &[(Label, MovedBody)],
    more: u64,
    from: u64,
) -> Result<List<(Label, MovedBody)>, Memory>
    ensures { IfOk result (λ moved. fields_view moved ≡ map
        (λ f. (f.0, up_body more from f.1)) (fields_view fields.now)) }
{
    let mut moved = List::with_capacity(alloc, fields.len())?;
    for field in fields {
        let label = field.0.copy(alloc)?;
        let body = field.1.under(alloc, more, from)?;
        moved.push((label, body))?;
    }
    Ok(moved)
}

#[cycle(move_body)]
fn comps_under(
    alloc: Global,
    comps: &[RawComp],
    more: u64,
    from: u64,
) -> Result<List<RawComp>, Memory>
    ensures { IfOk result (λ moved.
        map comp_part moved ≡ map (up_comp more from) (map comp_part comps.now)) }
{
    let mut moved = List::with_capacity(alloc, comps.len())?;
    for comp in comps {
        moved.push(comp_under(alloc, comp, more, from)?)?;
    }
    Ok(moved)
}

#[cycle(move_body)]
#[tactic(auto, using(crate::proofs::Views::comp_is))]
fn comp_under(alloc: Global, comp: &RawComp, more: u64, from: u64) -> Result<RawComp, Memory>
    ensures { IfOk result (λ moved. comp_part moved ≡ up_comp more from (comp_part comp.now)) }
{
    let inner = plus(comp.tables.len() as u64, from)?;
    let tables = copy_labels(alloc, comp.tables.as_slice())?;
    let conds = conds_under(alloc, comp.conds.as_slice(), more, inner)?;
    let deepest = deepest(conds.as_slice());
    let body = comp.body.under(alloc, more, inner)?;
    Ok(RawComp {
        tables,
        conds,
        deepest,
        body,
    })
}
