// Fields of bodies.
ghost use Rattle.std.specs.Prelude.{◌≡◌, ◌<◌, IfOk, MatchOption, Some, length, option_map, slice_get};
ghost use Rattle.nq_model.specs.Orders.{by_label};
ghost use Rattle.nq_ir.specs.RawForms.{no_raw_body, raw_field_among, raw_field_in};
ghost use Rattle.normalise.specs.Raw.{fields_view, moved_body, raw_fields_of};

use crate::forms::no_body;
use crate::raw::{MovedBody, RawBody};
use nq_model::{Label, List, Memory};
use std::alloc::Global;

/// The fields in the byte order of their labels; of equal labels the earlier field first.
pub(crate) fn in_label_order(
    fields: List<(Label, MovedBody)>,
) -> Result<List<(Label, MovedBody)>, Memory>
    ensures { IfOk result (λ sorted. fields_view sorted ≡ by_label (fields_view fields)) }
{
    let mut sorted = fields.into_vec();
    sorted.sort_by(|left, right| left.0.as_str().cmp(right.0.as_str()))?;
    Ok(List::from_vec(sorted))
}

/// The field of a body; FALSE where there is none, as in no typed term.
#[inline(never)]
#[tactic(auto, using(crate::proofs::Views::moved_body_is, crate::proofs::Views::body_plain, crate::proofs::Views::body_bag))]
pub(crate) fn field_in(alloc: Global, label: &Label, body: &MovedBody) -> Result<MovedBody, Memory>
    ensures { IfOk result (λ b. moved_body b ≡ raw_field_in label.now (moved_body body.now)) }
{
    match &*body.body {
        RawBody::Rec(fields) => {
            let fields = fields.as_slice();
            match find(fields, label) {
                Some(at) => fields[at].1.under(alloc, body.more, body.from),
                None => no_body(alloc),
            }
        }
        RawBody::Plain(_) | RawBody::Bag(_) => no_body(alloc),
    }
}

// Where the first field of that label stands.
fn find(fields: &[(Label, MovedBody)], label: &Label) -> Option<usize>
    ensures { MatchOption result (raw_field_among label.now (raw_fields_of fields.now)
        ≡ no_raw_body) (λ i. (i < length fields.now)
        × (Some (raw_field_among label.now (raw_fields_of fields.now)) ≡ option_map
        (λ f. moved_body f.1) (slice_get fields.now i))) }
{
    for i in 0..fields.len() {
        if label.as_str() == fields[i].0.as_str() {
            return Some(i);
        }
    }
    None
}
