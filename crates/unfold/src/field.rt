// Fields of done terms.
ghost use Rattle.std.specs.Prelude.{◌≡◌, IfOk, MatchOption, ◌<◌, length, option_map, slice_get};
ghost use Rattle.nq_model.specs.Terms.{placed, placed_fields, at, PlacedNode};
ghost use Rattle.nq_model.specs.Unfolding.{picked};
ghost use Rattle.unfold.specs.Hereditary.{field_by};

use crate::built::{Built, opened};
use crate::forms::{chosen, of_field};
use crate::stack::{FIELD, further};
use nq_model::{Label, List, Memory, Node, Term};
use std::alloc::Global;

/// What becomes of the field `label` of a done term.
#[cycle(field)]
pub(crate) fn field(
    alloc: Global,
    room: u64,
    place: u64,
    label: Label,
    of: Built<Term>,
) -> Result<Built<Term>, Memory>
    ensures { IfOk result (λ b. placed b.term ≡ field_by place label (placed of.term)) }
{
    let room = further(room, FIELD)?;
    field_of_node(alloc, room, place, label, of)
}

#[cycle(field)]
fn field_of_node(
    alloc: Global,
    room: u64,
    place: u64,
    label: Label,
    of: Built<Term>,
) -> Result<Built<Term>, Memory>
    ensures { IfOk result (λ b. placed b.term ≡ field_by place label (placed of.term)) }
{
    let Built { term, deep } = of;
    let Term { place: own, node } = term;
    match node {
        Node::Rec(fields) => field_of_record(alloc, place, label, own, deep, fields),
        Node::If { test, yes, no } => {
            field_of_choice(alloc, room, place, label, deep, test, yes, no)
        }
        other => of_field(
            alloc,
            place,
            Built {
                term: Term {
                    place: own,
                    node: other,
                },
                deep,
            },
            label,
        ),
    }
}

// A field of a record, whose own place that is.
#[inline(never)]
fn field_of_record(
    alloc: Global,
    place: u64,
    label: Label,
    own: u64,
    deep: u64,
    fields: List<(Label, Term)>,
) -> Result<Built<Term>, Memory>
    ensures { IfOk result (λ b.
        placed b.term ≡ field_by place label (at own (PlacedNode.rec (placed_fields fields)))) }
{
    match find(fields.as_slice(), &label) {
        Some(at) => {
            let mut fields = fields.into_vec();
            let taken = fields.remove(at);
            let (_, found) = taken;
            Ok(Built { term: found, deep })
        }
        None => of_field(
            alloc,
            place,
            Built {
                term: Term {
                    place: own,
                    node: Node::Rec(fields),
                },
                deep,
            },
            label,
        ),
    }
}

// A field of a choice between two done terms, where the choice was `deep` deep.
#[cycle(field)]
#[inline(never)]
fn field_of_choice(
    alloc: Global,
    room: u64,
    place: u64,
    label: Label,
    deep: u64,
    test: Box<Term>,
    yes: Box<Term>,
    no: Box<Term>,
) -> Result<Built<Term>, Memory>
    ensures { IfOk result (λ b.
        placed b.term ≡ at place
        (PlacedNode.choose (placed test.value) (field_by place label (placed yes.value))
        (field_by place label (placed no.value)))) }
{
    let again = label.copy(alloc)?;
    let yes = opened(yes, deep);
    let yes = field(alloc, room, place, again, yes)?;
    let no = opened(no, deep);
    let no = field(alloc, room, place, label, no)?;
    chosen(alloc, place, deep, test, yes, no)
}

/// Where the first field of that label stands.
pub(crate) fn find(fields: &[(Label, Term)], label: &Label) -> Option<usize>
    ensures { MatchOption result (picked label.now (placed_fields fields.now) ≡ None)
        (λ i. (i < length fields.now)
        × (picked label.now (placed_fields fields.now) ≡ option_map
        (λ f. placed f.1) (slice_get fields.now i))) }
{
    for i in 0..fields.len() {
        if label.as_str() == fields[i].0.as_str() {
            return Some(i);
        }
    }
    None
}
