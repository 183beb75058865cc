// Bodies that stand at one place of a form.
ghost use Rattle.std.specs.Prelude.{◌≡◌, ◌++◌, IfOk, OnOk, max, map};
ghost use Rattle.nq_ir.specs.Trees.{comps_of, comp_part, body_tree, bodies_of};
ghost use Rattle.lineage.specs.Places.{
  lent,
  bodies_view,
  inside,
  under,
  body_under,
  field_body,
  width,
  tags_in,
  own_bodies,
  own_tags,
  most_gens,
  comps_in,
};

use nq_ir::{Body, Comp};
use nq_model::{Label, Memory};
use std::alloc::Global;

/// The bodies of the comprehensions in the bags.
pub(crate) fn inside<'a>(alloc: Global, bodies: &[&'a Body]) -> Result<Vec<&'a Body>, Memory>
    ensures { IfOk result (λ inner. lent inner.items ≡ inside (lent bodies.now)) }
{
    let mut inner = Vec::new(alloc);
    for body in bodies {
        push_own(body, &mut inner)?;
    }
    Ok(inner)
}

#[tactic(auto, using(crate::proofs::Views::body_forms))]
fn push_own<'a>(body: &'a Body, inner: &mut Vec<&'a Body>) -> Result<(), Memory>
    ensures { OnOk result (lent inner.new.items
        ≡ lent inner.old.items ++ own_bodies (comps_in (body_tree body.now))) }
{
    match body {
        Body::Bag(bag) => push_bodies(bag.parts.as_slice(), inner),
        Body::Plain(_) | Body::Rec(_) => Ok(()),
    }
}

/// Puts the bodies of comprehensions at the end.
#[tactic(auto, using(nq_ir::proofs::Forms::comp_is))]
pub(crate) fn push_bodies<'a>(comps: &'a [Comp], inner: &mut Vec<&'a Body>) -> Result<(), Memory>
    ensures { OnOk result (lent inner.new.items
        ≡ lent inner.old.items ++ own_bodies (comps_of (map comp_part comps.now))) }
{
    for comp in comps {
        inner.push(&comp.body)?;
    }
    Ok(())
}

/// The bodies under a label of the records.
pub(crate) fn under<'a>(
    alloc: Global,
    label: &str,
    bodies: &[&'a Body],
) -> Result<Vec<&'a Body>, Memory>
    ensures { IfOk result (λ found. lent found.items ≡ under label.now (lent bodies.now)) }
{
    let mut found = Vec::new(alloc);
    for body in bodies {
        push_under(label, body, &mut found)?;
    }
    Ok(found)
}

#[tactic(auto, using(crate::proofs::Views::body_forms))]
fn push_under<'a>(label: &str, body: &'a Body, found: &mut Vec<&'a Body>) -> Result<(), Memory>
    ensures { OnOk result (lent found.new.items
        ≡ lent found.old.items ++ body_under label.now (body_tree body.now)) }
{
    match body {
        Body::Rec(fields) => push_field(label, fields.as_slice(), found),
        Body::Plain(_) | Body::Bag(_) => Ok(()),
    }
}

fn push_field<'a>(
    label: &str,
    fields: &'a [(Label, Body)],
    found: &mut Vec<&'a Body>,
) -> Result<(), Memory>
    ensures { OnOk result (lent found.new.items
        ≡ lent found.old.items
        ++ field_body label.now (bodies_of (bodies_view fields.now))) }
{
    for field in fields {
        if label == field.0.as_str() {
            found.push(&field.1)?;
            return Ok(());
        }
    }
    Ok(())
}

/// The most generators that a comprehension in one of the bags has.
pub(crate) fn width(bodies: &[&Body]) -> usize
    ensures { result ≡ width (lent bodies.now) }
{
    let mut most = 0;
    for body in bodies {
        most = most.max(gens_in(body));
    }
    most
}

#[tactic(auto, using(crate::proofs::Views::body_forms))]
fn gens_in(body: &Body) -> usize
    ensures { result ≡ most_gens (comps_in (body_tree body.now)) }
{
    match body {
        Body::Bag(bag) => most_gens(bag.parts.as_slice()),
        Body::Plain(_) | Body::Rec(_) => 0,
    }
}

/// The most generators that one of the comprehensions has.
#[tactic(auto, using(nq_ir::proofs::Forms::comp_is))]
pub(crate) fn most_gens(comps: &[Comp]) -> usize
    ensures { result ≡ most_gens (comps_of (map comp_part comps.now)) }
{
    let mut most = 0;
    for comp in comps {
        most = most.max(comp.gens.len());
    }
    most
}

/// The tags of the comprehensions in the bags.
pub(crate) fn tags_in(alloc: Global, bodies: &[&Body]) -> Result<Vec<u64>, Memory>
    ensures { IfOk result (λ tags. tags.items ≡ tags_in (lent bodies.now)) }
{
    let mut tags = Vec::new(alloc);
    for body in bodies {
        push_tags_in(body, &mut tags)?;
    }
    Ok(tags)
}

#[tactic(auto, using(crate::proofs::Views::body_forms))]
fn push_tags_in(body: &Body, tags: &mut Vec<u64>) -> Result<(), Memory>
    ensures { OnOk result (tags.new.items
        ≡ tags.old.items ++ own_tags (comps_in (body_tree body.now))) }
{
    match body {
        Body::Bag(bag) => push_tags(bag.parts.as_slice(), tags),
        Body::Plain(_) | Body::Rec(_) => Ok(()),
    }
}

/// Puts the tags of comprehensions at the end.
#[tactic(auto, using(nq_ir::proofs::Forms::comp_is))]
pub(crate) fn push_tags(comps: &[Comp], tags: &mut Vec<u64>) -> Result<(), Memory>
    ensures { OnOk result (tags.new.items
        ≡ tags.old.items ++ own_tags (comps_of (map comp_part comps.now))) }
{
    for comp in comps {
        tags.push(comp.tag)?;
    }
    Ok(())
}
