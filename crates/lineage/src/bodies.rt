// Bodies of traced forms.
ghost use Rattle.std.specs.Prelude.{◌≡◌, ◌++◌, [], IfOk, OnOk, map, option_copied};
ghost use Rattle.nq_ir.specs.Trees.{body_tree, comp_part};
ghost use Rattle.lineage.specs.Places.{lent, under, bodies_view};
ghost use Rattle.lineage.specs.TraceForms.{
  int_body,
  number_body,
  number_bodies,
  row_fields,
  whole_body,
  body_traced,
  part_traced,
};

use crate::fields::{TAG, WHOLE, in_label_order, row_label};
use crate::places::{inside, under, width};
use crate::types::{type_traced, with_numbers};
use nq_ir::{Base, Body, Comp, Gen, Normal, copy_conds, copy_gens};
use nq_model::{Label, List, Memory};
use std::alloc::Global;

/// The column in which a row has its number.
pub(crate) const NUMBER: &str = "#";

// A number. No form has so many comprehensions that one of their tags is above 2^63 - 1.
#[tactic(auto, using(nq_ir::proofs::Forms::body_plain, nq_ir::proofs::Forms::base_int))]
fn int_body(number: u64) -> Result<Body, Memory>
    ensures { IfOk result (λ body. body_tree body ≡ int_body number) }
{
    match i64::try_from(number) {
        Ok(number) => Ok(Body::Plain(Base::Int(number))),
        Err(_) => Err(Memory),
    }
}

// The number of the row at which a generator stands, or 0.
#[tactic(auto, using(nq_ir::proofs::Forms::body_plain, nq_ir::proofs::Forms::base_column))]
fn number_of(alloc: Global, generator: Option<&Gen>) -> Result<Body, Memory>
    ensures { IfOk result (λ body. body_tree body ≡ number_body (option_copied generator.entry)) }
{
    match generator {
        Some(generator) => Ok(Body::Plain(Base::Column {
            generator: generator.number,
            column: Label::from_str(alloc, NUMBER)?,
        })),
        None => int_body(0),
    }
}

// Puts so many numbers at the end: those of the rows of these generators, and then 0.
fn push_numbers(
    alloc: Global,
    count: usize,
    gens: &[Gen],
    fields: &mut Vec<(Label, Body)>,
) -> Result<(), Memory>
    ensures { OnOk result (bodies_view fields.new.items
        ≡ bodies_view fields.old.items ++ row_fields 1 (number_bodies count gens.now) []) }
{
    for place in 0..count {
        let number = number_of(alloc, gens.get(place))?;
        fields.push((row_label(alloc, place + 1)?, number))?;
    }
    Ok(())
}

// The body of a comprehension with this tag and these generators.
#[tactic(auto, using(nq_ir::proofs::Forms::body_rec))]
fn whole_body(
    alloc: Global,
    count: usize,
    tag: u64,
    gens: &[Gen],
    body: Body,
) -> Result<Body, Memory>
    ensures { IfOk result
        (λ made. body_tree made ≡ whole_body count tag gens.now (body_tree body)) }
{
    let mut fields = Vec::new(alloc);
    fields.push((Label::from_str(alloc, TAG)?, int_body(tag)?))?;
    push_numbers(alloc, count, gens, &mut fields)?;
    fields.push((Label::from_str(alloc, WHOLE)?, body))?;
    Ok(Body::Rec(in_label_order(fields)?))
}

// The traced body, where these bodies stand at its place.
#[cycle(bodies)]
#[tactic(auto, using(crate::proofs::Views::listed_forms))]
fn body_traced(alloc: Global, body: &Body, here: &[&Body]) -> Result<Body, Memory>
    ensures { IfOk result
        (λ made. body_tree made ≡ body_traced (lent here.now) (body_tree body.now)) }
{
    match body {
        Body::Plain(base) => Ok(Body::Plain(base.copy(alloc)?)),
        Body::Rec(fields) => Ok(Body::Rec(bodies_traced(alloc, fields.as_slice(), here)?)),
        Body::Bag(bag) => {
            let inner = inside(alloc, here)?;
            let count = width(here);
            let value = type_traced(alloc, &bag.element, inner.as_slice())?;
            Ok(Body::Bag(Normal {
                element: with_numbers(alloc, count, value)?,
                parts: comps_traced(alloc, bag.parts.as_slice(), count, inner.as_slice())?,
            }))
        }
    }
}

#[cycle(bodies)]
fn bodies_traced(
    alloc: Global,
    fields: &[(Label, Body)],
    here: &[&Body],
) -> Result<List<(Label, Body)>, Memory>
    ensures { IfOk result (λ made. bodies_view made ≡ map
        (λ f. (f.0, body_traced (under f.0 (lent here.now)) f.1)) (bodies_view fields.now)) }
{
    let mut made = List::with_capacity(alloc, fields.len())?;
    for field in fields {
        let inner = under(alloc, field.0.as_str(), here)?;
        let body = body_traced(alloc, &field.1, inner.as_slice())?;
        made.push((field.0.copy(alloc)?, body))?;
    }
    Ok(made)
}

/// The traced comprehensions, where none at their path has more generators, and these are the
/// bodies of all there.
#[cycle(bodies)]
#[tactic(auto, using(nq_ir::proofs::Forms::comp_is))]
pub(crate) fn comps_traced(
    alloc: Global,
    comps: &[Comp],
    count: usize,
    here: &[&Body],
) -> Result<List<Comp>, Memory>
    ensures { IfOk result (λ made. map comp_part made
        ≡ map (part_traced count (lent here.now)) (map comp_part comps.now)) }
{
    let mut made = List::with_capacity(alloc, comps.len())?;
    for comp in comps {
        let body = body_traced(alloc, &comp.body, here)?;
        made.push(Comp {
            tag: comp.tag,
            gens: copy_gens(alloc, comp.gens.as_slice())?,
            conds: copy_conds(alloc, comp.conds.as_slice())?,
            body: whole_body(alloc, count, comp.tag, comp.gens.as_slice(), body)?,
        })?;
    }
    Ok(made)
}
