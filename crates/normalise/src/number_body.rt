// The tags and generator numbers of bodies.
ghost use Rattle.std.specs.Prelude.{◌≡◌, ◌+◌, ◌<◌, ◌^◌, ◌≤◌, [], IfOk, OnOk, drop, map};
ghost use Rattle.nq_model.specs.Types.{type_tree, field_types_of, fields_view as types_view};
ghost use Rattle.nq_ir.specs.NormalForms.{element_type, first_type, gens_in_body, gens_in_comps as gens_in_form, number_body, number_comps, tags_in_body, tags_in_comps};
ghost use Rattle.nq_ir.specs.Trees.{body_tree, comp_part as numbered_part, form_tree};
ghost use Rattle.normalise.specs.Raw.{comp_part, fields_view, moved_body, raw_body, raw_comps};
ghost use Rattle.normalise.specs.Numbers.{numbers, comp_numbered, comps_numbered, fields_numbered, tags_in_part, tags_in_parts, tags_in_list, gens_in_comp, gens_in_comps, gens_in_list};

use crate::number_base::{number_conds, number_gens, number_moved};
use crate::numbers::Numbers;
use crate::raw::{MovedBody, RawBody, RawComp};
use crate::raw_copy::plus;
use crate::types::{element_of, fields_in};
use nq_ir::{Body, Comp, Normal};
use nq_model::{Label, List, Memory, Ty};
use std::alloc::Global;

/// The next tag and the next generator number.
#[derive(Clone, Copy)]
struct Next {
    tag: u64,
    number: u64,
}

// Where the next tag or number is at most 2^63, those that are dealt are below it.
fn few(next: u64) -> Result<(), Memory>
    ensures { OnOk result (next ≤ 2 ^ 63) }
{
    if next <= 9_223_372_036_854_775_808 {
        Ok(())
    } else {
        Err(Memory)
    }
}

/// A whole form with tags and numbers from 1 on, of which there are fewer than 2^63; `ty` is the
/// bag of its elements.
pub(crate) fn number_form(alloc: Global, comps: &[RawComp], ty: &Ty) -> Result<Normal, Memory>
    ensures element { IfOk result (λ n. (form_tree n).element ≡ element_type (type_tree ty.now)) }
    ensures comps { IfOk result
        (λ n. (form_tree n).comps
        ≡ number_comps 1 1 [] (element_type (type_tree ty.now)) (raw_comps comps.now)) }
    ensures tags { IfOk result (λ n. tags_in_comps (raw_comps comps.now) < 2 ^ 63) }
    ensures gens { IfOk result (λ n. gens_in_form (raw_comps comps.now) < 2 ^ 63) }
{
    let element = element_of(ty);
    let first = Next { tag: 1, number: 1 };
    let (parts, next) = number_comps(alloc, comps, element, first, &Numbers::Top)?;
    few(next.tag)?;
    few(next.number)?;
    let element = element.copy(alloc)?;
    Ok(Normal { element, parts })
}

/// A body with tags and numbers from `next` on, and those after its last. Each bag takes its
/// element type from the type of the whole.
#[cycle(number_body)]
fn number_body(
    alloc: Global,
    raw: &RawBody,
    ty: &Ty,
    next: Next,
    scope: &Numbers,
) -> Result<(Body, Next), Memory>
    ensures { IfOk result (λ r.
        (body_tree r.0 ≡ number_body next.tag next.number (numbers scope.now) (type_tree ty.now)
        (raw_body raw.now)) × (r.1.tag ≡ next.tag + tags_in_body (raw_body raw.now))
        × (r.1.number ≡ next.number + gens_in_body (raw_body raw.now))) }
{
    match raw {
        RawBody::Plain(base) => {
            let (base, number) = number_moved(alloc, base, next.number, scope)?;
            let next = Next {
                tag: next.tag,
                number,
            };
            Ok((Body::Plain(base), next))
        }
        RawBody::Rec(fields) => {
            let types = fields_in(ty);
            let (fields, next) = number_fields(alloc, fields.as_slice(), types, next, scope)?;
            Ok((Body::Rec(fields), next))
        }
        RawBody::Bag(comps) => {
            let element = element_of(ty);
            let (parts, next) = number_comps(alloc, comps.as_slice(), element, next, scope)?;
            let element = element.copy(alloc)?;
            Ok((Body::Bag(Normal { element, parts }), next))
        }
    }
}

// The same of a body that is moved under more generators: it does not name their numbers.
#[cycle(number_body)]
fn number_moved_body(
    alloc: Global,
    moved: &MovedBody,
    ty: &Ty,
    next: Next,
    scope: &Numbers,
) -> Result<(Body, Next), Memory>
    ensures { IfOk result (λ r.
        (body_tree r.0 ≡ number_body next.tag next.number (numbers scope.now) (type_tree ty.now)
        (moved_body moved.now)) × (r.1.tag ≡ next.tag + tags_in_body (moved_body moved.now))
        × (r.1.number ≡ next.number + gens_in_body (moved_body moved.now))) }
{
    let inner = scope.without(moved.more, moved.from);
    number_body(alloc, &moved.body, ty, next, &inner)
}

#[cycle(number_body)]
fn number_fields(
    alloc: Global,
    fields: &[(Label, MovedBody)],
    types: &[(Label, Ty)],
    first: Next,
    scope: &Numbers,
) -> Result<(List<(Label, Body)>, Next), Memory>
    ensures { IfOk result (λ r.
        (map (λ f. (f.0, body_tree f.1)) r.0
        ≡ fields_numbered first.tag first.number (numbers scope.now)
        (field_types_of (types_view types.now)) (fields_view fields.now))
        × (r.1.tag ≡ first.tag + tags_in_list (fields_view fields.now))
        × (r.1.number ≡ first.number + gens_in_list (fields_view fields.now))) }
{
    let mut numbered = List::with_capacity(alloc, fields.len())?;
    let mut next = first;
    for at in 0..fields.len() {
        let field = &fields[at];
        let label = field.0.copy(alloc)?;
        let (body, after) = number_field(alloc, &field.1, types, at, next, scope)?;
        numbered.push((label, body))?;
        next = after;
    }
    Ok((numbered, next))
}

// A field, and the type at its place.
#[cycle(number_body)]
fn number_field(
    alloc: Global,
    raw: &MovedBody,
    types: &[(Label, Ty)],
    at: usize,
    next: Next,
    scope: &Numbers,
) -> Result<(Body, Next), Memory>
    ensures { IfOk result (λ r.
        (body_tree r.0 ≡ number_body next.tag next.number (numbers scope.now)
        (first_type (field_types_of (types_view (drop at types.now)))) (moved_body raw.now))
        × (r.1.tag ≡ next.tag + tags_in_body (moved_body raw.now))
        × (r.1.number ≡ next.number + gens_in_body (moved_body raw.now))) }
{
    match types.get(at) {
        Some(typed) => number_moved_body(alloc, raw, &typed.1, next, scope),
        None => number_moved_body(alloc, raw, &Ty::Int, next, scope),
    }
}

/// Comprehensions with tags and numbers from `first` on, and those after their last.
#[cycle(number_body)]
fn number_comps(
    alloc: Global,
    comps: &[RawComp],
    element: &Ty,
    first: Next,
    scope: &Numbers,
) -> Result<(List<Comp>, Next), Memory>
    ensures { IfOk result (λ r.
        (map numbered_part r.0
        ≡ comps_numbered first.tag first.number (numbers scope.now) (type_tree element.now)
        (map comp_part comps.now)) × (r.1.tag ≡ first.tag + tags_in_parts (map comp_part comps.now))
        × (r.1.number ≡ first.number + gens_in_comps (map comp_part comps.now))) }
{
    let mut numbered = List::with_capacity(alloc, comps.len())?;
    let mut next = first;
    for comp in comps {
        let (part, after) = number_comp(alloc, comp, element, next, scope)?;
        numbered.push(part)?;
        next = after;
    }
    Ok((numbered, next))
}

#[cycle(number_body)]
fn number_comp(
    alloc: Global,
    comp: &RawComp,
    element: &Ty,
    next: Next,
    scope: &Numbers,
) -> Result<(Comp, Next), Memory>
    ensures { IfOk result (λ r.
        (numbered_part r.0 ≡ comp_numbered next.tag next.number (numbers scope.now)
        (type_tree element.now) (comp_part comp.now))
        × (r.1.tag ≡ next.tag + tags_in_part (comp_part comp.now))
        × (r.1.number ≡ next.number + gens_in_comp (comp_part comp.now))) }
{
    let count = comp.tables.len() as u64;
    let start = plus(next.number, count)?;
    let gens = number_gens(alloc, comp.tables.as_slice(), next.number)?;
    let inner = Numbers::Dealt {
        first: next.number,
        count,
        outer: scope,
    };
    let (conds, number) = number_conds(alloc, comp.conds.as_slice(), start, &inner)?;
    let inside = Next {
        tag: plus(next.tag, 1)?,
        number,
    };
    let (body, after) = number_moved_body(alloc, &comp.body, element, inside, &inner)?;
    Ok((
        Comp {
            tag: next.tag,
            gens,
            conds,
            body,
        },
        after,
    ))
}
