// The generators whose rows would name bags, and whose tables have no key.
ghost use Rattle.std.specs.Prelude.{◌≡◌, Some, flat_map, map, nat_eq, option_copied};
ghost use Rattle.nq_model.specs.Types.{type_tree, field_types_of, fields_view};
ghost use Rattle.nq_ir.specs.Parts.{slots, slots_in};
ghost use Rattle.nq_ir.specs.Shredded.{shredded_tree};
ghost use Rattle.nq_ir.specs.Spots.{strand_tree};
ghost use Rattle.natural_index.specs.Naming.{keyless, least, lesser_of, naming_at};

use natural_keys::has_key;
use nq_ir::{Gen, Shredded, Strand};
use nq_model::{Label, Schema, Ty};

// Whether elements of this type hold no bag.
#[cycle(slots)]
#[tactic(auto, using(nq_model::proofs::Terms::type_of_record))]
fn holds_none(of: &Ty) -> bool
    ensures { result ≡ nat_eq (slots (type_tree of.now)) 0 }
{
    match of {
        Ty::Int | Ty::Bool | Ty::Text | Ty::Fun(_, _) => true,
        Ty::Rec(fields) => fields_hold_none(fields.as_slice()),
        Ty::Bag(_) => false,
    }
}

#[cycle(slots)]
#[tactic(auto, using(nq_model::proofs::Terms::type_of_record))]
fn fields_hold_none(fields: &[(Label, Ty)]) -> bool
    ensures { result ≡ nat_eq (slots_in (field_types_of (fields_view fields.now))) 0 }
{
    for field in fields {
        if !holds_none(&field.1) {
            return false;
        }
    }
    true
}

// The one of two generators that has the smaller number, the first if both have one.
fn lesser<'a>(found: Option<&'a Gen>, next: &'a Gen) -> &'a Gen
    ensures { Some result.now ≡ lesser_of (option_copied found.entry) (Some next.now) }
{
    match found {
        Some(earlier) => {
            if earlier.number <= next.number {
                earlier
            } else {
                next
            }
        }
        None => next,
    }
}

// The generator with the smallest number of one so far and those of these whose tables have no key.
fn least_of_gens<'a>(schema: &Schema, so_far: Option<&'a Gen>, gens: &'a [Gen]) -> Option<&'a Gen>
    ensures { option_copied result
        ≡ lesser_of (option_copied so_far.entry) (least (keyless schema.now.tables gens.now)) }
{
    let mut found = so_far;
    for generator in gens {
        if !has_key(schema, generator.table.as_str()) {
            found = Some(lesser(found, generator));
        }
    }
    found
}

// The same over the own generators of comprehensions.
fn least_of_parts<'a>(
    schema: &Schema,
    so_far: Option<&'a Gen>,
    parts: &'a [Strand],
) -> Option<&'a Gen>
    ensures { option_copied result
        ≡ lesser_of (option_copied so_far.entry) (least
        (keyless schema.now.tables (flat_map (λ d. d.gens) (map strand_tree parts.now)))) }
{
    let mut found = so_far;
    for part in parts {
        found = least_of_gens(schema, found, part.gens.as_slice());
    }
    found
}

/// The generator with the smallest number whose rows would name bags, being of a comprehension
/// whose elements hold a bag, and whose table has no key.
pub(crate) fn least_keyless<'a>(schema: &Schema, forms: &'a [Shredded]) -> Option<&'a Gen>
    ensures { option_copied result ≡ least (keyless schema.now.tables
        (flat_map (λ form. naming_at form.element form.parts) (map shredded_tree forms.now))) }
{
    let mut found: Option<&Gen> = None;
    for form in forms {
        if !holds_none(&form.element) {
            found = least_of_parts(schema, found, form.parts.as_slice());
        }
    }
    found
}
