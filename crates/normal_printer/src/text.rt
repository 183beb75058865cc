// Comprehensions, their bodies, and whole forms.
ghost use Rattle.std.specs.Prelude.{◌≡◌, ◌++◌, IfOk, List, OnOk, [], length, map, string_bytes};
ghost use Rattle.nq_ir.specs.Meanings.{form_meaning, rows_in};
ghost use Rattle.nq_ir.specs.Printed.{named_body, named_fields, named_form, nil, printed_term, printed_text, rec, text_of};
ghost use Rattle.nq_ir.specs.Trees.{bodies_of, body_tree, form_tree};
ghost use Rattle.nq_model.specs.Databases.{FilledTable};
ghost use Rattle.nq_model.specs.Meaning.{meaning};
ghost use Rattle.nq_model.specs.QueryTexts.{Spells};
ghost use Rattle.nq_model.specs.Terms.{PlacedTerm, bare};
ghost use Rattle.nq_model.specs.Types.{type_tree};
ghost use Rattle.normal_printer.specs.Parts.{text_at, whole_term};
ghost use Rattle.normal_printer.specs.Spellable.{IsSpellable};

use crate::bases::{put_base, put_gens, put_where};
use crate::header::put_header;
use crate::levels::{UNION, comp_level, level_in};
use crate::pieces::put_lead;
use crate::types::put_type;
use nq_ir::{Body, Comp, Normal};
use nq_model::{Label, List, Memory, Ty};
use std::alloc::Global;

fn put_no_comp(text: &mut String, element: &Ty) -> Result<(), Memory>
    ensures { OnOk result (string_bytes text.new
        ≡ string_bytes text.old ++ text_of (nil (type_tree element.now))) }
{
    text.push_str("[: ")?;
    put_type(text, element)?;
    text.push_str("]")?;
    Ok(())
}

// The comprehension where a level is asked for: in parentheses where its own is weaker.
#[cycle(put_form)]
fn put_comp_at(text: &mut String, comp: &Comp, asked: u64) -> Result<(), Memory>
    ensures { OnOk result (string_bytes text.new
        ≡ string_bytes text.old ++ text_at asked (whole_term comp.now)) }
{
    if asked <= comp_level(comp.gens.as_slice(), comp.conds.as_slice()) {
        put_comp(text, comp)
    } else {
        text.push_str("(")?;
        put_comp(text, comp)?;
        text.push_str(")")?;
        Ok(())
    }
}

#[cycle(put_form)]
fn put_comp(text: &mut String, comp: &Comp) -> Result<(), Memory>
    ensures { OnOk result (string_bytes text.new
        ≡ string_bytes text.old ++ text_of (whole_term comp.now)) }
{
    put_gens(text, comp.gens.as_slice())?;
    put_where(text, comp.conds.as_slice())?;
    text.push_str("[")?;
    put_body(text, &comp.body)?;
    text.push_str("]")?;
    Ok(())
}

#[cycle(put_form)]
#[tactic(auto, using(nq_ir::proofs::Forms::body_plain, nq_ir::proofs::Forms::body_rec, nq_ir::proofs::Forms::body_bag))]
fn put_body(text: &mut String, body: &Body) -> Result<(), Memory>
    ensures { OnOk result (string_bytes text.new
        ≡ string_bytes text.old ++ text_of (named_body (body_tree body.now))) }
{
    match body {
        Body::Plain(base) => put_base(text, base),
        Body::Rec(fields) => put_record(text, fields.as_slice()),
        Body::Bag(normal) => put_form(text, normal),
    }
}

#[cycle(put_form)]
fn put_record(text: &mut String, fields: &[(Label, Body)]) -> Result<(), Memory>
    ensures { OnOk result (string_bytes text.new
        ≡ string_bytes text.old
        ++ text_of (rec (named_fields (bodies_of (map (λ f. (f.0, body_tree f.1)) fields.now))))) }
{
    text.push_str("(")?;
    for (place, (label, body)) in fields.iter().enumerate() {
        put_lead(text, place, "", ", ")?;
        text.push_str(label.as_str())?;
        text.push_str(" = ")?;
        put_body(text, body)?;
    }
    text.push_str(")")?;
    Ok(())
}

// The comprehensions in a union; of none the empty bag of the type of the elements.
#[cycle(put_form)]
fn put_form(text: &mut String, normal: &Normal) -> Result<(), Memory>
    ensures { OnOk result (string_bytes text.new
        ≡ string_bytes text.old ++ text_of (named_form (form_tree normal.now))) }
{
    if normal.parts.is_empty() {
        return put_no_comp(text, &normal.element);
    }
    for (place, comp) in normal.parts.as_slice().iter().enumerate() {
        put_lead(text, place, "", " ++ ")?;
        put_comp_at(text, comp, level_in(UNION, normal.parts.len(), place))?;
    }
    Ok(())
}

/// The text of a normal form: a term of the query language with the variable `xk` for the generator
/// k, one space between words, parentheses exactly where a part is weaker than its place asks,
/// behind `nq 2; ` exactly where a count or a sum stands in the form. Where the form is well formed
/// over a schema and its names are words, the text spells the term at a depth of its own bytes, and
/// the term means what the form means. Fails only if memory runs out.
pub fn print_normal(alloc: Global, normal: &Normal) -> Result<List<u8>, Memory>
    ensures is { IfOk result (λ bytes. bytes ≡ printed_text (form_tree normal.now)) }
    ensures spells { IfOk result (λ bytes. IsSpellable (form_tree normal.now)
        → (tree : PlacedTerm) × Spells (length bytes) bytes tree
        × (bare tree ≡ printed_term (form_tree normal.now))) }
    ensures meaning { IfOk result
        (λ bytes. IsSpellable (form_tree normal.now) → (tables : List FilledTable)
        → meaning tables [] (printed_term (form_tree normal.now))
        ≡ form_meaning (rows_in tables) (form_tree normal.now)) }
{
    let mut text = String::new(alloc);
    put_header(&mut text, normal)?;
    put_form(&mut text, normal)?;
    Ok(List::from_vec(text.into_bytes()))
}
