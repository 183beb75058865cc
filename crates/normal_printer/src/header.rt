// The header of a printed form: it stands where a count or a sum stands in the form.
ghost use Rattle.std.specs.List.{list_any};
ghost use Rattle.std.specs.Prelude.{◌≡◌, ◌++◌, OnOk, map, string_bytes};
ghost use Rattle.nq_ir.specs.Printed.{has_total, have_total, header_text, named_base, named_body, named_fields, named_form};
ghost use Rattle.nq_ir.specs.Trees.{base_tree, bodies_of, body_tree, form_tree};
ghost use Rattle.normal_printer.specs.Parts.{test_term, whole_term};

use nq_ir::{Base, Body, Comp, Normal, Test};
use nq_model::{Label, Memory};

// `nq 2; `, where a count or a sum stands in the form.
pub(crate) fn put_header(text: &mut String, normal: &Normal) -> Result<(), Memory>
    ensures { OnOk result (string_bytes text.new
        ≡ string_bytes text.old ++ header_text (form_tree normal.now)) }
{
    if form_has_total(normal) {
        text.push_str("nq 2; ")?;
    }
    Ok(())
}

#[cycle(form_has_total)]
fn form_has_total(normal: &Normal) -> bool
    ensures { result ≡ has_total (named_form (form_tree normal.now)) }
{
    comps_have_total(normal.parts.as_slice())
}

#[cycle(form_has_total)]
fn comps_have_total(comps: &[Comp]) -> bool
    ensures { result ≡ list_any (λ c. has_total (whole_term c)) comps.now }
{
    for comp in comps {
        if comp_has_total(comp) {
            return true;
        }
    }
    false
}

#[cycle(form_has_total)]
#[tactic(auto, using(crate::proofs::Headers::comp_total))]
fn comp_has_total(comp: &Comp) -> bool
    ensures { result ≡ has_total (whole_term comp.now) }
{
    conds_have_total(comp.conds.as_slice()) || body_has_total(&comp.body)
}

#[cycle(form_has_total)]
#[tactic(auto, using(nq_ir::proofs::Forms::body_plain, nq_ir::proofs::Forms::body_rec, nq_ir::proofs::Forms::body_bag))]
fn body_has_total(body: &Body) -> bool
    ensures { result ≡ has_total (named_body (body_tree body.now)) }
{
    match body {
        Body::Plain(base) => base_has_total(base),
        Body::Rec(fields) => fields_have_total(fields.as_slice()),
        Body::Bag(normal) => form_has_total(normal),
    }
}

#[cycle(form_has_total)]
fn fields_have_total(fields: &[(Label, Body)]) -> bool
    ensures { result ≡ have_total
        (named_fields (bodies_of (map (λ f. (f.0, body_tree f.1)) fields.now))) }
{
    for field in fields {
        if body_has_total(&field.1) {
            return true;
        }
    }
    false
}

#[cycle(base_has_total)]
#[tactic(auto, using(crate::proofs::Chains::chained_total, crate::proofs::Headers::empty_total, crate::proofs::Headers::count_total, crate::proofs::Headers::sum_total))]
fn base_has_total(base: &Base) -> bool
    ensures { result ≡ has_total (named_base (base_tree base.now)) }
{
    match base {
        Base::Int(_) | Base::Bool(_) | Base::Text(_) | Base::Column { .. } => false,
        Base::Unary { of, .. } => base_has_total(of),
        Base::Binary { left, right, .. } => base_has_total(left) || base_has_total(right),
        Base::Chain { first, more, .. } => {
            base_has_total(first) || conds_have_total(more.as_slice())
        }
        Base::Choose { test, yes, no } => {
            base_has_total(test) || base_has_total(yes) || base_has_total(no)
        }
        Base::Empty(tests) => tests_have_total(tests.as_slice()),
        Base::Count(_) | Base::Sum { .. } => true,
    }
}

#[cycle(base_has_total)]
fn conds_have_total(conds: &[Base]) -> bool
    ensures { result ≡ list_any (λ b. has_total (named_base (base_tree b))) conds.now }
{
    for cond in conds {
        if base_has_total(cond) {
            return true;
        }
    }
    false
}

#[cycle(base_has_total)]
fn tests_have_total(tests: &[Test]) -> bool
    ensures { result ≡ list_any (λ t. has_total (test_term t)) tests.now }
{
    for test in tests {
        if test_has_total(test) {
            return true;
        }
    }
    false
}

#[cycle(base_has_total)]
#[tactic(auto, using(crate::proofs::Headers::test_total))]
fn test_has_total(test: &Test) -> bool
    ensures { result ≡ has_total (test_term test.now) }
{
    conds_have_total(test.conds.as_slice())
}
