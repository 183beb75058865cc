// The bodies of terms, and the tests of those of which only these are asked.
ghost use Rattle.std.specs.Prelude.{◌≡◌, ◌∷◌, IfOk, length, map, option_map};
ghost use Rattle.nq_model.specs.Terms.{term_tree, fields_view as terms_view};
ghost use Rattle.nq_ir.specs.RawForms.{each_comp, raw_base_in, raw_comps_in, raw_form, raw_tests_of, up_body};
ghost use Rattle.normalise.specs.Raw.{fields_view, moved_base, moved_body, raw_comps, raw_tests};
ghost use Rattle.normalise.specs.Scopes.{bodies};
ghost use Rattle.normalise.specs.BagTests.{bag_tests};

use crate::choice::chosen;
use crate::comps::{base_in, comps_in, put_inside};
use crate::fields::field_in;
use crate::forms::{
    bag, binary, emptiness, guard, no_body, plain, single, text, unary, union, with_fields,
};
use crate::raw::{MovedBase, MovedBody, RawBase, RawComp, RawTest};
use crate::scope::Scope;
use crate::table::table_body;
use crate::tests::{
    append_tests, chosen_tests, guarded_tests, one_test, opened_tests, put_tests_inside, test_in,
    test_of_table,
};
use crate::totals::{count, sum};
use nq_model::{Label, List, Memory, Node, Schema, Term};
use std::alloc::Global;

/// The body of a plain term, where the variables have these bodies.
#[cycle(body)]
fn body(alloc: Global, schema: &Schema, term: &Term, scope: &Scope) -> Result<MovedBody, Memory>
    ensures { IfOk result (λ b.
        moved_body b ≡ raw_form schema.now.tables (term_tree term.now) (bodies scope.now)) }
{
    match &term.node {
        Node::Var(k) => scope.variable(alloc, *k),
        Node::Int(number) => plain(alloc, RawBase::Int(*number)),
        Node::Bool(truth) => plain(alloc, RawBase::Bool(*truth)),
        Node::Text(of) => text(alloc, of),
        Node::Table(name) => table_body(alloc, schema, name),
        Node::Unary { op, of } => {
            let of = base(alloc, schema, of, scope)?;
            unary(alloc, *op, of)
        }
        Node::Binary { op, left, right } => {
            let left = base(alloc, schema, left, scope)?;
            let right = base(alloc, schema, right, scope)?;
            binary(alloc, *op, left, right)
        }
        Node::If { test, yes, no } => {
            let test = base(alloc, schema, test, scope)?;
            let yes = body(alloc, schema, yes, scope)?;
            let no = body(alloc, schema, no, scope)?;
            chosen(alloc, &test, yes, no)
        }
        Node::Rec(fields) => {
            let fields = fields_of(alloc, schema, fields.as_slice(), scope)?;
            with_fields(alloc, fields)
        }
        Node::Field { of, label } => {
            let of = body(alloc, schema, of, scope)?;
            field_in(alloc, label, &of)
        }
        Node::Empty(of) => emptiness(alloc, tests(alloc, schema, of, scope)?),
        Node::Count(of) => count(alloc, tests(alloc, schema, of, scope)?),
        Node::Sum(of) => sum(alloc, comps(alloc, schema, of, scope)?),
        Node::Single(of) => single(alloc, body(alloc, schema, of, scope)?),
        Node::Nil(_) => bag(alloc, List::new(alloc)),
        Node::Union { left, right } => {
            let left = comps(alloc, schema, left, scope)?;
            let right = comps(alloc, schema, right, scope)?;
            union(alloc, left, right)
        }
        Node::For { source, body: rest } => {
            let source = comps(alloc, schema, source, scope)?;
            bag(alloc, for_comps(alloc, schema, rest, source, scope)?)
        }
        Node::Guard { test, body: rest } => {
            let test = base(alloc, schema, test, scope)?;
            let rest = comps(alloc, schema, rest, scope)?;
            guard(alloc, test, rest)
        }
        // these stand in no plain term
        Node::Fun { .. } | Node::Apply { .. } | Node::Bind { .. } => no_body(alloc),
    }
}

// The base term of a part.
#[cycle(body)]
fn base(alloc: Global, schema: &Schema, term: &Term, scope: &Scope) -> Result<MovedBase, Memory>
    ensures { IfOk result (λ b.
        moved_base b ≡ raw_base_in
        (raw_form schema.now.tables (term_tree term.now) (bodies scope.now))) }
{
    let of = body(alloc, schema, term, scope)?;
    base_in(alloc, &of)
}

/// The comprehensions of a term.
#[cycle(body)]
pub(crate) fn comps(
    alloc: Global,
    schema: &Schema,
    term: &Term,
    scope: &Scope,
) -> Result<List<RawComp>, Memory>
    ensures { IfOk result (λ cs.
        raw_comps cs ≡ raw_comps_in
        (raw_form schema.now.tables (term_tree term.now) (bodies scope.now))) }
{
    let of = body(alloc, schema, term, scope)?;
    comps_in(alloc, of)
}

/// For each comprehension of the source of a `for`, those of `rest` inside it.
#[cycle(body)]
fn for_comps(
    alloc: Global,
    schema: &Schema,
    rest: &Term,
    source: List<RawComp>,
    scope: &Scope,
) -> Result<List<RawComp>, Memory>
    ensures { IfOk result (λ cs. raw_comps cs ≡ each_comp (raw_comps source)
        (λ gs e. raw_comps_in
        (raw_form schema.now.tables (term_tree rest.now)
        (e ∷ map (up_body (length gs) 0) (bodies scope.now))))) }
{
    let mut all = List::new(alloc);
    for comp in source.into_vec() {
        let deeper = Scope::Under {
            count: comp.tables.len() as u64,
            outer: &*scope,
        };
        let inner = Scope::Inner {
            body: &comp.body,
            outer: &deeper,
        };
        let parts = comps(alloc, schema, rest, &inner)?;
        put_inside(alloc, &mut all, test_in(comp), parts)?;
    }
    Ok(all)
}

/// The comprehensions of a term without their bodies, which are not built.
#[cycle(body)]
fn tests(
    alloc: Global,
    schema: &Schema,
    term: &Term,
    scope: &Scope,
) -> Result<List<RawTest>, Memory>
    ensures { IfOk result (λ ts.
        raw_tests ts ≡ raw_tests_of
        (raw_comps_in (raw_form schema.now.tables (term_tree term.now) (bodies scope.now)))) }
{
    match bag_tests(alloc, schema, term, scope)? {
        Some(tests) => Ok(tests),
        None => Ok(List::new(alloc)),
    }
}

/// The same; `None` where the term has another shape, as in no typed term, since a choice goes by
/// the shapes of its branches.
#[cycle(body)]
fn bag_tests(
    alloc: Global,
    schema: &Schema,
    term: &Term,
    scope: &Scope,
) -> Result<Option<List<RawTest>>, Memory>
    ensures { IfOk result (λ found.
        option_map raw_tests found
        ≡ bag_tests (raw_form schema.now.tables (term_tree term.now) (bodies scope.now))) }
{
    match &term.node {
        Node::Table(name) => Ok(Some(test_of_table(alloc, name)?)),
        Node::Single(_) => Ok(Some(one_test(alloc, List::new(alloc))?)),
        Node::Nil(_) => Ok(Some(List::new(alloc))),
        Node::Union { left, right } => {
            let left = tests(alloc, schema, left, scope)?;
            let right = tests(alloc, schema, right, scope)?;
            Ok(Some(append_tests(left, right)?))
        }
        Node::For { source, body: rest } => {
            let source = comps(alloc, schema, source, scope)?;
            Ok(Some(for_tests(alloc, schema, rest, source, scope)?))
        }
        Node::Guard { test, body: rest } => {
            let test = base(alloc, schema, test, scope)?;
            let rest = tests(alloc, schema, rest, scope)?;
            Ok(Some(guarded_tests(alloc, test, rest)?))
        }
        Node::If { test, yes, no } => {
            let test = base(alloc, schema, test, scope)?;
            let yes = bag_tests(alloc, schema, yes, scope)?;
            let no = bag_tests(alloc, schema, no, scope)?;
            chosen_tests(alloc, test, yes, no)
        }
        Node::Var(_) | Node::Field { .. } => opened_tests(alloc, body(alloc, schema, term, scope)?),
        // base terms and records are no bags, and functions and `let` stand in no plain term
        _ => Ok(None),
    }
}

/// For each comprehension of the source of a `for`, those of `rest` inside it, without their
/// bodies.
#[cycle(body)]
fn for_tests(
    alloc: Global,
    schema: &Schema,
    rest: &Term,
    source: List<RawComp>,
    scope: &Scope,
) -> Result<List<RawTest>, Memory>
    ensures { IfOk result (λ ts.
        raw_tests ts ≡ raw_tests_of (each_comp (raw_comps source)
        (λ gs e. raw_comps_in
        (raw_form schema.now.tables (term_tree rest.now)
        (e ∷ map (up_body (length gs) 0) (bodies scope.now)))))) }
{
    let mut all = List::new(alloc);
    for comp in source.into_vec() {
        let deeper = Scope::Under {
            count: comp.tables.len() as u64,
            outer: &*scope,
        };
        let inner = Scope::Inner {
            body: &comp.body,
            outer: &deeper,
        };
        let parts = tests(alloc, schema, rest, &inner)?;
        put_tests_inside(alloc, &mut all, test_in(comp), parts)?;
    }
    Ok(all)
}

#[cycle(body)]
fn fields_of(
    alloc: Global,
    schema: &Schema,
    fields: &[(Label, Term)],
    scope: &Scope,
) -> Result<List<(Label, MovedBody)>, Memory>
    ensures { IfOk result (λ fs. fields_view fs ≡ map
        (λ f. (f.0, raw_form schema.now.tables f.1 (bodies scope.now))) (terms_view fields.now)) }
{
    let mut all = List::with_capacity(alloc, fields.len())?;
    for field in fields {
        let label = field.0.copy(alloc)?;
        let of = body(alloc, schema, &field.1, scope)?;
        all.push((label, of))?;
    }
    Ok(all)
}
