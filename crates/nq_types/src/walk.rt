// The walk over a program in judging order.
ghost use Rattle.std.specs.Prelude.{◌≡◌, IfOk, IfErr, Ok, slice_get};
ghost use Rattle.nq_model.specs.Types.{fields_view as types_view};
ghost use Rattle.nq_model.specs.Terms.{placed, placed_node, placed_fields, PlacedNode};
ghost use Rattle.nq_model.specs.Judging.{judged, node_judged, by_rule};
ghost use Rattle.nq_model.specs.TypeOf.{table_given};
ghost use Rattle.nq_types.specs.Scopes.{types_in};
ghost use Rattle.nq_types.specs.Steps.{Gives, Faults, listed};

use crate::fault::CheckFault;
use crate::rules;
use crate::scope::Scope;
use crate::tables::{Tables, table_type};
use nq_model::{Label, List, Node, Term, Ty, boxed, in_label_order};
use std::alloc::Global;

// The type of a term, or the first broken rule.
#[cycle(walk)]
#[tactic(auto, using(nq_model::proofs::Terms::placed_term))]
pub(crate) fn check_term(
    alloc: Global,
    tables: &Tables<'_>,
    scope: &Scope<'_>,
    term: &Term,
) -> Result<Ty, CheckFault>
    ensures { Gives result (judged tables.now.schema.now (types_in scope.now) (placed term.now)) }
{
    check_node(alloc, tables, scope, term.place, &term.node)
}

#[cycle(walk)]
fn check_node(
    alloc: Global,
    tables: &Tables<'_>,
    scope: &Scope<'_>,
    place: u64,
    node: &Node,
) -> Result<Ty, CheckFault>
    ensures { Gives result (node_judged tables.now.schema.now (types_in scope.now) place
        (placed_node node.now)) }
{
    match node {
        Node::Var(k) => check_variable(alloc, scope, place, *k),
        Node::Int(_) => Ok(Ty::Int),
        Node::Bool(_) => Ok(Ty::Bool),
        Node::Text(_) => Ok(Ty::Text),
        Node::Table(name) => check_table(alloc, tables, place, name),
        Node::Unary { op, of } => {
            let of = check_term(alloc, tables, scope, of)?;
            rules::unary(*op, place, &of)
        }
        Node::Binary { op, left, right } => {
            let left = check_term(alloc, tables, scope, left)?;
            let right = check_term(alloc, tables, scope, right)?;
            rules::binary(*op, place, &left, &right)
        }
        Node::If { test, yes, no } => {
            let test = check_term(alloc, tables, scope, test)?;
            let yes = check_term(alloc, tables, scope, yes)?;
            let no = check_term(alloc, tables, scope, no)?;
            rules::choice(place, &test, yes, &no)
        }
        Node::Fun { taken, body } => {
            rules::parameter(place, taken)?;
            let given = check_term(alloc, tables, &Scope::Inner(taken, scope), body)?;
            Ok(Ty::Fun(boxed(alloc, taken.copy(alloc)?)?, boxed(alloc, given)?))
        }
        Node::Apply { func, arg } => {
            let func = check_term(alloc, tables, scope, func)?;
            let arg = check_term(alloc, tables, scope, arg)?;
            rules::application(place, func, &arg)
        }
        Node::Rec(fields) => {
            let fields = check_fields(alloc, tables, scope, fields.as_slice())?;
            Ok(Ty::Rec(in_label_order(fields)?))
        }
        Node::Field { of, label } => check_field(alloc, tables, scope, place, of, label),
        Node::Empty(of) => {
            let of = check_term(alloc, tables, scope, of)?;
            rules::emptiness(place, &of)
        }
        Node::Count(of) => {
            let of = check_term(alloc, tables, scope, of)?;
            rules::count(place, &of)
        }
        Node::Sum(of) => {
            let of = check_term(alloc, tables, scope, of)?;
            rules::sum(place, &of)
        }
        Node::Single(of) => {
            let element = check_term(alloc, tables, scope, of)?;
            rules::single(alloc, place, element)
        }
        Node::Nil(element) => rules::nil(alloc, place, element),
        Node::Union { left, right } => {
            let left = check_term(alloc, tables, scope, left)?;
            let right = check_term(alloc, tables, scope, right)?;
            rules::union(place, left, &right)
        }
        Node::For { source, body } => {
            let bag = check_term(alloc, tables, scope, source)?;
            let element = rules::source(place, bag)?;
            let given = check_term(alloc, tables, &Scope::Inner(&element, scope), body)?;
            rules::body(20, place, given)
        }
        Node::Guard { test, body } => {
            let test = check_term(alloc, tables, scope, test)?;
            let given = check_term(alloc, tables, scope, body)?;
            rules::guard(place, &test, given)
        }
        Node::Bind { value, body } => {
            let value = check_term(alloc, tables, scope, value)?;
            check_term(alloc, tables, &Scope::Inner(&value, scope), body)
        }
    }
}

// A field of a variable is read from where the variable's type stands, which is not copied.
#[cycle(walk)]
#[tactic(auto, using(nq_model::proofs::Terms::placed_term, nq_model::proofs::Terms::node_var))]
fn check_field(
    alloc: Global,
    tables: &Tables<'_>,
    scope: &Scope<'_>,
    place: u64,
    of: &Term,
    label: &Label,
) -> Result<Ty, CheckFault>
    ensures { Gives result (node_judged tables.now.schema.now (types_in scope.now) place
        (PlacedNode.field (placed of.now) label.now)) }
{
    match &of.node {
        Node::Var(k) => match scope.get(*k) {
            Some(ty) => rules::field(alloc, place, ty, label),
            None => Err(CheckFault::Ill {
                rule: 1,
                place: of.place,
            }),
        },
        _ => {
            let of = check_term(alloc, tables, scope, of)?;
            rules::field(alloc, place, &of, label)
        }
    }
}

fn check_variable(alloc: Global, scope: &Scope<'_>, place: u64, k: u64) -> Result<Ty, CheckFault>
    ensures { Gives result (by_rule 1 place (slice_get (types_in scope.now) k)) }
{
    match scope.get(k) {
        Some(ty) => Ok(ty.copy(alloc)?),
        None => Err(CheckFault::Ill { rule: 1, place }),
    }
}

fn check_table(
    alloc: Global,
    tables: &Tables<'_>,
    place: u64,
    name: &Label,
) -> Result<Ty, CheckFault>
    ensures { Gives result (by_rule 5 place (table_given name.now tables.now.schema.now)) }
{
    match tables.named(name.as_str()) {
        Some(shape) => Ok(table_type(alloc, shape.columns.as_slice())?),
        None => Err(CheckFault::Ill { rule: 5, place }),
    }
}

// The types of fields, in the order of the text.
#[cycle(walk)]
fn check_fields(
    alloc: Global,
    tables: &Tables<'_>,
    scope: &Scope<'_>,
    fields: &[(Label, Term)],
) -> Result<List<(Label, Ty)>, CheckFault>
    ensures ok { IfOk result (λ types.
        listed tables.now.schema.now (types_in scope.now) (placed_fields fields.now)
        ≡ Ok (types_view types)) }
    ensures err { IfErr result
        (Faults (listed tables.now.schema.now (types_in scope.now) (placed_fields fields.now))) }
{
    let mut types = List::with_capacity(alloc, fields.len())?;
    for field in fields {
        let ty = check_term(alloc, tables, scope, &field.1)?;
        types.push((field.0.copy(alloc)?, ty))?;
    }
    Ok(types)
}
