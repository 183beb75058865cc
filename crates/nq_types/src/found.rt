// The types that are found where judging a program stops.
ghost use Rattle.std.specs.Prelude.{◌≡◌, ◌∷◌, [], IfOk};
ghost use Rattle.nq_model.specs.Judging.{judged};
ghost use Rattle.nq_model.specs.Terms.{placed, placed_fields, placed_node};
ghost use Rattle.nq_model.specs.Types.{type_tree};
ghost use Rattle.nq_types.specs.Found.{IsPart, behind_one, found, found_among, found_in};
ghost use Rattle.nq_types.specs.Found.{program_found, types_found};
ghost use Rattle.nq_types.specs.Scopes.{types_in};

use crate::fault::CheckFault;
use crate::rules::is_well_formed;
use crate::scope::Scope;
use crate::tables::Tables;
use crate::walk::check_term;
use nq_model::{Label, List, Memory, Node, Schema, Term, Ty};
use std::alloc::Global;

// The type of a part; or the types that are found in it, where judging it stops.
#[derive(Drop)]
enum Part {
    Typed(Ty),
    Stopped(List<Ty>),
}

fn one(alloc: Global, ty: Ty) -> Result<List<Ty>, Memory>
    ensures { IfOk result (λ types. types_found types ≡ type_tree ty ∷ []) }
{
    let mut types = List::with_capacity(alloc, 1)?;
    types.push(ty)?;
    Ok(types)
}

fn two(alloc: Global, first: Ty, second: Ty) -> Result<List<Ty>, Memory>
    ensures { IfOk result (λ types. types_found types
        ≡ type_tree first ∷ type_tree second ∷ []) }
{
    let mut types = List::with_capacity(alloc, 2)?;
    types.push(first)?;
    types.push(second)?;
    Ok(types)
}

fn three(alloc: Global, first: Ty, second: Ty, third: Ty) -> Result<List<Ty>, Memory>
    ensures { IfOk result (λ types. types_found types
        ≡ type_tree first ∷ type_tree second ∷ type_tree third ∷ []) }
{
    let mut types = List::with_capacity(alloc, 3)?;
    types.push(first)?;
    types.push(second)?;
    types.push(third)?;
    Ok(types)
}

// A part is judged, and searched only where that stops.
#[cycle(find)]
#[tactic(auto, using(nq_model::proofs::Terms::placed_term))]
fn judge_part(
    alloc: Global,
    tables: &Tables<'_>,
    scope: &Scope<'_>,
    term: &Term,
) -> Result<Part, Memory>
    ensures { IfOk result (IsPart
        (judged tables.now.schema.now (types_in scope.now) (placed term.now))
        (found tables.now.schema.now (types_in scope.now) (placed term.now))) }
{
    match check_term(alloc, tables, scope, term) {
        Ok(ty) => Ok(Part::Typed(ty)),
        Err(CheckFault::Memory) => Err(Memory),
        Err(CheckFault::Ill { .. }) => {
            Ok(Part::Stopped(find_in(alloc, tables, scope, &term.node)?))
        }
    }
}

// Among the parts of a node.
#[cycle(find)]
#[tactic(auto, using(nq_model::proofs::Terms::node_record))]
fn find_in(
    alloc: Global,
    tables: &Tables<'_>,
    scope: &Scope<'_>,
    node: &Node,
) -> Result<List<Ty>, Memory>
    ensures { IfOk result (λ types. types_found types
        ≡ found_in tables.now.schema.now (types_in scope.now) (placed_node node.now)) }
{
    match node {
        Node::Var(_) | Node::Int(_) | Node::Bool(_) | Node::Text(_) | Node::Table(_) => {
            Ok(List::new(alloc))
        }
        Node::Unary { of, .. }
        | Node::Field { of, .. }
        | Node::Empty(of)
        | Node::Count(of)
        | Node::Sum(of)
        | Node::Single(of) => match judge_part(alloc, tables, scope, of)? {
            Part::Typed(ty) => one(alloc, ty),
            Part::Stopped(types) => Ok(types),
        },
        Node::Binary { left, right, .. }
        | Node::Union { left, right }
        | Node::Apply {
            func: left,
            arg: right,
        }
        | Node::Guard {
            test: left,
            body: right,
        } => {
            match judge_part(alloc, tables, scope, left)? {
                Part::Typed(left) => match judge_part(alloc, tables, scope, right)? {
                    Part::Typed(right) => two(alloc, left, right),
                    Part::Stopped(types) => Ok(types),
                },
                Part::Stopped(types) => Ok(types),
            }
        }
        Node::If { test, yes, no } => match judge_part(alloc, tables, scope, test)? {
            Part::Typed(test) => match judge_part(alloc, tables, scope, yes)? {
                Part::Typed(yes) => match judge_part(alloc, tables, scope, no)? {
                    Part::Typed(no) => three(alloc, test, yes, no),
                    Part::Stopped(types) => Ok(types),
                },
                Part::Stopped(types) => Ok(types),
            },
            Part::Stopped(types) => Ok(types),
        },
        Node::Fun { taken, body } => {
            if !is_well_formed(taken) {
                return one(alloc, taken.copy(alloc)?);
            }
            find_in(alloc, tables, &Scope::Inner(taken, scope), &body.node)
        }
        Node::Rec(fields) => find_among(alloc, tables, scope, fields.as_slice()),
        Node::Nil(element) => one(alloc, element.copy(alloc)?),
        Node::For { source, body } => match judge_part(alloc, tables, scope, source)? {
            Part::Typed(Ty::Bag(element)) => {
                match judge_part(alloc, tables, &Scope::Inner(&*element, scope), body)? {
                    Part::Typed(ty) => two(alloc, Ty::Bag(element), ty),
                    Part::Stopped(types) => Ok(types),
                }
            }
            Part::Typed(source) => one(alloc, source),
            Part::Stopped(types) => Ok(types),
        },
        Node::Bind { value, body } => match judge_part(alloc, tables, scope, value)? {
            Part::Typed(value) => {
                find_in(alloc, tables, &Scope::Inner(&value, scope), &body.node)
            }
            Part::Stopped(types) => Ok(types),
        },
    }
}

// Among the fields of a record.
#[cycle(find)]
fn find_among(
    alloc: Global,
    tables: &Tables<'_>,
    scope: &Scope<'_>,
    fields: &[(Label, Term)],
) -> Result<List<Ty>, Memory>
    ensures { IfOk result (λ types. types_found types
        ≡ found_among tables.now.schema.now (types_in scope.now) (placed_fields fields.now)) }
{
    for field in fields {
        if let Part::Stopped(types) = judge_part(alloc, tables, scope, &field.1)? {
            return Ok(types);
        }
    }
    Ok(List::new(alloc))
}

// In a term, which is the whole program.
fn find(
    alloc: Global,
    tables: &Tables<'_>,
    scope: &Scope<'_>,
    term: &Term,
) -> Result<List<Ty>, Memory>
    ensures { IfOk result (λ types. types_found types ≡ behind_one
        (judged tables.now.schema.now (types_in scope.now) (placed term.now))
        (found tables.now.schema.now (types_in scope.now) (placed term.now))) }
{
    match judge_part(alloc, tables, scope, term)? {
        Part::Typed(ty) => one(alloc, ty),
        Part::Stopped(types) => Ok(types),
    }
}

/// The types that are found where judging a program over a schema stops: those of the parts of the
/// node that breaks the first broken rule, in the order of the text, as far as the rule asks for
/// them. Fails only if memory runs out.
pub fn found_types(alloc: Global, schema: &Schema, term: &Term) -> Result<List<Ty>, Memory>
    ensures { IfOk result (λ types. types_found types
        ≡ program_found schema.now (placed term.now)) }
{
    let tables = Tables::new(alloc, schema)?;
    find(alloc, &tables, &Scope::Outermost, term)
}
