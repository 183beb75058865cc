// How deep arrows nest in the types of a term.
ghost use Rattle.std.specs.Prelude.{◌≡◌, ◌+◌, max, IfOk};
ghost use Rattle.nq_model.specs.Types.{type_tree, field_types_of, fields_view as types_view};
ghost use Rattle.nq_model.specs.Terms.{term_tree, fields_view, term_fields_of};
ghost use Rattle.unfold.specs.Hereditary.{rank, ranks, fuel, fuel_fields};

use nq_model::{Label, Memory, Node, Term, Ty};

/// A bound of the rank of each type in a closed term.
pub(crate) fn fuel(term: &Term) -> Result<u64, Memory>
    ensures { IfOk result (λ n. n ≡ fuel (term_tree term.now)) }
{
    more_fuel(0, term)
}

// That of a term and `n` more.
#[cycle(fuel)]
fn more_fuel(n: u64, term: &Term) -> Result<u64, Memory>
    ensures { IfOk result (λ m. m ≡ n + fuel (term_tree term.now)) }
{
    match &term.node {
        Node::Var(_)
        | Node::Int(_)
        | Node::Bool(_)
        | Node::Text(_)
        | Node::Table(_)
        | Node::Nil(_) => Ok(n),
        Node::Unary { op: _, of: only }
        | Node::Field { of: only, label: _ }
        | Node::Empty(only)
        | Node::Count(only)
        | Node::Sum(only)
        | Node::Single(only) => more_fuel(n, only),
        Node::Fun { taken, body } => more_fuel(both(n, both(rank(taken)?, 1)?)?, body),
        Node::Binary { op: _, left, right }
        | Node::Apply {
            func: left,
            arg: right,
        }
        | Node::Union { left, right }
        | Node::For {
            source: left,
            body: right,
        }
        | Node::Guard {
            test: left,
            body: right,
        }
        | Node::Bind {
            value: left,
            body: right,
        } => more_fuel(more_fuel(n, left)?, right),
        Node::If { test, yes, no } => more_fuel(more_fuel(more_fuel(n, test)?, yes)?, no),
        Node::Rec(fields) => more_fuel_of_fields(n, fields.as_slice()),
    }
}

#[cycle(fuel)]
fn more_fuel_of_fields(n: u64, fields: &[(Label, Term)]) -> Result<u64, Memory>
    ensures { IfOk result (λ m. m ≡ n + fuel_fields (term_fields_of (fields_view fields.now))) }
{
    let mut all = n;
    for field in fields {
        all = more_fuel(all, &field.1)?;
    }
    Ok(all)
}

/// How deep arrows nest in a type.
#[cycle(rank)]
fn rank(ty: &Ty) -> Result<u64, Memory>
    ensures { IfOk result (λ n. n ≡ rank (type_tree ty.now)) }
{
    match ty {
        Ty::Int | Ty::Bool | Ty::Text | Ty::Bag(_) => Ok(0),
        Ty::Rec(fields) => rank_fields(fields.as_slice()),
        Ty::Fun(taken, given) => {
            let a = rank(taken)?;
            let b = rank(given)?;
            both(1, a.max(b))
        }
    }
}

#[cycle(rank)]
fn rank_fields(fields: &[(Label, Ty)]) -> Result<u64, Memory>
    ensures { IfOk result (λ n. n ≡ ranks (field_types_of (types_view fields.now))) }
{
    let mut all: u64 = 0;
    for field in fields {
        all = all.max(rank(&field.1)?);
    }
    Ok(all)
}

// A sum of 2^64 or more has no term in memory.
fn both(a: u64, b: u64) -> Result<u64, Memory>
    ensures { IfOk result (λ n. n ≡ a + b) }
{
    match a.checked_add(b) {
        Some(sum) => Ok(sum),
        None => Err(Memory),
    }
}
