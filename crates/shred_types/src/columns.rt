// The columns at a path.
ghost use Rattle.std.specs.Prelude.{◌≡◌, ◌++◌, IfOk, OnOk, MatchOption, is_some};
ghost use Rattle.nq_model.specs.Types.{type_tree, int, field_types_of, fields_view};
ghost use Rattle.nq_ir.specs.Paths.{element_at, element_in};
ghost use Rattle.shred_types.specs.Bags.{has_bag, has_bag_in};
ghost use Rattle.shred_types.specs.Columns.{columns_at, element_columns, fields_columns};

use nq_ir::{Path, Step};
use nq_model::{ColumnType, Label, List, Memory, Ty};
use std::alloc::Global;

/// The columns of the answer at a path of the type: tag and number of the spot around, then those
/// of the element. A path that is none of the type's counts as one to a bag of int.
pub fn columns_at(alloc: Global, of: &Ty, path: &Path) -> Result<List<ColumnType>, Memory>
    ensures { IfOk result (λ columns. columns ≡ columns_at (type_tree of.now) path.now.steps) }
{
    let mut columns = List::from_slice(alloc, &[ColumnType::Int, ColumnType::Int])?;
    match element_at(of, path.steps.as_slice()) {
        Some(element) => push_columns(&mut columns, element)?,
        None => columns.push(ColumnType::Int)?,
    }
    Ok(columns)
}

/// The element type of the bag at a path, if there is one.
#[cycle(element)]
#[tactic(auto, using(nq_model::proofs::Terms::type_of_record))]
pub fn element_at<'a>(of: &'a Ty, steps: &[Step]) -> Option<&'a Ty>
    ensures found { is_some result ≡ has_bag (type_tree of.now) steps.now }
    ensures is { MatchOption result (element_at (type_tree of.now) steps.now ≡ int)
        (λ element. type_tree element.now ≡ element_at (type_tree of.now) steps.now) }
{
    match (steps.split_first(), of) {
        (None, Ty::Bag(element)) => Some(element),
        (Some((Step::Down, rest)), Ty::Bag(element)) => element_at(element, rest),
        (Some((Step::Field(label), rest)), Ty::Rec(fields)) => {
            element_in(fields.as_slice(), label.as_str(), rest)
        }
        _ => None,
    }
}

// The same below the field with a label.
#[cycle(element)]
#[tactic(auto, using(nq_model::proofs::Terms::type_of_record))]
fn element_in<'a>(fields: &'a [(Label, Ty)], label: &str, steps: &[Step]) -> Option<&'a Ty>
    ensures found { is_some result
        ≡ has_bag_in (field_types_of (fields_view fields.now)) label.now steps.now }
    ensures is { MatchOption result
        (element_in (field_types_of (fields_view fields.now)) label.now steps.now ≡ int)
        (λ element. type_tree element.now
        ≡ element_in (field_types_of (fields_view fields.now)) label.now steps.now) }
{
    for field in fields {
        if label == field.0.as_str() {
            return element_at(&field.1, steps);
        }
    }
    None
}

// Puts the columns of an element at the end.
#[cycle(columns)]
#[tactic(auto, using(nq_model::proofs::Terms::type_of_record))]
fn push_columns(columns: &mut List<ColumnType>, element: &Ty) -> Result<(), Memory>
    ensures { OnOk result (columns.new ≡ columns.old ++ element_columns (type_tree element.now)) }
{
    match element {
        Ty::Int => columns.push(ColumnType::Int),
        Ty::Bool => columns.push(ColumnType::Bool),
        Ty::Text => columns.push(ColumnType::Text),
        Ty::Rec(fields) => push_field_columns(columns, fields.as_slice()),
        Ty::Bag(_) => columns.extend_from_slice(&[ColumnType::Int, ColumnType::Int]),
        Ty::Fun(_, _) => Ok(()),
    }
}

#[cycle(columns)]
#[tactic(auto, using(nq_model::proofs::Terms::type_of_record))]
fn push_field_columns(columns: &mut List<ColumnType>, fields: &[(Label, Ty)]) -> Result<(), Memory>
    ensures { OnOk result (columns.new
        ≡ columns.old ++ fields_columns (field_types_of (fields_view fields.now))) }
{
    for field in fields {
        push_columns(columns, &field.1)?;
    }
    Ok(())
}
