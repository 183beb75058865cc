// The columns of the tags of inner bags, at each path.
ghost use Rattle.std.specs.Prelude.{◌≡◌, ◌+◌, ◌++◌, IfOk, OnOk, map};
ghost use Rattle.nq_model.specs.Types.{type_tree, field_types_of, fields_view};
ghost use Rattle.nq_ir.specs.Parts.{element_types, element_types_in};
ghost use Rattle.foreign_answers.specs.Columns.{tags_of, with_part, with_parts};

use nq_model::{Label, List, Memory, Ty};
use std::alloc::Global;

// How far an element is gone through: the next column, counted from 1, and those of the tags so
// far.
#[derive(Drop)]
struct Tags {
    next: u64,
    columns: List<u64>,
}

/// For each path of a type, in path order, the columns of the tags of the inner bags, in label
/// order.
pub(crate) fn columns_of(alloc: Global, of: &Ty) -> Result<List<List<u64>>, Memory>
    ensures { IfOk result (λ columns. columns ≡ map tags_of (element_types (type_tree of.now))) }
{
    let mut columns = List::new(alloc);
    push_columns(alloc, of, &mut columns)?;
    Ok(columns)
}

// Puts those of a part of a type at the end.
#[cycle(paths)]
fn push_columns(alloc: Global, of: &Ty, columns: &mut List<List<u64>>) -> Result<(), Memory>
    ensures { OnOk result (columns.new ≡ columns.old ++ map tags_of
        (element_types (type_tree of.now))) }
{
    match of {
        Ty::Int | Ty::Bool | Ty::Text | Ty::Fun(_, _) => Ok(()),
        Ty::Rec(fields) => push_field_columns(alloc, fields.as_slice(), columns),
        Ty::Bag(element) => {
            columns.push(tags_of(alloc, element)?)?;
            push_columns(alloc, element, columns)
        }
    }
}

#[cycle(paths)]
fn push_field_columns(
    alloc: Global,
    fields: &[(Label, Ty)],
    columns: &mut List<List<u64>>,
) -> Result<(), Memory>
    ensures { OnOk result (columns.new ≡ columns.old ++ map tags_of
        (element_types_in (field_types_of (fields_view fields.now)))) }
{
    for field in fields {
        push_columns(alloc, &field.1, columns)?;
    }
    Ok(())
}

// The columns of the tags in an element.
fn tags_of(alloc: Global, element: &Ty) -> Result<List<u64>, Memory>
    ensures { IfOk result (λ tags. tags ≡ tags_of (type_tree element.now)) }
{
    let mut tags = Tags {
        next: 3,
        columns: List::new(alloc),
    };
    put_part(&mut tags, element)?;
    Ok(tags.columns)
}

// Goes past the columns of a part of the element.
#[cycle(parts)]
fn put_part(tags: &mut Tags, part: &Ty) -> Result<(), Memory>
    ensures { OnOk result (tags.new ≡ with_part tags.old (type_tree part.now)) }
{
    match part {
        Ty::Int | Ty::Bool | Ty::Text => skip(tags, 1),
        Ty::Rec(fields) => put_fields(tags, fields.as_slice()),
        Ty::Bag(_) => {
            tags.columns.push(tags.next)?;
            skip(tags, 2)
        }
        Ty::Fun(_, _) => Ok(()),
    }
}

#[cycle(parts)]
fn put_fields(tags: &mut Tags, fields: &[(Label, Ty)]) -> Result<(), Memory>
    ensures { OnOk result (tags.new
        ≡ with_parts tags.old (field_types_of (fields_view fields.now))) }
{
    for field in fields {
        put_part(tags, &field.1)?;
    }
    Ok(())
}

// Goes past so many columns.
fn skip(tags: &mut Tags, count: u64) -> Result<(), Memory>
    ensures { OnOk result (tags.new
        ≡ record { next = tags.old.next + count; columns = tags.old.columns }) }
{
    tags.next = tags.next.checked_add(count).ok_or(Memory)?;
    Ok(())
}
