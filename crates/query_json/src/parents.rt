// Where the bags at each path stand in the answer around.
ghost use Rattle.std.specs.Prelude.{◌≡◌, ◌+◌, ◌++◌, IfOk, OnOk, length};
ghost use Rattle.nq_model.specs.Types.{type_tree, field_types_of, fields_view};
ghost use Rattle.shred_types.specs.Columns.{fields_columns};
ghost use Rattle.shred_types.specs.Places.{width};
ghost use Rattle.query_json.specs.Parents.{parents, parents_in, field_parents};

use nq_model::{Label, List, Memory, Ty};
use std::alloc::Global;

/// The text whose answer is around, and the column there of the tags of the bags, both counted from
/// 1.
#[derive(Clone, Copy)]
pub struct Parent {
    pub text: u64,
    pub column: u64,
}

/// The parents of the bags of a bag type, in path order; the outermost has none.
#[tactic(auto, using(nq_model::proofs::Terms::type_of_record))]
pub(crate) fn parents(alloc: Global, of: &Ty) -> Result<List<Option<Parent>>, Memory>
    ensures { IfOk result (λ list. list ≡ parents (type_tree of.now)) }
{
    let mut list = List::new(alloc);
    if let Ty::Bag(element) = of {
        list.push(None)?;
        push_parents(&mut list, element, 1, 3)?;
    }
    Ok(list)
}

// Puts the parents of the bags in an element at the end, of which each of those before has a text,
// and gives the column behind the element.
#[cycle(parents)]
#[tactic(auto, using(nq_model::proofs::Terms::type_of_record))]
fn push_parents(
    list: &mut List<Option<Parent>>,
    element: &Ty,
    around: u64,
    column: u64,
) -> Result<u64, Memory>
    ensures pushed { OnOk result (list.new ≡ list.old
        ++ parents_in (type_tree element.now) around column (length list.old + 1)) }
    ensures behind { IfOk result (λ next. next ≡ column + width (type_tree element.now)) }
{
    match element {
        Ty::Int | Ty::Bool | Ty::Text => column.checked_add(1).ok_or(Memory),
        Ty::Rec(fields) => push_field_parents(list, fields.as_slice(), around, column),
        Ty::Bag(inner) => {
            list.push(Some(Parent {
                text: around,
                column,
            }))?;
            let own = list.len() as u64;
            push_parents(list, inner, own, 3)?;
            column.checked_add(2).ok_or(Memory)
        }
        Ty::Fun(_, _) => Ok(column),
    }
}

#[cycle(parents)]
fn push_field_parents(
    list: &mut List<Option<Parent>>,
    fields: &[(Label, Ty)],
    around: u64,
    column: u64,
) -> Result<u64, Memory>
    ensures pushed { OnOk result (list.new ≡ list.old
        ++ field_parents (field_types_of (fields_view fields.now)) around column
        (length list.old + 1)) }
    ensures behind { IfOk result (λ next. next ≡ column
        + length (fields_columns (field_types_of (fields_view fields.now)))) }
{
    let mut next = column;
    for field in fields {
        next = push_parents(list, &field.1, around, next)?;
    }
    Ok(next)
}
