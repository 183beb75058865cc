// Parts of elements from the type of a bag and the answers for it.
ghost use Rattle.std.specs.Prelude.{◌≡◌, ◌+◌, [], suc, IfOk, OnOk, drop, get_or, length};
ghost use Rattle.nq_model.specs.Types.{type_tree, bag, field_types_of, fields_view};
ghost use Rattle.nq_ir.specs.Parts.{bags, bags_in};
ghost use Rattle.shred_types.specs.Columns.{fields_columns};
ghost use Rattle.shred_types.specs.Places.{width};
ghost use Rattle.answer_text.specs.Building.{rows_left, IsPartOf, AreFieldsOf, IsBagOf};

use crate::groups::Groups;
use crate::heading::Heading;
use crate::part::Part;
use nq_model::{Label, List, Memory, Ty, boxed};
use rows::Rows;
use sql_profile::Answer;
use std::alloc::Global;

/// The bags at one path: their rows in groups, and what is the element that each row is.
#[derive(Drop)]
pub(crate) struct Bags {
    pub(crate) groups: Groups,
    pub(crate) element: Part,
}

// Takes the next answer, which is the last; no rows where there is none.
#[tactic(auto, using(crate::proofs::Building::next_rules))]
fn next_rows(alloc: Global, left: &mut List<Answer>) -> Rows
    ensures rows { result ≡ get_or (rows_left left.old) 0 [] }
    ensures left { rows_left left.new ≡ drop 1 (rows_left left.old) }
{
    match left.pop() {
        Some(answer) => answer.rows,
        None => Rows::new(alloc),
    }
}

/// The bags of elements of a type, whose answers are taken: first theirs, and then those for the
/// bags in the element. Fails only if memory runs out.
#[cycle(build)]
pub(crate) fn bags_of(alloc: Global, of: &Ty, left: &mut List<Answer>) -> Result<Bags, Memory>
    ensures bag { IfOk result (λ made.
        IsBagOf (type_tree of.now) (rows_left left.old) made.groups made.element) }
    ensures left { OnOk result (rows_left left.new
        ≡ drop (suc (bags (type_tree of.now))) (rows_left left.old)) }
{
    let rows = next_rows(alloc, left);
    let mut column = 2;
    let element = part_of(alloc, of, &mut column, left)?;
    let groups = Groups::new(alloc, rows, &element)?;
    Ok(Bags { groups, element })
}

// The part that is the bag under the index in a column.
#[cycle(build)]
#[tactic(auto, using(crate::proofs::Building::bag_part))]
fn bag_part(alloc: Global, of: &Ty, column: usize, left: &mut List<Answer>) -> Result<Part, Memory>
    ensures part { IfOk result (λ part.
        IsPartOf (bag (type_tree of.now)) (rows_left left.old) column part) }
    ensures left { OnOk result (rows_left left.new
        ≡ drop (suc (bags (type_tree of.now))) (rows_left left.old)) }
{
    let made = bags_of(alloc, of, left)?;
    let element = boxed(alloc, made.element)?;
    Ok(Part::Bag(column, made.groups, element))
}

// The part whose first column comes next, which is then that behind the part.
#[cycle(build)]
#[tactic(auto, using(nq_model::proofs::Terms::type_of_record, crate::proofs::Building::part_rules))]
fn part_of(
    alloc: Global,
    of: &Ty,
    column: &mut usize,
    left: &mut List<Answer>,
) -> Result<Part, Memory>
    ensures part { IfOk result (λ part.
        IsPartOf (type_tree of.now) (rows_left left.old) column.old part) }
    ensures column { OnOk result (column.new ≡ column.old + width (type_tree of.now)) }
    ensures left { OnOk result (rows_left left.new
        ≡ drop (bags (type_tree of.now)) (rows_left left.old)) }
{
    match of {
        Ty::Int | Ty::Bool | Ty::Text => {
            let cell = *column;
            *column = cell.checked_add(1).ok_or(Memory)?;
            Ok(Part::Cell(cell))
        }
        Ty::Rec(fields) => {
            let parts = parts_of(alloc, fields.as_slice(), column, left)?;
            Ok(Part::Record(parts))
        }
        Ty::Bag(of) => {
            let index = *column;
            *column = index.checked_add(2).ok_or(Memory)?;
            bag_part(alloc, of, index, left)
        }
        Ty::Fun(_, _) => Ok(Part::Record(List::new(alloc))),
    }
}

// The same for fields.
#[cycle(build)]
fn parts_of(
    alloc: Global,
    fields: &[(Label, Ty)],
    column: &mut usize,
    left: &mut List<Answer>,
) -> Result<List<(Heading, Part)>, Memory>
    ensures parts { IfOk result (λ parts. AreFieldsOf
        (field_types_of (fields_view fields.now)) (rows_left left.old) column.old parts) }
    ensures column { OnOk result (column.new
        ≡ column.old + length (fields_columns (field_types_of (fields_view fields.now)))) }
    ensures left { OnOk result (rows_left left.new
        ≡ drop (bags_in (field_types_of (fields_view fields.now))) (rows_left left.old)) }
{
    let mut parts = List::with_capacity(alloc, fields.len())?;
    for field in fields {
        let heading = Heading::new(alloc, &field.0)?;
        parts.push((heading, part_of(alloc, &field.1, column, left)?))?;
    }
    Ok(parts)
}
