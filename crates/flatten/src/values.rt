// The values of the items of an answer.
ghost use Rattle.std.specs.Prelude.{◌≡◌, ◌++◌, ◌∷◌, [], IfOk, OnOk, map, pos, length};
ghost use Rattle.nq_ir.specs.Lets.{columns_in};
ghost use Rattle.nq_ir.specs.Trees.{shape_tree, shapes_of, shapes_view};
ghost use Rattle.nq_ir.specs.WellFormed.{column_names};
ghost use Rattle.sql_profile.specs.Trees.{ExprTree, plain};
ghost use Rattle.flatten.specs.Names.{answer_name};
ghost use Rattle.flatten.specs.Exprs.{order_keys};
ghost use Rattle.flatten.specs.Emitted.{in_gens, shape_values, shapes_values, answer_items, zero_value};
ghost use Rattle.flatten.specs.Views.{items_tree, item_view, value_tree};

use crate::expr::expr;
use crate::keys::order_keys;
use crate::names::answer_name;
use nq_ir::{Gen, Shape};
use nq_model::{ColumnType, Label, List, Memory, Schema, Text};
use sql_profile::{Expr, ExprNode, Item, ItemValue};
use std::alloc::Global;

/// A number. One above 2^63 - 1 stands in no text, and no form has so many comprehensions.
#[tactic(auto, using(crate::proofs::Built::int_built, crate::proofs::Lists::plain_seen))]
pub(crate) fn number(number: u64) -> Result<ItemValue, Memory>
    ensures { IfOk result (λ made. value_tree made ≡ plain (ExprTree.int (pos number))) }
{
    match i64::try_from(number) {
        Ok(number) => Ok(ItemValue::Plain(Expr {
            place: 0,
            node: ExprNode::Int(number),
        })),
        Err(_) => Err(Memory),
    }
}

/// Puts the values of the element columns of a shape at the end. An index is the tag and a number
/// by all columns of the generators that stand outside and of their own.
#[cycle(values)]
#[tactic(auto, using(nq_ir::proofs::Forms::shape_plain, nq_ir::proofs::Forms::shape_rec, nq_ir::proofs::Forms::shape_index, crate::proofs::Lists::plain_seen, crate::proofs::Lists::number_seen))]
pub(crate) fn push_values(
    alloc: Global,
    values: &mut List<ItemValue>,
    schema: &Schema,
    outer: &[Gen],
    own: &[Gen],
    tag: u64,
    shape: &Shape,
    levels: u64,
) -> Result<(), Memory>
    ensures { OnOk result (map value_tree values.new
        ≡ map value_tree values.old
        ++ shape_values (in_gens outer.now) tag
        (order_keys (in_gens outer.now)
        (columns_in (column_names schema.now.tables) (outer.now ++ own.now)))
        (shape_tree shape.now)) }
{
    match shape {
        Shape::Plain(base) => values.push(ItemValue::Plain(expr(alloc, outer, base, levels)?)),
        Shape::Rec(fields) => {
            let fields = fields.as_slice();
            push_fields(alloc, values, schema, outer, own, tag, fields, levels)
        }
        Shape::Index => {
            values.push(number(tag)?)?;
            let keys = order_keys(alloc, schema, outer, own)?;
            values.push(ItemValue::Number(keys))
        }
    }
}

#[cycle(values)]
fn push_fields(
    alloc: Global,
    values: &mut List<ItemValue>,
    schema: &Schema,
    outer: &[Gen],
    own: &[Gen],
    tag: u64,
    fields: &[(Label, Shape)],
    levels: u64,
) -> Result<(), Memory>
    ensures { OnOk result (map value_tree values.new
        ≡ map value_tree values.old
        ++ shapes_values (in_gens outer.now) tag
        (order_keys (in_gens outer.now)
        (columns_in (column_names schema.now.tables) (outer.now ++ own.now)))
        (shapes_of (shapes_view fields.now))) }
{
    for field in fields {
        push_values(alloc, values, schema, outer, own, tag, &field.1, levels)?;
    }
    Ok(())
}

// 0, FALSE or the empty text.
#[tactic(auto, using(crate::proofs::Built::int_built, crate::proofs::Built::bool_built, crate::proofs::Built::text_built, crate::proofs::Lists::plain_seen))]
fn zero(alloc: Global, of: ColumnType) -> Result<ItemValue, Memory>
    ensures { IfOk result (λ made. value_tree made ≡ zero_value of) }
{
    let node = match of {
        ColumnType::Int => ExprNode::Int(0),
        ColumnType::Bool => ExprNode::Bool(false),
        ColumnType::Text => ExprNode::Text(Text::from_str(alloc, "")?),
    };
    Ok(ItemValue::Plain(Expr { place: 0, node }))
}

/// A value of the type of each column.
pub(crate) fn zeros(alloc: Global, columns: &[ColumnType]) -> Result<List<ItemValue>, Memory>
    ensures { IfOk result (λ values. map value_tree values ≡ map zero_value columns.now) }
{
    let mut values = List::with_capacity(alloc, columns.len())?;
    for column in columns {
        values.push(zero(alloc, *column)?)?;
    }
    Ok(values)
}

// Puts a value at the end, under the name of its column.
fn push_item(alloc: Global, items: &mut List<Item>, value: ItemValue) -> Result<(), Memory>
    ensures { OnOk result (map item_view items.new
        ≡ map item_view items.old ++ (answer_name (length items.old), value_tree value) ∷ []) }
{
    let name = answer_name(alloc, items.len())?;
    items.push(Item {
        name,
        place: 0,
        value,
    })
}

/// The values under the names of an answer's columns.
#[tactic(auto, using(crate::proofs::Lists::answer_listed, crate::proofs::Lists::named_more))]
pub(crate) fn answer_items(alloc: Global, values: List<ItemValue>) -> Result<List<Item>, Memory>
    ensures { IfOk result (λ items. items_tree items ≡ answer_items 0 (map value_tree values)) }
{
    let mut items = List::with_capacity(alloc, values.len())?;
    for value in values.into_vec() {
        push_item(alloc, &mut items, value)?;
    }
    Ok(items)
}
