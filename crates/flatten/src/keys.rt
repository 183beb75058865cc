// Columns of generators: as order keys, and as the items of a WITH query.
ghost use Rattle.std.specs.Prelude.{◌≡◌, ◌++◌, ◌∷◌, [], IfOk, OnOk, map};
ghost use Rattle.nq_ir.specs.Lets.{columns_in};
ghost use Rattle.nq_ir.specs.WellFormed.{table_columns, column_names};
ghost use Rattle.sql_profile.specs.Trees.{expr_tree, number, plain};
ghost use Rattle.flatten.specs.Names.{number_name, outer_column};
ghost use Rattle.flatten.specs.Exprs.{column_expr, order_keys};
ghost use Rattle.flatten.specs.Emitted.{in_gens, none_outer, let_items};
ghost use Rattle.flatten.specs.Views.{keys_tree, items_tree, item_view, column_exprs, column_items, gens_exprs, gens_items};

use crate::expr::{column, is_in};
use crate::names::{number_name, outer_column};
use nq_ir::Gen;
use nq_model::{ColumnType, Label, List, Memory, Schema};
use sql_profile::{Expr, Item, ItemValue};
use std::alloc::Global;

/// The columns of the table of this name; a table that is not there has none.
fn columns_of<'a>(schema: &'a Schema, table: &str) -> &'a [(Label, ColumnType)]
    ensures { result.now ≡ table_columns schema.now.tables table.now }
{
    for shape in schema.tables.as_slice() {
        if table == shape.name.as_str() {
            return shape.columns.as_slice();
        }
    }
    &[]
}

// Puts the columns of a generator at the end.
fn push_columns(
    alloc: Global,
    keys: &mut List<Expr>,
    outer: &[Gen],
    number: u64,
    columns: &[(Label, ColumnType)],
) -> Result<(), Memory>
    ensures { OnOk result (map expr_tree keys.new
        ≡ map expr_tree keys.old ++ column_exprs (in_gens outer.now) number columns.now) }
{
    let outside = is_in(outer, number);
    for named in columns {
        keys.push(column(alloc, outside, number, &named.0)?)?;
    }
    Ok(())
}

// Puts the columns of generators at the end.
fn push_keys(
    alloc: Global,
    keys: &mut List<Expr>,
    schema: &Schema,
    outer: &[Gen],
    gens: &[Gen],
) -> Result<(), Memory>
    ensures { OnOk result (map expr_tree keys.new
        ≡ map expr_tree keys.old ++ gens_exprs schema.now.tables (in_gens outer.now) gens.now) }
{
    for generator in gens {
        let columns = columns_of(schema, generator.table.as_str());
        push_columns(alloc, keys, outer, generator.number, columns)?;
    }
    Ok(())
}

/// All columns of generators as order keys: those that stand outside, and then their own.
#[tactic(auto, using(crate::proofs::Lists::keys_listed, crate::proofs::Lists::gens_more))]
pub(crate) fn order_keys(
    alloc: Global,
    schema: &Schema,
    outer: &[Gen],
    own: &[Gen],
) -> Result<List<Expr>, Memory>
    ensures { IfOk result (λ keys.
        keys_tree keys ≡ order_keys (in_gens outer.now)
        (columns_in (column_names schema.now.tables) (outer.now ++ own.now))) }
{
    let mut keys = List::new(alloc);
    push_keys(alloc, &mut keys, schema, outer, outer)?;
    push_keys(alloc, &mut keys, schema, outer, own)?;
    Ok(keys)
}

// A column of a WITH query.
#[tactic(auto, using(crate::proofs::Lists::plain_seen))]
fn column_item(alloc: Global, number: u64, name: &Label) -> Result<Item, Memory>
    ensures { IfOk result (λ item.
        item_view item ≡ (
          outer_column number name.now,
          plain
              (column_expr none_outer number name.now),
        )) }
{
    let value = ItemValue::Plain(column(alloc, false, number, name)?);
    Ok(Item {
        name: outer_column(alloc, number, name.as_str())?,
        place: 0,
        value,
    })
}

// Puts the columns of a generator at the end.
fn push_column_items(
    alloc: Global,
    items: &mut List<Item>,
    number: u64,
    columns: &[(Label, ColumnType)],
) -> Result<(), Memory>
    ensures { OnOk result (map item_view items.new
        ≡ map item_view items.old ++ column_items number columns.now) }
{
    for named in columns {
        items.push(column_item(alloc, number, &named.0)?)?;
    }
    Ok(())
}

// The columns of generators.
fn gens_items(alloc: Global, schema: &Schema, gens: &[Gen]) -> Result<List<Item>, Memory>
    ensures { IfOk result (λ items. map item_view items ≡ gens_items schema.now.tables gens.now) }
{
    let mut items = List::new(alloc);
    for generator in gens {
        let columns = columns_of(schema, generator.table.as_str());
        push_column_items(alloc, &mut items, generator.number, columns)?;
    }
    Ok(items)
}

// The number of a row by these keys.
#[tactic(auto, using(crate::proofs::Lists::number_seen))]
fn number_item(alloc: Global, keys: List<Expr>) -> Result<Item, Memory>
    ensures { IfOk result (λ item. item_view item ≡ (number_name, number (keys_tree keys))) }
{
    Ok(Item {
        name: number_name(alloc)?,
        place: 0,
        value: ItemValue::Number(keys),
    })
}

/// The items of the WITH query of these generators: all their columns, and a number by them.
#[tactic(auto, using(crate::proofs::Lists::let_done))]
pub(crate) fn let_items(alloc: Global, schema: &Schema, gens: &[Gen]) -> Result<List<Item>, Memory>
    ensures { IfOk result (λ items.
        items_tree items ≡ let_items
        (order_keys none_outer (columns_in (column_names schema.now.tables) gens.now))
        (columns_in (column_names schema.now.tables) gens.now)) }
{
    let mut items = gens_items(alloc, schema, gens)?;
    let keys = order_keys(alloc, schema, &[], gens)?;
    items.push(number_item(alloc, keys)?)?;
    Ok(items)
}
