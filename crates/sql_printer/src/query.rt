// Queries, their SELECTs and items.
ghost use Rattle.std.specs.Prelude.{◌≡◌, ◌++◌, OnOk, codes, string_bytes};
ghost use Rattle.sql_profile.specs.Printed.{printed_items, printed_keep, printed_query, printed_select, printed_value, quoted};
ghost use Rattle.sql_profile.specs.Parts.{exprs_tree, items_tree, keep_tree};
ghost use Rattle.sql_profile.specs.Trees.{bare_value, number, placed_value, query_tree, select_tree};

use crate::expr::{put_expr, put_keys};
use crate::from::put_from;
use crate::literal::{put_lead, put_name};
use nq_model::Memory;
use sql_profile::{Expr, Item, ItemValue, Query, Select};

// The SELECTs, joined by UNION ALL.
#[cycle(put)]
pub(crate) fn put_query(text: &mut String, query: &Query) -> Result<(), Memory>
    ensures { OnOk result (string_bytes text.new
        ≡ string_bytes text.old ++ printed_query (query_tree query.now)) }
{
    for (place, select) in query.selects.as_slice().iter().enumerate() {
        put_lead(text, place, "", " UNION ALL ")?;
        put_select(text, select)?;
    }
    Ok(())
}

#[cycle(put)]
fn put_select(text: &mut String, select: &Select) -> Result<(), Memory>
    ensures { OnOk result (string_bytes text.new
        ≡ string_bytes text.old ++ printed_select (select_tree select.now)) }
{
    text.push_str("SELECT ")?;
    put_items(text, select.items.as_slice())?;
    put_from(text, select.from.as_slice())?;
    put_keep(text, &select.keep)
}

// WHERE and the condition, if there is one.
#[cycle(put)]
pub(crate) fn put_keep(text: &mut String, keep: &Option<Expr>) -> Result<(), Memory>
    ensures { OnOk result (string_bytes text.new
        ≡ string_bytes text.old ++ printed_keep (keep_tree keep.now)) }
{
    if let Some(condition) = keep {
        text.push_str(" WHERE ")?;
        put_expr(text, condition)?;
    }
    Ok(())
}

#[cycle(put)]
fn put_items(text: &mut String, items: &[Item]) -> Result<(), Memory>
    ensures { OnOk result (string_bytes text.new
        ≡ string_bytes text.old ++ printed_items (items_tree items.now)) }
{
    for (place, item) in items.iter().enumerate() {
        put_lead(text, place, "", ", ")?;
        put_item(text, item)?;
    }
    Ok(())
}

// The value and the name of an item.
#[cycle(put)]
fn put_item(text: &mut String, item: &Item) -> Result<(), Memory>
    ensures { OnOk result (string_bytes text.new
        ≡ string_bytes text.old ++ (printed_value (bare_value (placed_value item.now.value))
        ++ (codes " AS " ++ quoted item.now.name))) }
{
    put_value(text, &item.value)?;
    text.push_str(" AS ")?;
    put_name(text, &item.name)
}

#[cycle(put)]
fn put_value(text: &mut String, value: &ItemValue) -> Result<(), Memory>
    ensures { OnOk result (string_bytes text.new
        ≡ string_bytes text.old ++ printed_value (bare_value (placed_value value.now))) }
{
    match value {
        ItemValue::Plain(expr) => put_expr(text, expr),
        ItemValue::Number(keys) => put_number(text, keys.as_slice()),
    }
}

// A numbering by these order keys.
#[cycle(put)]
fn put_number(text: &mut String, keys: &[Expr]) -> Result<(), Memory>
    ensures { OnOk result (string_bytes text.new
        ≡ string_bytes text.old ++ printed_value (number (exprs_tree keys.now))) }
{
    text.push_str("ROW_NUMBER() OVER (")?;
    put_keys(text, keys)?;
    text.push_str(")")?;
    Ok(())
}
