// What is found where judging a text stops.
ghost use Rattle.std.specs.Prelude.{◌≡◌, [], IfOk, map};
ghost use Rattle.sql_profile.specs.Scope.{found, judge_expr, judge_value, shapes_of_schema};
ghost use Rattle.sql_profile.specs.Trees.{placed, placed_expr, placed_link, placed_picked};
ghost use Rattle.sql_profile.specs.Trees.{placed_query, placed_select, placed_value, placed_with};
ghost use Rattle.sql_scope.specs.Found.{expr_found, items_found, keep_found, keys_found, nothing};
ghost use Rattle.sql_scope.specs.Found.{query_found, select_found, source_found, text_found};
ghost use Rattle.sql_scope.specs.Found.{value_found, withs_found};
ghost use Rattle.sql_scope.specs.Parts.{IsInside, IsPart, columns_found, further_found};
ghost use Rattle.sql_scope.specs.Parts.{last_found, links_found, parts_found, picked_found};
ghost use Rattle.sql_scope.specs.Steps.{aliases_in, placed_items, placed_keep, placed_keys};

use crate::aliases::Scope;
use crate::base::binary_type;
use crate::fault::ScopeFault;
use crate::names::{Columns, Names};
use crate::tables::Tables;
use crate::walk::{
    judge_expr, judge_keep, judge_picked, judge_select, judge_sources, judge_value, judge_whole,
};
use nq_model::{Binary, ColumnType, Label, List, Memory, Schema};
use sql_profile::{Expr, ExprNode, Item, ItemValue, Link, Picked, Query, Select, SqlText};
use std::alloc::Global;

/// What is found where judging a text stops. `Types` has the types of the parts of the expression
/// that breaks a rule, in the order of the text, and is empty where the rule asks for none;
/// `Columns` the columns of the source that lacks one; `Rows` the types of the first SELECT and
/// those of one that differs from it.
#[derive(Drop)]
pub enum Found {
    Types(List<ColumnType>),
    Columns(List<(Label, ColumnType)>),
    Rows(List<ColumnType>, List<ColumnType>),
}

// The type of a part; or what is found in it, where judging it stops.
#[derive(Drop)]
enum Part {
    Typed(ColumnType),
    Stopped(Found),
}

// Nothing that a rule asks for.
fn nothing(alloc: Global) -> Found
    ensures { result ≡ nothing }
{
    Found::Types(List::new(alloc))
}

// The columns of the source of a column, if there is one.
fn columns_at(alloc: Global, scope: &Scope<'_, '_, '_>, alias: &Label) -> Result<Found, Memory>
    ensures { IfOk result (λ there. there
        ≡ source_found (found alias.now (aliases_in scope.now))) }
{
    match scope.find(alias) {
        Some(columns) => Ok(Found::Columns(columns.copy(alloc)?)),
        None => Ok(nothing(alloc)),
    }
}

// A part is judged, and searched only where that stops.
#[cycle(find)]
fn judge_part<'t, 'a>(
    alloc: Global,
    tables: &'t Tables<'a>,
    scope: &Scope<'_, 't, 'a>,
    expr: &'a Expr,
) -> Result<Part, Memory>
    ensures { IfOk result (IsPart
        (judge_expr tables.now (aliases_in scope.now) (placed_expr expr.now))
        (expr_found tables.now (aliases_in scope.now) (placed_expr expr.now))) }
{
    match judge_expr(alloc, tables, scope, expr) {
        Ok(ty) => Ok(Part::Typed(ty)),
        Err(ScopeFault::Memory) => Err(Memory),
        Err(ScopeFault::Broken { .. }) => {
            Ok(Part::Stopped(find_expr(alloc, tables, scope, expr)?))
        }
    }
}

// In the last part that a rule asks for; or its type behind those of the parts before it.
#[cycle(find)]
fn find_last<'t, 'a>(
    alloc: Global,
    tables: &'t Tables<'a>,
    scope: &Scope<'_, 't, 'a>,
    before: &[ColumnType],
    expr: &'a Expr,
) -> Result<Found, Memory>
    ensures { IfOk result (λ there. there
        ≡ last_found tables.now (aliases_in scope.now) before.now (placed_expr expr.now)) }
{
    match judge_part(alloc, tables, scope, expr)? {
        Part::Typed(ty) => {
            let mut types = List::from_slice(alloc, before)?;
            types.push(ty)?;
            Ok(Found::Types(types))
        }
        Part::Stopped(there) => Ok(there),
    }
}

// In an expression, where judging it stops.
#[cycle(find)]
fn find_expr<'t, 'a>(
    alloc: Global,
    tables: &'t Tables<'a>,
    scope: &Scope<'_, 't, 'a>,
    expr: &'a Expr,
) -> Result<Found, Memory>
    ensures { IfOk result (IsInside
        (judge_expr tables.now (aliases_in scope.now) (placed_expr expr.now))
        (expr_found tables.now (aliases_in scope.now) (placed_expr expr.now))) }
{
    match &expr.node {
        ExprNode::Int(_) | ExprNode::Bool(_) | ExprNode::Text(_) => Ok(nothing(alloc)),
        ExprNode::Column { alias, .. } => columns_at(alloc, scope, alias),
        ExprNode::Unary { of, .. } => find_last(alloc, tables, scope, &[], of),
        ExprNode::Binary { left, right, .. } => match judge_part(alloc, tables, scope, left)? {
            Part::Typed(left) => find_last(alloc, tables, scope, &[left], right),
            Part::Stopped(there) => Ok(there),
        },
        ExprNode::Chain { op, first, more } => match judge_part(alloc, tables, scope, first)? {
            Part::Typed(first) => find_links(alloc, tables, scope, *op, first, more.as_slice()),
            Part::Stopped(there) => Ok(there),
        },
        ExprNode::Choose { test, yes, no } => match judge_part(alloc, tables, scope, test)? {
            Part::Typed(test) => match judge_part(alloc, tables, scope, yes)? {
                Part::Typed(yes) => find_last(alloc, tables, scope, &[test, yes], no),
                Part::Stopped(there) => Ok(there),
            },
            Part::Stopped(there) => Ok(there),
        },
        ExprNode::NotExists(query) => find_query(alloc, tables, scope, query),
        ExprNode::Count(over) => find_picked(alloc, tables, scope, over),
        ExprNode::Sum { over, value } => match judge_picked(alloc, tables, scope, over) {
            Ok(own) => {
                let inner = Scope::Inner(&own, &*scope);
                find_last(alloc, tables, &inner, &[], value)
            }
            Err(ScopeFault::Memory) => Err(Memory),
            Err(ScopeFault::Broken { .. }) => find_picked(alloc, tables, scope, over),
        },
    }
}

// In the links of a chain, behind parts of this type: each by its part, and then by its operator.
#[cycle(find)]
fn find_links<'t, 'a>(
    alloc: Global,
    tables: &'t Tables<'a>,
    scope: &Scope<'_, 't, 'a>,
    op: Binary,
    first: ColumnType,
    links: &'a [Link],
) -> Result<Found, Memory>
    ensures { IfOk result (λ there. there ≡ links_found
        tables.now (aliases_in scope.now) op first (map placed_link links.now)) }
{
    let mut given = first;
    for link in links {
        let right = match judge_part(alloc, tables, scope, &link.right)? {
            Part::Typed(right) => right,
            Part::Stopped(there) => return Ok(there),
        };
        let Some(ty) = binary_type(op, given, right) else {
            return Ok(Found::Types(List::from_slice(alloc, &[given, right])?));
        };
        given = ty;
    }
    Ok(nothing(alloc))
}

// In the condition of a scalar query; nothing where its sources break a rule.
#[cycle(find)]
fn find_picked<'t, 'a>(
    alloc: Global,
    tables: &'t Tables<'a>,
    scope: &Scope<'_, 't, 'a>,
    over: &'a Picked,
) -> Result<Found, Memory>
    ensures { IfOk result (λ there. there
        ≡ picked_found tables.now (aliases_in scope.now) (placed_picked over.now)) }
{
    match judge_sources(alloc, tables, over.from.as_slice()) {
        Ok(own) => find_keep(alloc, tables, &Scope::Inner(&own, &*scope), &over.keep),
        Err(ScopeFault::Memory) => Err(Memory),
        Err(ScopeFault::Broken { .. }) => Ok(nothing(alloc)),
    }
}

// In the first SELECT of a query, or in the further ones.
#[cycle(find)]
fn find_query<'t, 'a>(
    alloc: Global,
    tables: &'t Tables<'a>,
    scope: &Scope<'_, 't, 'a>,
    query: &'a Query,
) -> Result<Found, Memory>
    ensures { IfOk result (λ there. there
        ≡ query_found tables.now (aliases_in scope.now) (placed_query query.now)) }
{
    match query.selects.as_slice() {
        [] => Ok(nothing(alloc)),
        [first, others @ ..] => match judge_select(alloc, tables, scope, first) {
            Ok(columns) => find_others(alloc, tables, scope, &columns, others),
            Err(ScopeFault::Memory) => Err(Memory),
            Err(ScopeFault::Broken { .. }) => find_select(alloc, tables, scope, first),
        },
    }
}

// In the further SELECTs; or the types of the first and of one that differs from it.
#[cycle(find)]
fn find_others<'t, 'a>(
    alloc: Global,
    tables: &'t Tables<'a>,
    scope: &Scope<'_, 't, 'a>,
    first: &Columns<'a>,
    others: &'a [Select],
) -> Result<Found, Memory>
    ensures { IfOk result (λ there. there
        ≡ further_found tables.now (aliases_in scope.now) first.now others.now) }
{
    for select in others {
        let columns = match judge_select(alloc, tables, scope, select) {
            Ok(columns) => columns,
            Err(ScopeFault::Memory) => return Err(Memory),
            Err(ScopeFault::Broken { .. }) => return find_select(alloc, tables, scope, select),
        };
        if !columns.same_types(first) {
            return Ok(Found::Rows(first.types(alloc)?, columns.types(alloc)?));
        }
    }
    Ok(nothing(alloc))
}

// In a SELECT; nothing where its sources break a rule.
#[cycle(find)]
fn find_select<'t, 'a>(
    alloc: Global,
    tables: &'t Tables<'a>,
    scope: &Scope<'_, 't, 'a>,
    select: &'a Select,
) -> Result<Found, Memory>
    ensures { IfOk result (λ there. there
        ≡ select_found tables.now (aliases_in scope.now) (placed_select select.now)) }
{
    match judge_sources(alloc, tables, select.from.as_slice()) {
        Ok(own) => find_parts(alloc, tables, &Scope::Inner(&own, &*scope), select),
        Err(ScopeFault::Memory) => Err(Memory),
        Err(ScopeFault::Broken { .. }) => Ok(nothing(alloc)),
    }
}

// In a SELECT where the aliases of its FROM are seen: its condition, and then its items.
#[cycle(find)]
fn find_parts<'t, 'a>(
    alloc: Global,
    tables: &'t Tables<'a>,
    scope: &Scope<'_, 't, 'a>,
    select: &'a Select,
) -> Result<Found, Memory>
    ensures { IfOk result (λ there. there
        ≡ parts_found tables.now (aliases_in scope.now) (placed_select select.now)) }
{
    match judge_keep(alloc, tables, scope, &select.keep) {
        Ok(_) => find_columns(alloc, tables, scope, select),
        Err(ScopeFault::Memory) => Err(Memory),
        Err(ScopeFault::Broken { .. }) => find_keep(alloc, tables, scope, &select.keep),
    }
}

// In the items of a SELECT where the aliases of its FROM are seen.
#[cycle(find)]
fn find_columns<'t, 'a>(
    alloc: Global,
    tables: &'t Tables<'a>,
    scope: &Scope<'_, 't, 'a>,
    select: &'a Select,
) -> Result<Found, Memory>
    ensures { IfOk result (λ there. there
        ≡ columns_found tables.now (aliases_in scope.now) (placed_select select.now)) }
{
    find_items(alloc, tables, scope, select.items.as_slice())
}

// In a condition, if there is one; or its type.
#[cycle(find)]
fn find_keep<'t, 'a>(
    alloc: Global,
    tables: &'t Tables<'a>,
    scope: &Scope<'_, 't, 'a>,
    keep: &'a Option<Expr>,
) -> Result<Found, Memory>
    ensures { IfOk result (λ there. there
        ≡ keep_found tables.now (aliases_in scope.now) (placed_keep keep.now)) }
{
    match keep {
        None => Ok(nothing(alloc)),
        Some(condition) => find_last(alloc, tables, scope, &[], condition),
    }
}

// In the items of a SELECT; nothing at an item whose name an earlier one has.
#[cycle(find)]
fn find_items<'t, 'a>(
    alloc: Global,
    tables: &'t Tables<'a>,
    scope: &Scope<'_, 't, 'a>,
    items: &'a [Item],
) -> Result<Found, Memory>
    ensures { IfOk result (λ there. there
        ≡ items_found tables.now (aliases_in scope.now) [] (placed_items items.now)) }
{
    let mut columns = Names::with_capacity(alloc, items.len())?;
    for item in items {
        let ty = match judge_value(alloc, tables, scope, &item.value) {
            Ok(ty) => ty,
            Err(ScopeFault::Memory) => return Err(Memory),
            Err(ScopeFault::Broken { .. }) => {
                return find_value(alloc, tables, scope, &item.value);
            }
        };
        if columns.get(&item.name).is_some() {
            return Ok(nothing(alloc));
        }
        columns = columns.with(&item.name, ty)?;
    }
    Ok(nothing(alloc))
}

// In the value of an item, where judging it stops.
#[cycle(find)]
fn find_value<'t, 'a>(
    alloc: Global,
    tables: &'t Tables<'a>,
    scope: &Scope<'_, 't, 'a>,
    value: &'a ItemValue,
) -> Result<Found, Memory>
    ensures { IfOk result (IsInside
        (judge_value tables.now (aliases_in scope.now) (placed_value value.now))
        (value_found tables.now (aliases_in scope.now) (placed_value value.now))) }
{
    match value {
        ItemValue::Plain(expr) => find_expr(alloc, tables, scope, expr),
        ItemValue::Number(keys) => find_keys(alloc, tables, scope, keys.as_slice()),
    }
}

// In the order keys of a row number.
#[cycle(find)]
fn find_keys<'t, 'a>(
    alloc: Global,
    tables: &'t Tables<'a>,
    scope: &Scope<'_, 't, 'a>,
    keys: &'a [Expr],
) -> Result<Found, Memory>
    ensures { IfOk result (λ there. there
        ≡ keys_found tables.now (aliases_in scope.now) (placed_keys keys.now)) }
{
    for key in keys {
        if let Part::Stopped(there) = judge_part(alloc, tables, scope, key)? {
            return Ok(there);
        }
    }
    Ok(nothing(alloc))
}

// In a whole query, where no alias is seen.
fn find_whole<'a>(alloc: Global, tables: &Tables<'a>, query: &'a Query) -> Result<Found, Memory>
    ensures { IfOk result (λ there. there ≡ query_found tables.now [] (placed_query query.now)) }
{
    find_query(alloc, tables, &Scope::Outermost, query)
}

// In the WITH queries in order, each of which needs a new name and sees the earlier ones, and then
// in the main query.
fn find_withs<'a>(alloc: Global, mut tables: Tables<'a>, text: &'a SqlText) -> Result<Found, Memory>
    ensures { IfOk result (λ there. there ≡ withs_found tables.entry
        (map placed_with text.now.withs) (placed_query text.now.main)) }
{
    for with in text.withs.as_slice() {
        if tables.find(&with.name).is_some() {
            return Ok(nothing(alloc));
        }
        let columns = match judge_whole(alloc, &tables, &with.query) {
            Ok(columns) => columns,
            Err(ScopeFault::Memory) => return Err(Memory),
            Err(ScopeFault::Broken { .. }) => return find_whole(alloc, &tables, &with.query),
        };
        tables = tables.with(&with.name, columns)?;
    }
    find_whole(alloc, &tables, &text.main)
}

/// What is found where judging a text over the tables of a schema stops. Fails only if memory runs
/// out.
pub fn found_parts(alloc: Global, schema: &Schema, text: &SqlText) -> Result<Found, Memory>
    ensures { IfOk result (λ there. there
        ≡ text_found (shapes_of_schema schema.now.tables) (placed text.now)) }
{
    let tables = Tables::new(alloc, schema.tables.as_slice(), text.withs.len())?;
    find_withs(alloc, tables, text)
}
