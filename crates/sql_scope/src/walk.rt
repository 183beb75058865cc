// The walk over expressions and queries in judging order.
ghost use Rattle.std.specs.Prelude.{◌≡◌, [], IfErr, IfOk, map};
ghost use Rattle.sql_profile.specs.Scope.{Fine, judge_expr, judge_items, judge_keep, judge_keys, judge_query, judge_select, judge_sources, judge_value};
ghost use Rattle.sql_profile.specs.Trees.{placed_expr, placed_link, placed_picked, placed_query, placed_select, placed_value};
ghost use Rattle.sql_scope.specs.Steps.{Faults, Gives, aliases_in, alike, bounds, judge_columns, judge_links, judge_parts, judge_picked, judge_source, judge_summed, placed_items, placed_keep, placed_keys};

use crate::aliases::{Scope, Sources};
use crate::fault::ScopeFault;
use crate::names::{Columns, Names};
use crate::place::place_of;
use crate::rules;
use crate::tables::Tables;
use nq_model::{Binary, ColumnType};
use sql_profile::{Expr, ExprNode, Item, ItemValue, Link, Picked, Query, Select, Source};
use std::alloc::Global;

// The columns of a whole query, where no alias is seen.
pub(crate) fn judge_whole<'a>(
    alloc: Global,
    tables: &Tables<'a>,
    query: &'a Query,
) -> Result<Columns<'a>, ScopeFault>
    ensures { Gives result (judge_query tables.now [] (placed_query query.now)) }
{
    judge_query(alloc, tables, &Scope::Outermost, query)
}

// The type of an expression.
#[cycle(judge)]
pub(crate) fn judge_expr<'t, 'a>(
    alloc: Global,
    tables: &'t Tables<'a>,
    scope: &Scope<'_, 't, 'a>,
    expr: &'a Expr,
) -> Result<ColumnType, ScopeFault>
    ensures { Gives result (judge_expr tables.now (aliases_in scope.now) (placed_expr expr.now)) }
{
    let place = expr.place;
    match &expr.node {
        ExprNode::Int(_) => Ok(ColumnType::Int),
        ExprNode::Bool(_) => Ok(ColumnType::Bool),
        ExprNode::Text(_) => Ok(ColumnType::Text),
        ExprNode::Column { alias, column } => rules::column(scope, place, alias, column),
        ExprNode::Unary { op, of } => {
            let of = judge_expr(alloc, tables, scope, of)?;
            rules::unary(*op, place, of)
        }
        ExprNode::Binary { op, left, right } => {
            let left = judge_expr(alloc, tables, scope, left)?;
            let right = judge_expr(alloc, tables, scope, right)?;
            rules::binary(*op, place, left, right)
        }
        ExprNode::Chain { op, first, more } => {
            let first = judge_expr(alloc, tables, scope, first)?;
            judge_links(alloc, tables, scope, *op, first, more.as_slice())
        }
        ExprNode::Choose { test, yes, no } => {
            let test = judge_expr(alloc, tables, scope, test)?;
            let yes = judge_expr(alloc, tables, scope, yes)?;
            let no = judge_expr(alloc, tables, scope, no)?;
            rules::choice(place, test, yes, no)
        }
        ExprNode::NotExists(query) => {
            judge_query(alloc, tables, scope, query)?;
            Ok(ColumnType::Bool)
        }
        ExprNode::Count(over) => {
            judge_picked(alloc, tables, scope, over)?;
            Ok(ColumnType::Int)
        }
        ExprNode::Sum { over, value } => {
            let own = judge_picked(alloc, tables, scope, over)?;
            let inner = Scope::Inner(&own, &*scope);
            judge_summed(alloc, tables, &inner, value)
        }
    }
}

// The type of a chain whose first part has this type: link by link, each by its part and then by
// its operator.
#[cycle(judge)]
fn judge_links<'t, 'a>(
    alloc: Global,
    tables: &'t Tables<'a>,
    scope: &Scope<'_, 't, 'a>,
    op: Binary,
    first: ColumnType,
    links: &'a [Link],
) -> Result<ColumnType, ScopeFault>
    ensures { Gives result (judge_links tables.now (aliases_in scope.now) op first
        (map placed_link links.now)) }
{
    let mut given = first;
    for link in links {
        let right = judge_expr(alloc, tables, scope, &link.right)?;
        given = rules::binary(op, link.place, given, right)?;
    }
    Ok(given)
}

// The aliases of a scalar query, whose condition, if there is one, is a truth value.
#[cycle(judge)]
pub(crate) fn judge_picked<'t, 'a>(
    alloc: Global,
    tables: &'t Tables<'a>,
    scope: &Scope<'_, 't, 'a>,
    over: &'a Picked,
) -> Result<Sources<'t, 'a>, ScopeFault>
    ensures ok { IfOk result (λ own.
        judge_picked tables.now (aliases_in scope.now) (placed_picked over.now)
        ≡ Fine (bounds own)) }
    ensures err { IfErr result
        (Faults (judge_picked tables.now (aliases_in scope.now) (placed_picked over.now))) }
{
    let own = judge_sources(alloc, tables, over.from.as_slice())?;
    let inner = Scope::Inner(&own, &*scope);
    judge_keep(alloc, tables, &inner, &over.keep)?;
    Ok(own)
}

// The summed expression of a scalar query, where the aliases of its FROM are seen, is an int.
#[cycle(judge)]
fn judge_summed<'t, 'a>(
    alloc: Global,
    tables: &'t Tables<'a>,
    scope: &Scope<'_, 't, 'a>,
    value: &'a Expr,
) -> Result<ColumnType, ScopeFault>
    ensures { Gives result (judge_summed tables.now (aliases_in scope.now)
        (placed_expr value.now)) }
{
    let given = judge_expr(alloc, tables, scope, value)?;
    rules::summed(place_of(value), given)
}

// The columns of a query: those of its first SELECT, as which each further one has to be typed.
#[cycle(judge)]
pub(crate) fn judge_query<'t, 'a>(
    alloc: Global,
    tables: &'t Tables<'a>,
    scope: &Scope<'_, 't, 'a>,
    query: &'a Query,
) -> Result<Columns<'a>, ScopeFault>
    ensures { Gives result (judge_query tables.now (aliases_in scope.now)
        (placed_query query.now)) }
{
    let mut first: Option<Columns<'a>> = None;
    for select in query.selects.as_slice() {
        let columns = judge_select(alloc, tables, scope, select)?;
        first = Some(alike(first, columns, select.place)?);
    }
    match first {
        Some(columns) => Ok(columns),
        None => Err(ScopeFault::Broken { rule: 0, place: 0 }),
    }
}

// The columns of a SELECT.
#[cycle(judge)]
pub(crate) fn judge_select<'t, 'a>(
    alloc: Global,
    tables: &'t Tables<'a>,
    scope: &Scope<'_, 't, 'a>,
    select: &'a Select,
) -> Result<Columns<'a>, ScopeFault>
    ensures { Gives result (judge_select tables.now (aliases_in scope.now)
        (placed_select select.now)) }
{
    let own = judge_sources(alloc, tables, select.from.as_slice())?;
    let inner = Scope::Inner(&own, &*scope);
    judge_parts(alloc, tables, &inner, select)
}

// The columns of a SELECT where the aliases of its FROM are seen: its condition, and then its
// items.
#[cycle(judge)]
fn judge_parts<'t, 'a>(
    alloc: Global,
    tables: &'t Tables<'a>,
    scope: &Scope<'_, 't, 'a>,
    select: &'a Select,
) -> Result<Columns<'a>, ScopeFault>
    ensures { Gives result (judge_parts tables.now (aliases_in scope.now)
        (placed_select select.now)) }
{
    judge_keep(alloc, tables, scope, &select.keep)?;
    judge_columns(alloc, tables, scope, select)
}

// The columns that the items of a SELECT make.
#[cycle(judge)]
fn judge_columns<'t, 'a>(
    alloc: Global,
    tables: &'t Tables<'a>,
    scope: &Scope<'_, 't, 'a>,
    select: &'a Select,
) -> Result<Columns<'a>, ScopeFault>
    ensures { Gives result (judge_columns tables.now (aliases_in scope.now)
        (placed_select select.now)) }
{
    judge_items(alloc, tables, scope, select.items.as_slice())
}

// The condition of a SELECT, if there is one, is a truth value.
#[cycle(judge)]
pub(crate) fn judge_keep<'t, 'a>(
    alloc: Global,
    tables: &'t Tables<'a>,
    scope: &Scope<'_, 't, 'a>,
    keep: &'a Option<Expr>,
) -> Result<ColumnType, ScopeFault>
    ensures { Gives result (judge_keep tables.now (aliases_in scope.now) (placed_keep keep.now)) }
{
    match keep {
        None => Ok(ColumnType::Bool),
        Some(condition) => {
            let given = judge_expr(alloc, tables, scope, condition)?;
            rules::condition(place_of(condition), given)
        }
    }
}

// The columns that items make, whose names differ.
#[cycle(judge)]
fn judge_items<'t, 'a>(
    alloc: Global,
    tables: &'t Tables<'a>,
    scope: &Scope<'_, 't, 'a>,
    items: &'a [Item],
) -> Result<Columns<'a>, ScopeFault>
    ensures { Gives result (judge_items tables.now (aliases_in scope.now) []
        (placed_items items.now)) }
{
    let mut columns = Names::with_capacity(alloc, items.len())?;
    for item in items {
        let ty = judge_value(alloc, tables, scope, &item.value)?;
        if columns.get(&item.name).is_some() {
            return Err(ScopeFault::Broken {
                rule: 7,
                place: item.place,
            });
        }
        columns = columns.with(&item.name, ty)?;
    }
    Ok(columns)
}

#[cycle(judge)]
pub(crate) fn judge_value<'t, 'a>(
    alloc: Global,
    tables: &'t Tables<'a>,
    scope: &Scope<'_, 't, 'a>,
    value: &'a ItemValue,
) -> Result<ColumnType, ScopeFault>
    ensures { Gives result (judge_value tables.now (aliases_in scope.now)
        (placed_value value.now)) }
{
    match value {
        ItemValue::Plain(expr) => judge_expr(alloc, tables, scope, expr),
        ItemValue::Number(keys) => judge_keys(alloc, tables, scope, keys.as_slice()),
    }
}

// Order keys may have any type.
#[cycle(judge)]
fn judge_keys<'t, 'a>(
    alloc: Global,
    tables: &'t Tables<'a>,
    scope: &Scope<'_, 't, 'a>,
    keys: &'a [Expr],
) -> Result<ColumnType, ScopeFault>
    ensures { Gives result (judge_keys tables.now (aliases_in scope.now) (placed_keys keys.now)) }
{
    for key in keys {
        judge_expr(alloc, tables, scope, key)?;
    }
    Ok(ColumnType::Int)
}

// The aliases of a FROM, each with the columns of its source.
pub(crate) fn judge_sources<'t, 'a>(
    alloc: Global,
    tables: &'t Tables<'a>,
    sources: &'a [Source],
) -> Result<Sources<'t, 'a>, ScopeFault>
    ensures ok { IfOk result (λ own. judge_sources tables.now [] sources.now ≡ Fine (bounds own)) }
    ensures err { IfErr result (Faults (judge_sources tables.now [] sources.now)) }
{
    let mut own = Names::with_capacity(alloc, sources.len())?;
    for source in sources {
        let columns = judge_source(tables, &own, source)?;
        own = own.with(&source.alias, columns)?;
    }
    Ok(own)
}

// The columns of a source, which names a table or a WITH query, and whose alias is none of the
// earlier ones.
fn judge_source<'t, 'a>(
    tables: &'t Tables<'a>,
    earlier: &Sources<'_, '_>,
    source: &Source,
) -> Result<&'t Columns<'a>, ScopeFault>
    ensures ok { IfOk result (λ columns.
        judge_source tables.now (bounds earlier.now) source.now
        ≡ Fine (source.now.alias, columns.now)) }
    ensures err { IfErr result (Faults (judge_source tables.now (bounds earlier.now) source.now)) }
{
    let place = source.place;
    let Some(columns) = tables.find(&source.table) else {
        return Err(ScopeFault::Broken { rule: 1, place });
    };
    if earlier.get(&source.alias).is_some() {
        return Err(ScopeFault::Broken { rule: 2, place });
    }
    Ok(columns)
}

// The columns of the first SELECT, as which this one has to be typed.
fn alike<'a>(
    first: Option<Columns<'a>>,
    columns: Columns<'a>,
    place: u64,
) -> Result<Columns<'a>, ScopeFault>
    ensures { Gives result (alike first.entry columns.entry place) }
{
    match first {
        None => Ok(columns),
        Some(first) => {
            if columns.same_types(&first) {
                Ok(first)
            } else {
                Err(ScopeFault::Broken { rule: 8, place })
            }
        }
    }
}
