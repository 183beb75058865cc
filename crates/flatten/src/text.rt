// The whole tree of a let form.
ghost use Rattle.std.specs.Prelude.{◌≡◌, ◌∷◌, [], ◌<◌, ◌^◌, IfOk, List, length, map};
ghost use Rattle.nq_model.specs.Databases.{database};
ghost use Rattle.nq_model.specs.SchemaTables.{AreTablesOf};
ghost use Rattle.nq_model.specs.Tables.{IsProperSchema};
ghost use Rattle.nq_model.specs.declared.table.Cell.{Cell};
ghost use Rattle.nq_ir.specs.Lets.{FlatRow, FormGives, IsLetFormOf, let_tree, part_tree, strand_of, let_form_tree};
ghost use Rattle.nq_ir.specs.Meanings.{rows_in};
ghost use Rattle.nq_ir.specs.WellFormed.{column_names};
ghost use Rattle.shred_types.specs.Columns.{answer_columns, row_cells};
ghost use Rattle.sql_profile.specs.AllowedAnswers.{TreeAllows};
ghost use Rattle.sql_profile.specs.Scope.{IsWellScoped, shapes_of_schema};
ghost use Rattle.sql_profile.specs.Servers.{held_of};
ghost use Rattle.sql_profile.specs.Trees.{no_select, query_tree, select_tree, sql_tree, with_tree};
ghost use Rattle.flatten.specs.Names.{with_name};
ghost use Rattle.flatten.specs.Emitted.{answer_shape, emitted, empty_query, let_select, main_query, strand_select, withs_from};
ghost use Rattle.flatten.specs.Views.{query_from, part_strand_select};

use crate::names::with_name;
use crate::select::{let_select, part_select};
use crate::values::{answer_items, zeros};
use nq_ir::{LetForm, LetPart, LetQuery};
use nq_model::{ColumnType, List, Memory, Schema};
use sql_profile::{Expr, ExprNode, Query, Select, SqlText, With};
use std::alloc::Global;

// A query of these SELECTs.
fn query(selects: List<Select>) -> Query
    ensures { query_tree result ≡ query_from (map select_tree selects) }
{
    Query { selects }
}

// The WITH query of the let with a number.
fn with_query(alloc: Global, schema: &Schema, number: u64, from: &LetQuery) -> Result<With, Memory>
    ensures { IfOk result (λ made.
        with_tree made ∷ [] ≡ withs_from (column_names schema.now.tables) number
        (let_tree from.now ∷ [])) }
{
    let name = with_name(alloc, number)?;
    let mut selects = List::with_capacity(alloc, 1)?;
    selects.push(let_select(alloc, schema, from)?)?;
    Ok(With {
        name,
        place: 0,
        query: query(selects),
    })
}

// The WITH queries of the lets, in order.
fn withs(alloc: Global, schema: &Schema, lets: &[LetQuery]) -> Result<List<With>, Memory>
    ensures { IfOk result (λ made.
        map with_tree made ≡ withs_from (column_names schema.now.tables) 1
        (map let_tree lets.now)) }
{
    let mut withs = List::with_capacity(alloc, lets.len())?;
    for (index, from) in lets.iter().enumerate() {
        withs.push(with_query(alloc, schema, index as u64 + 1, from)?)?;
    }
    Ok(withs)
}

// One SELECT without a row.
#[tactic(auto, using(crate::proofs::Lists::select_built, crate::proofs::Built::bool_built))]
fn empty_select(alloc: Global, columns: &[ColumnType]) -> Result<Select, Memory>
    ensures { IfOk result (λ made. query_from (select_tree made ∷ []) ≡ empty_query columns.now) }
{
    let items = answer_items(alloc, zeros(alloc, columns)?)?;
    let never = Expr {
        place: 0,
        node: ExprNode::Bool(false),
    };
    Ok(Select {
        place: 0,
        items,
        from: List::new(alloc),
        keep: Some(never),
    })
}

// One SELECT for each part.
fn part_selects(
    alloc: Global,
    schema: &Schema,
    lets: &[LetQuery],
    parts: &[LetPart],
) -> Result<List<Select>, Memory>
    ensures { IfOk result (λ made.
        map select_tree made ≡ map
        (part_strand_select (column_names schema.now.tables) (map let_tree lets.now))
        (map part_tree parts.now)) }
{
    let mut selects = List::with_capacity(alloc, parts.len())?;
    for part in parts {
        selects.push(part_select(alloc, schema, lets, part)?)?;
    }
    Ok(selects)
}

// The SELECTs of the parts; one without a row where there is none.
#[tactic(auto, using(crate::proofs::Lists::no_parts, crate::proofs::Lists::some_parts))]
fn main_selects(
    alloc: Global,
    schema: &Schema,
    columns: &[ColumnType],
    lets: &[LetQuery],
    parts: &[LetPart],
) -> Result<List<Select>, Memory>
    ensures { IfOk result (λ made.
        query_from (map select_tree made)
        ≡ main_query (column_names schema.now.tables) columns.now (map let_tree lets.now)
        (map part_tree parts.now)) }
{
    if parts.is_empty() {
        let mut selects = List::with_capacity(alloc, 1)?;
        selects.push(empty_select(alloc, columns)?)?;
        return Ok(selects);
    }
    part_selects(alloc, schema, lets, parts)
}

/// The SQL tree of a let form over a schema, whose answer has these columns: a WITH query for each
/// let, and the SELECTs of its parts joined by UNION ALL. Its places are 0. Fails only if memory
/// runs out, as for an expression of more than 2,000 levels.
///
/// Where the form is that of a shredded form over a proper schema, and the columns are those at its
/// path, the tree is well scoped with these columns, and each answer that SQL allows to it is, laid
/// out in columns, one that the form allows, however ties are numbered.
///
/// After Cheney, Lindley and Wadler, "Query Shredding", SIGMOD 2014.
pub fn flatten(
    alloc: Global,
    schema: &Schema,
    form: &LetForm,
    columns: &[ColumnType],
) -> Result<SqlText, Memory>
    ensures is { IfOk result (λ text.
        sql_tree text ≡ emitted (column_names schema.now.tables) columns.now
        (let_form_tree form.now)) }
    ensures scoped { IfOk result
        (λ text. IsProperSchema schema.now → IsLetFormOf schema.now (let_form_tree form.now)
        → columns.now ≡ answer_columns (let_form_tree form.now).element
        → IsWellScoped (shapes_of_schema schema.now.tables) (sql_tree text)
        (answer_shape columns.now)) }
    ensures rows { IfOk result
        (λ text. IsProperSchema schema.now → IsLetFormOf schema.now (let_form_tree form.now)
        → columns.now ≡ answer_columns (let_form_tree form.now).element
        → (tables : List (List (List Cell))) → AreTablesOf schema.now.tables tables
        → (answer : List (List Cell))
        → TreeAllows (held_of schema.now.tables tables) (sql_tree text) answer
        → (rows : List FlatRow)
        × FormGives (column_names schema.now.tables) (rows_in (database schema.now.tables tables))
        (let_form_tree form.now) rows
        × (answer ≡ map (row_cells (let_form_tree form.now).element) rows)) }
{
    let text = text_of(alloc, schema, form, columns)?;
    Ok(text)
}

// That tree, for any form and any columns.
fn text_of(
    alloc: Global,
    schema: &Schema,
    form: &LetForm,
    columns: &[ColumnType],
) -> Result<SqlText, Memory>
    ensures { IfOk result (λ text.
        sql_tree text ≡ emitted (column_names schema.now.tables) columns.now
        (let_form_tree form.now)) }
{
    let lets = form.lets.as_slice();
    let withs = withs(alloc, schema, lets)?;
    let selects = main_selects(alloc, schema, columns, lets, form.parts.as_slice())?;
    Ok(SqlText {
        withs,
        main: query(selects),
    })
}
