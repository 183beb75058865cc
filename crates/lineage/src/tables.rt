// Tables: those of a form's generators by tag, and those of a schema with their column of numbers.
ghost use Rattle.std.specs.Prelude.{◌≡◌, ◌++◌, IfOk, OnOk, map};
ghost use Rattle.nq_ir.specs.Trees.{body_tree, bodies_of, comps_of, comp_part};
ghost use Rattle.traced_meaning.specs.NumberedTables.{numbered_shape, numbered_schema};
ghost use Rattle.lineage.specs.Places.{bodies_view};
ghost use Rattle.lineage.specs.ListedTables.{gen_tables, listed, listed_body, listed_bodies};

use crate::bodies::NUMBER;
use nq_ir::{Body, Comp, Gen};
use nq_model::{ColumnType, Label, List, Memory, Schema, TableShape};
use std::alloc::Global;

/// The schema in which each table has a last column more, for the number of a row.
pub(crate) fn numbered_schema(alloc: Global, schema: &Schema) -> Result<Schema, Memory>
    ensures { IfOk result (λ made. made ≡ numbered_schema schema.now) }
{
    let mut tables = List::with_capacity(alloc, schema.tables.len())?;
    for shape in schema.tables.as_slice() {
        tables.push(numbered_shape(alloc, shape)?)?;
    }
    Ok(Schema { tables })
}

fn numbered_shape(alloc: Global, shape: &TableShape) -> Result<TableShape, Memory>
    ensures { IfOk result (λ made. made ≡ numbered_shape shape.now) }
{
    let mut columns = copy_columns(alloc, shape.columns.as_slice())?;
    columns.push((Label::from_str(alloc, NUMBER)?, ColumnType::Int))?;
    Ok(TableShape {
        name: shape.name.copy(alloc)?,
        columns,
        key: copy_labels(alloc, shape.key.as_slice())?,
    })
}

fn copy_columns(
    alloc: Global,
    columns: &[(Label, ColumnType)],
) -> Result<List<(Label, ColumnType)>, Memory>
    ensures { IfOk result (λ copies. copies ≡ columns.now) }
{
    let mut copies = List::with_capacity(alloc, columns.len())?;
    for column in columns {
        copies.push((column.0.copy(alloc)?, column.1))?;
    }
    Ok(copies)
}

fn copy_labels(alloc: Global, labels: &[Label]) -> Result<List<Label>, Memory>
    ensures { IfOk result (λ copies. copies ≡ labels.now) }
{
    let mut copies = List::with_capacity(alloc, labels.len())?;
    for label in labels {
        copies.push(label.copy(alloc)?)?;
    }
    Ok(copies)
}

// The tables of generators, in order.
fn gen_tables(alloc: Global, gens: &[Gen]) -> Result<List<Label>, Memory>
    ensures { IfOk result (λ tables. tables ≡ gen_tables gens.now) }
{
    let mut tables = List::with_capacity(alloc, gens.len())?;
    for generator in gens {
        tables.push(generator.table.copy(alloc)?)?;
    }
    Ok(tables)
}

/// Puts the tables of comprehensions and of those inside at the end, by their tags.
#[cycle(listed)]
#[tactic(auto, using(nq_ir::proofs::Forms::comp_is))]
pub(crate) fn push_listed(
    alloc: Global,
    comps: &[Comp],
    tables: &mut List<(u64, List<Label>)>,
) -> Result<(), Memory>
    ensures { OnOk result (tables.new
        ≡ tables.old ++ listed (comps_of (map comp_part comps.now))) }
{
    for comp in comps {
        tables.push((comp.tag, gen_tables(alloc, comp.gens.as_slice())?))?;
        push_body(alloc, &comp.body, tables)?;
    }
    Ok(())
}

#[cycle(listed)]
#[tactic(auto, using(crate::proofs::Views::body_forms))]
fn push_body(
    alloc: Global,
    body: &Body,
    tables: &mut List<(u64, List<Label>)>,
) -> Result<(), Memory>
    ensures { OnOk result (tables.new ≡ tables.old ++ listed_body (body_tree body.now)) }
{
    match body {
        Body::Plain(_) => Ok(()),
        Body::Rec(fields) => push_fields(alloc, fields.as_slice(), tables),
        Body::Bag(bag) => push_listed(alloc, bag.parts.as_slice(), tables),
    }
}

#[cycle(listed)]
fn push_fields(
    alloc: Global,
    fields: &[(Label, Body)],
    tables: &mut List<(u64, List<Label>)>,
) -> Result<(), Memory>
    ensures { OnOk result (tables.new
        ≡ tables.old
        ++ listed_bodies (bodies_of (bodies_view fields.now))) }
{
    for field in fields {
        push_body(alloc, &field.1, tables)?;
    }
    Ok(())
}
