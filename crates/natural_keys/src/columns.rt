// The key columns of generators.
ghost use Rattle.std.specs.Prelude.{◌≡◌, ◌++◌, IfOk, OnOk, not};
ghost use Rattle.nq_model.specs.Meaning.{is_none};
ghost use Rattle.nq_ir.specs.Spots.{strand_tree};
ghost use Rattle.nq_ir.specs.WellFormed.{table_columns};
ghost use Rattle.natural_keys.specs.Layouts.{gen_key, key_columns, scope_key, table_key, type_in};

use crate::layout::KeyColumn;
use nq_ir::{Gen, Strand};
use nq_model::{ColumnType, Label, List, Memory, Schema};
use std::alloc::Global;

// The columns of the table of this name; a table that is not there has none.
fn columns_of<'a>(schema: &'a Schema, table: &str) -> &'a [(Label, ColumnType)]
    ensures { result.now ≡ table_columns schema.now.tables table.now }
{
    for shape in schema.tables.as_slice() {
        if table == shape.name.as_str() {
            return shape.columns.as_slice();
        }
    }
    &[]
}

// The columns of its key.
fn key_of<'a>(schema: &'a Schema, table: &str) -> &'a [Label]
    ensures { result.now ≡ table_key schema.now.tables table.now }
{
    for shape in schema.tables.as_slice() {
        if table == shape.name.as_str() {
            return shape.key.as_slice();
        }
    }
    &[]
}

/// Whether the table of this name has a key.
pub fn has_key(schema: &Schema, table: &str) -> bool
    ensures { result ≡ not (is_none (table_key schema.now.tables table.now)) }
{
    !key_of(schema, table).is_empty()
}

// The type of a column; int where it is not there.
fn type_in(columns: &[(Label, ColumnType)], name: &str) -> ColumnType
    ensures { result ≡ type_in name.now columns.now }
{
    for named in columns {
        if name == named.0.as_str() {
            return named.1;
        }
    }
    ColumnType::Int
}

// Puts the key columns of a generator at the end.
fn push_gen_key(
    alloc: Global,
    all: &mut List<KeyColumn>,
    schema: &Schema,
    generator: &Gen,
) -> Result<(), Memory>
    ensures { OnOk result (all.new ≡ all.old ++ gen_key schema.now.tables generator.now) }
{
    let columns = columns_of(schema, generator.table.as_str());
    for name in key_of(schema, generator.table.as_str()) {
        all.push(KeyColumn {
            generator: generator.number,
            name: name.copy(alloc)?,
            of: type_in(columns, name.as_str()),
        })?;
    }
    Ok(())
}

// Puts the key columns of generators at the end.
fn push_key_columns(
    alloc: Global,
    all: &mut List<KeyColumn>,
    schema: &Schema,
    gens: &[Gen],
) -> Result<(), Memory>
    ensures { OnOk result (all.new ≡ all.old ++ key_columns schema.now.tables gens.now) }
{
    for generator in gens {
        push_gen_key(alloc, all, schema, generator)?;
    }
    Ok(())
}

/// The key columns of generators, outermost first, each table's in key order. Fails only if memory
/// runs out.
pub fn key_columns(alloc: Global, schema: &Schema, gens: &[Gen]) -> Result<List<KeyColumn>, Memory>
    ensures { IfOk result (λ all. all ≡ key_columns schema.now.tables gens.now) }
{
    let mut all = List::new(alloc);
    push_key_columns(alloc, &mut all, schema, gens)?;
    Ok(all)
}

/// Those of all generators in scope of a comprehension. Fails only if memory runs out.
#[tactic(auto, using(crate::proofs::KeyColumns::scope_made))]
pub fn scope_key(alloc: Global, schema: &Schema, part: &Strand) -> Result<List<KeyColumn>, Memory>
    ensures { IfOk result (λ all. all ≡ scope_key schema.now.tables (strand_tree part.now)) }
{
    let mut all = List::new(alloc);
    push_key_columns(alloc, &mut all, schema, part.outer_gens.as_slice())?;
    push_key_columns(alloc, &mut all, schema, part.gens.as_slice())?;
    Ok(all)
}
