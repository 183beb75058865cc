// The tables of the tests, which servers are loaded with: two of pairs of integers.
ghost use Rattle.std.specs.Prelude.{◌≡◌, ◌++◌, ◌∷◌, [], All, Contains, IfOk, OnErr, OnOk, codes};
ghost use Rattle.test_engines.specs.Shapes.{both_shapes, first_shapes, pair_columns};
ghost use Rattle.nq_model.specs.Cells.{RowFits};
ghost use Rattle.nq_model.specs.Tables.{types_of};
ghost use Rattle.sql_profile.specs.Scope.{shapes_of, shapes_of_schema};
ghost use Rattle.sql_profile.specs.Servers.{table_names};

use nq_model::{CellRef, ColumnType, Label, List, Memory, Schema, TableShape};
use rows::Rows;
use sql_profile::{Loaded, ServerFault, SqlServer, load_table};
use std::alloc::Global;

/// The rows of the first table in most tests. The second one then has none.
pub const PAIRS: &[(i64, i64)] = &[(5, 1), (6, 2), (5, 3)];

fn columns(alloc: Global) -> Result<List<(Label, ColumnType)>, Memory>
    ensures { IfOk result (λ made. made ≡ pair_columns) }
{
    let mut columns = List::new(alloc);
    columns.push((Label::from_str(alloc, "a")?, ColumnType::Int))?;
    columns.push((Label::from_str(alloc, "b")?, ColumnType::Int))?;
    Ok(columns)
}

fn shape(alloc: Global, name: &str) -> Result<TableShape, Memory>
    ensures name { IfOk result (λ made. made.name ≡ name.now) }
    ensures columns { IfOk result (λ made. made.columns ≡ pair_columns) }
{
    Ok(TableShape {
        name: Label::from_str(alloc, name)?,
        columns: columns(alloc)?,
        key: List::new(alloc),
    })
}

/// The schema of the first table alone.
pub fn first_schema(alloc: Global) -> Result<Schema, Memory>
    ensures { IfOk result (λ made. shapes_of_schema made.tables ≡ first_shapes) }
{
    let mut tables = List::new(alloc);
    tables.push(shape(alloc, "t")?)?;
    Ok(Schema { tables })
}

/// The schema of both tables.
pub fn schema(alloc: Global) -> Result<Schema, Memory>
    ensures { IfOk result (λ made. shapes_of_schema made.tables ≡ both_shapes) }
{
    let mut tables = List::new(alloc);
    tables.push(shape(alloc, "t")?)?;
    tables.push(shape(alloc, "e")?)?;
    Ok(Schema { tables })
}

fn rows_of(alloc: Global, pairs: &[(i64, i64)]) -> Result<Rows, Memory>
    ensures { IfOk result (All (RowFits (types_of pair_columns))) }
{
    let mut rows = Rows::new(alloc);
    for pair in pairs {
        rows.push_lent(&[CellRef::Int(pair.0), CellRef::Int(pair.1)])?;
    }
    Ok(rows)
}

fn table(alloc: Global, name: &str, pairs: &[(i64, i64)]) -> Result<Loaded, Memory>
    ensures name { IfOk result (λ made. made.name ≡ name.now) }
    ensures columns { IfOk result (λ made. made.columns ≡ pair_columns) }
    ensures fits { IfOk result (λ made. All (RowFits (types_of pair_columns)) made.rows) }
{
    let rows = rows_of(alloc, pairs)?;
    Ok(Loaded {
        name: Label::from_str(alloc, name)?,
        columns: columns(alloc)?,
        rows,
    })
}

// Loads a table, and again where that call fails; and how many calls it took.
fn load_at_last(
    alloc: Global,
    server: &mut Box<dyn SqlServer>,
    name: &str,
    pairs: &[(i64, i64)],
) -> Result<u64, ServerFault>
    requires { Contains (table_names (loaded server.old)) name.now → ⊥ }
    ensures names { OnOk result (table_names (loaded server.new) ≡ table_names (loaded server.old) ++ name.now ∷ []) }
    ensures shapes { OnOk result (shapes_of (loaded server.new) ≡ shapes_of (loaded server.old) ++ (name.now, pair_columns) ∷ []) }
{
    match load_table(alloc, server, table(alloc, name, pairs)?) {
        Ok(()) => Ok(1),
        Err(ServerFault::Memory) => Err(ServerFault::Memory),
        Err(ServerFault::Failed) => {
            load_table(alloc, server, table(alloc, name, pairs)?)?;
            Ok(2)
        }
    }
}

/// Loads the first table, again where the first call fails; and how many calls it took.
pub fn load_first(
    alloc: Global,
    server: &mut Box<dyn SqlServer>,
    pairs: &[(i64, i64)],
) -> Result<u64, ServerFault>
    requires { loaded server.old ≡ [] }
    ensures { OnOk result (shapes_of (loaded server.new) ≡ first_shapes) }
{
    load_at_last(alloc, server, "t", pairs)
}

/// Loads the second table behind the first, again where the first call fails; and how many calls it
/// took.
pub fn load_second(
    alloc: Global,
    server: &mut Box<dyn SqlServer>,
    pairs: &[(i64, i64)],
) -> Result<u64, ServerFault>
    requires { shapes_of (loaded server.old) ≡ first_shapes }
    ensures { OnOk result (shapes_of (loaded server.new) ≡ both_shapes) }
{
    load_at_last(alloc, server, "e", pairs)
}

/// Loads both tables, each again where the first call fails; and how many calls each took.
pub fn load_both(
    alloc: Global,
    server: &mut Box<dyn SqlServer>,
    first: &[(i64, i64)],
    second: &[(i64, i64)],
) -> Result<[u64; 2], ServerFault>
    requires { loaded server.old ≡ [] }
    ensures { OnOk result (shapes_of (loaded server.new) ≡ both_shapes) }
{
    let first = load_first(alloc, server, first)?;
    let second = load_second(alloc, server, second)?;
    Ok([first, second])
}
