// Whole texts.
ghost use Rattle.std.specs.Prelude.{◌≡◌, ℕ, IfErr, IfOk, IsErrAnd, MatchResult, map};
ghost use Rattle.nq_model.specs.Tables.{Columns, types_of};
ghost use Rattle.sql_profile.specs.Scope.{Broken, Fine, IsWellScoped, judge, judge_withs, shapes_of_schema};
ghost use Rattle.sql_profile.specs.Trees.{placed, placed_with, sql_tree};
ghost use Rattle.sql_scope.specs.Answers.{HasCause, IsBroken};
ghost use Rattle.sql_scope.specs.Steps.{Faults, Gives};
ghost use Rattle.sql_scope.specs.declared.fault.ScopeFault.TheVariants.{Memory as want};

use crate::fault::ScopeFault;
use crate::names::Columns;
use crate::tables::Tables;
use crate::walk::judge_whole;
use nq_model::{ColumnType, List, Schema};
use sql_profile::{SqlText, With};
use std::alloc::Global;

// The tables and the WITH queries, judged in order, each under a new name and with the earlier
// ones.
fn judge_withs<'a>(
    alloc: Global,
    mut tables: Tables<'a>,
    withs: &'a [With],
) -> Result<Tables<'a>, ScopeFault>
    ensures ok { IfOk result (λ all.
        judge_withs tables.entry (map placed_with withs.now) ≡ Fine all) }
    ensures err { IfErr result (Faults (judge_withs tables.entry (map placed_with withs.now))) }
{
    for with in withs {
        if tables.find(&with.name).is_some() {
            return Err(ScopeFault::Broken {
                rule: 9,
                place: with.place,
            });
        }
        let columns = judge_whole(alloc, &tables, &with.query)?;
        tables = tables.with(&with.name, columns)?;
    }
    Ok(tables)
}

// The columns of a text.
fn judge<'a>(
    alloc: Global,
    schema: &'a Schema,
    text: &'a SqlText,
) -> Result<Columns<'a>, ScopeFault>
    ensures { Gives result (judge (shapes_of_schema schema.now.tables) (placed text.now)) }
{
    let tables = Tables::new(alloc, schema.tables.as_slice(), text.withs.len())?;
    let tables = judge_withs(alloc, tables, text.withs.as_slice())?;
    judge_whole(alloc, &tables, &text.main)
}

/// The types of the columns of a tree that is well scoped over the tables of a schema; or the first
/// broken rule and its place. `Memory` where there is too little memory. No query of a tree that a
/// text spells is without SELECT; one that is breaks a rule 0 at place 0.
pub fn scope(alloc: Global, schema: &Schema, text: &SqlText) -> Result<List<ColumnType>, ScopeFault>
    ensures ok { IfOk result (λ types.
        (columns : Columns) × IsWellScoped (shapes_of_schema schema.now.tables) (sql_tree text.now)
        columns × (types ≡ types_of columns)) }
    ensures err { IfErr result (HasCause (shapes_of_schema schema.now.tables) (placed text.now)) }

    // The other way round, but for want of memory.
    ensures scoped { (columns : Columns)
        → IsWellScoped (shapes_of_schema schema.now.tables) (sql_tree text.now) columns
        → MatchResult result (λ types. types ≡ types_of columns) (λ e. e ≡ want) }
    ensures refused { (rule place : ℕ)
        → judge (shapes_of_schema schema.now.tables) (placed text.now) ≡ Broken rule place
        → IsErrAnd result (IsBroken rule place) }
{
    let columns = judge(alloc, schema, text)?;
    Ok(columns.types(alloc)?)
}
