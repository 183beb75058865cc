// The columns of an SQL text, or what explains why it is refused.
ghost use Rattle.std.specs.Prelude.{◌≡◌, false, IfOk, IfSome, Ok};
ghost use Rattle.nq_top.specs.Judging.{columns_or_explained, sql_explained};
ghost use Rattle.nq_top.specs.Reading.{Reading, SqlReading};
ghost use Rattle.nq_top.specs.Steps.{CanServe, GatherTells, InputCounts, Says, gathered_asks};
ghost use Rattle.sql_profile.specs.Trees.{placed};

use crate::gather::Gathered;
use crate::inputs::fetch_text;
use crate::texts::DEPTH;
use command_line::InputRefusal;
use explanations::{columns_line, explain_scope, explain_sql};
use nq_edge::Inputs;
use nq_model::{List, Memory, Schema};
use sql_profile::SqlText;
use sql_reader::read_sql;
use sql_scope::{ScopeFault, found_parts, scope};
use std::alloc::Global;

// The line of the columns of a tree, which the text of a file spells, or what explains the rule of
// scope that it breaks.
fn explain_tree(
    alloc: Global,
    schema: &Schema,
    file: &[u8],
    text: &[u8],
    tree: &SqlText,
) -> Result<List<u8>, Memory>
    ensures { IfOk result (Says (columns_or_explained schema.now file.now text.now
        (Ok (placed tree.now)))) }
{
    match scope(alloc, schema, tree) {
        Ok(types) => columns_line(alloc, tree, types.as_slice()),
        Err(ScopeFault::Memory) => Err(Memory),
        Err(ScopeFault::Broken { rule, place }) => {
            let found = found_parts(alloc, schema, tree)?;
            explain_scope(alloc, file, text, u64::from(rule), place, schema, &found)
        }
    }
}

// The line of the columns of the tree that the text of a file spells, or what explains why it is
// refused.
fn explain_text(
    alloc: Global,
    schema: &Schema,
    file: &[u8],
    text: &[u8],
) -> Result<List<u8>, Memory>
    ensures { IfOk result (λ made. (reading : SqlReading) →
        Says (columns_or_explained schema.now file.now text.now (reading.says text.now)) made) }
{
    match read_sql(alloc, text, DEPTH) {
        Ok(tree) => {
            let made = explain_tree(alloc, schema, file, text, &tree);
            drop(tree);
            made
        }
        Err(fault) => explain_sql(alloc, file, text, DEPTH, &fault),
    }
}

/// The same of the SQL text under a name, which is fetched.
#[tactic(auto, using(crate::proofs::Steps::fetch_rules))]
pub(crate) fn gather_sql<I: Inputs>(
    alloc: Global,
    inputs: &mut I,
    schema: &Schema,
    name: &str,
) -> Result<Gathered, InputRefusal>
    ensures counts { InputCounts (I.faults inputs.old) (I.faults inputs.new) result }
    ensures servable { IfOk result CanServe }
    ensures asks { IfOk result (λ gathered. gathered_asks gathered ≡ false) }
    ensures tells { IfSome (I.held inputs.old) (λ files. (reading : Reading) →
        GatherTells (sql_explained reading files schema.now name.now)
        (I.fetched inputs.old) (I.fetched inputs.new) result) }
{
    let text = fetch_text(alloc, inputs, name)?;
    let made = explain_text(alloc, schema, name.as_bytes(), text.as_slice())?;
    Ok(Gathered::Text(made))
}
