// The explanation of a name that no table has.
ghost use Rattle.std.specs.Prelude.{◌≡◌, IfOk};
ghost use Rattle.explanations.specs.Explanations.{no_table_text, table_names};

use crate::lines::{put_found, put_nearest, put_tables, table_names};
use crate::nearest::nearest;
use nq_model::{List, Memory, Schema};
use std::alloc::Global;

/// The explanation of a name that no table of the schema has. Fails only if memory runs out.
#[tactic(auto, unfolding(crate::specs::Explanations::no_table_text))]
pub fn explain_table_name(alloc: Global, name: &str, schema: &Schema) -> Result<List<u8>, Memory>
    ensures { IfOk result (λ made. made ≡ no_table_text name.now (table_names schema.now)) }
{
    let tables = table_names(alloc, schema)?;
    let mut made = List::new(alloc);
    made.extend_from_slice(b"No table of the schema has this name.\n")?;
    put_found(&mut made, name)?;
    put_tables(&mut made, tables.as_slice())?;
    put_nearest(&mut made, nearest(tables.as_slice(), name))?;
    Ok(made)
}
