// The answer to a text over held tables.
ghost use Rattle.std.specs.Prelude.{IfOk, length};
ghost use Rattle.sql_answer.specs.Asked.{IsSpelled};
ghost use Rattle.sql_profile.specs.Texts.{IsAskable, Spells, TextAllows};
ghost use Rattle.sql_profile.specs.Tokens.{First};
ghost use Rattle.sql_profile.specs.Trees.{placed};

use nq_model::Memory;
use rows::Rows;
use sql_eval::{Arrangement, Joining, evaluate};
use sql_profile::{Loaded, SqlText};
use sql_reader::{SqlFault, read_sql};
use std::alloc::Global;

// The tree that a text spells.
#[tactic(auto, using(crate::proofs::Asked::only_memory))]
fn tree_of(alloc: Global, text: &[u8]) -> Result<SqlText, Memory>
    requires { IsSpelled text.now }
    ensures { IfOk result (λ tree. Spells First (length text.now) text.now (placed tree)) }
{
    match read_sql(alloc, text, text.len() as u64) {
        Ok(tree) => Ok(tree),
        Err(SqlFault::Memory) => Err(Memory),
        Err(_) => unreachable!(),
    }
}

/// The answer to a text that may be asked over the held tables: rows that SQL allows to it. Fails
/// only if memory runs out.
pub fn answer_text(
    alloc: Global,
    held: &[Loaded],
    text: &[u8],
    joining: Joining,
    arrangement: Arrangement,
) -> Result<Rows, Memory>
    requires { IsAskable First held.now text.now }
    ensures { IfOk result (TextAllows First held.now text.now) }
{
    let tree = tree_of(alloc, text)?;
    let rows = evaluate(alloc, held, &tree, joining, arrangement)?;
    Ok(rows)
}
