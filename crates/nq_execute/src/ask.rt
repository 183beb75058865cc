// Asks a server texts, and tries each answer before the next text is asked.
ghost use Rattle.std.specs.Prelude.{◌≡◌, ◌+◌, is_some};
ghost use Rattle.nq_ir.specs.Meanings.{EachBoth};
ghost use Rattle.nq_execute.specs.Asking.{AskTells, HaveFittingRows, TextTells, plan_over};
ghost use Rattle.nq_execute.specs.Plans.{AsksFor, Finish};
ghost use Rattle.nq_execute.specs.Serving.{ServerCounts, server_state};

use crate::refusal::ServerRefusal;
use nq_model::{ColumnType, List};
use sql_profile::{Answer, ServerFault, SqlServer, ask_text, fits};
use std::alloc::Global;

// Asks a text of this number, and tries the answer against the types of its columns.
#[tactic(auto, using(crate::proofs::Asks::one_text))]
fn ask_one(
    alloc: Global,
    server: &mut Box<dyn SqlServer>,
    number: u64,
    text: &[u8],
    types: &[ColumnType],
) -> Result<Answer, ServerRefusal>
    requires rows { HaveFittingRows (loaded server.old) }
    requires askable { AsksFor (loaded server.old) types.now text.now }
    ensures counts { ServerCounts (bound server.old)
        (failures server.old) (failures server.new) result }
    ensures tables_stay { loaded server.new ≡ loaded server.old }
    ensures honesty_stays { honest server.new ≡ honest server.old }
    ensures bound_stays { bound server.new ≡ bound server.old }
    ensures telling { is_some (asks server.new) ≡ is_some (asks server.old) }
    ensures tells { TextTells (loaded server.old) types.now text.now number
        (asks server.old) (asks server.new) (honest server.old) result }
{
    let answer = match ask_text(alloc, server, text) {
        Ok(answer) => answer,
        Err(ServerFault::Memory) => return Err(ServerRefusal::Memory),
        Err(ServerFault::Failed) => return Err(ServerRefusal::TextFailed(number)),
    };
    match fits(&answer, types) {
        Ok(()) => Ok(answer),
        Err(misfit) => Err(ServerRefusal::BadAnswer {
            text: number,
            row: misfit.row,
            column: misfit.column,
        }),
    }
}

/// Asks all texts, in order, and tries each answer before the next text is asked.
pub fn ask_all(
    alloc: Global,
    server: &mut Box<dyn SqlServer>,
    texts: &[List<u8>],
    columns: &[List<ColumnType>],
) -> Result<List<Answer>, ServerRefusal>
    requires rows { HaveFittingRows (loaded server.old) }
    requires askable { EachBoth (AsksFor (loaded server.old)) columns.now texts.now }
    ensures counts { ServerCounts (bound server.old)
        (failures server.old) (failures server.new) result }
    ensures tables_stay { loaded server.new ≡ loaded server.old }
    ensures honesty_stays { honest server.new ≡ honest server.old }
    ensures bound_stays { bound server.new ≡ bound server.old }
    ensures telling { is_some (asks server.new) ≡ is_some (asks server.old) }
    ensures tells { (finish : Finish) →
        AskTells (plan_over (loaded server.old) texts.now columns.now finish)
        (server_state (loaded server.old) (asks server.old))
        (server_state (loaded server.new) (asks server.new)) (honest server.old) result }
{
    let mut answers = List::with_capacity(alloc, texts.len())?;
    for at in 0..texts.len() {
        let number = at as u64 + 1;
        let answer = ask_one(
            alloc,
            server,
            number,
            texts[at].as_slice(),
            columns[at].as_slice(),
        )?;
        answers.push(answer)?;
    }
    Ok(answers)
}
