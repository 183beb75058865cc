// Loads the tables of a plan into a server, asks it the texts, and writes what the answers come to.
ghost use Rattle.std.specs.Prelude.{◌≡◌, [], is_some};
ghost use Rattle.nq_execute.specs.Plans.{IsServable, plan_view};
ghost use Rattle.nq_execute.specs.Serving.{ServerCounts, ServeTells, server_state};

use crate::ask::ask_all;
use crate::finish::write_answers;
use crate::load::load_tables;
use crate::plan::Plan;
use crate::refusal::ServerRefusal;
use nq_model::List;
use sql_profile::SqlServer;
use std::alloc::Global;

/// Loads the tables of a plan into a server that holds none, asks it each text in order, tries each
/// answer against its columns before the next text is asked, and gives the text of the answers, as
/// `write_answers` does.
///
/// Fails with `TableFailed` or `TextFailed` where the server fails, and with `BadAnswer` at the
/// first answer that does not fit, which no honest server gives. Where memory runs out, the server
/// may have been loaded and asked in part.
pub fn serve(
    alloc: Global,
    plan: Plan,
    server: &mut Box<dyn SqlServer>,
) -> Result<List<u8>, ServerRefusal>
    requires empty { loaded server.old ≡ [] }
    requires servable { IsServable (plan_view plan) }
    ensures counts { ServerCounts (bound server.old)
        (failures server.old) (failures server.new) result }
    ensures honesty_stays { honest server.new ≡ honest server.old }
    ensures bound_stays { bound server.new ≡ bound server.old }
    ensures telling { is_some (asks server.new) ≡ is_some (asks server.old) }
    ensures tells { ServeTells (plan_view plan)
        (server_state (loaded server.old) (asks server.old))
        (server_state (loaded server.new) (asks server.new)) (honest server.old) result }
{
    load_tables(alloc, server, plan.tables)?;
    let answers = ask_all(
        alloc,
        server,
        plan.texts.as_slice(),
        plan.columns.as_slice(),
    )?;
    let columns = plan.columns.as_slice();
    Ok(write_answers(alloc, &plan.finish, columns, answers)?)
}
