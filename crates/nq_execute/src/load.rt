// Loads tables into a server, in order.
ghost use Rattle.std.specs.Prelude.{◌≡◌, ◌∷◌, ◌++◌, [], IfErr, OnOk, MatchOption, reverse};
ghost use Rattle.nq_execute.specs.Loading.{CanLoad, LoadFails, LoadTells};
ghost use Rattle.nq_execute.specs.Serving.{ServerCounts};

use crate::refusal::ServerRefusal;
use nq_model::List;
use sql_profile::{Loaded, ServerFault, SqlServer, load_table};
use std::alloc::Global;

// Takes off the last table, which is the next to be loaded.
#[tactic(auto, using(crate::proofs::Loads::reversed_rest))]
fn take_next(rest: &mut Vec<Loaded>) -> Option<Loaded>
    ensures { MatchOption result (reverse rest.old.items ≡ [])
        (λ table. reverse rest.old.items ≡ table ∷ reverse rest.new.items) }
{
    rest.pop()
}

// Loads one table, where others are loaded after it.
#[tactic(auto, using(crate::proofs::Loads::load_rules))]
fn load_one(
    alloc: Global,
    server: &mut Box<dyn SqlServer>,
    table: Loaded,
    rest: &[Loaded],
) -> Result<(), ServerRefusal>
    requires { CanLoad (loaded server.old) (table ∷ reverse rest.now) }
    ensures counts { ServerCounts (bound server.old)
        (failures server.old) (failures server.new) result }
    ensures asks_stay { asks server.new ≡ asks server.old }
    ensures honesty_stays { honest server.new ≡ honest server.old }
    ensures bound_stays { bound server.new ≡ bound server.old }
    ensures ok { OnOk result (loaded server.new ≡ loaded server.old ++ table ∷ []) }
    ensures can { OnOk result (CanLoad (loaded server.new) (reverse rest.now)) }
    ensures err { IfErr result
        (LoadFails (loaded server.old) (loaded server.new) (table ∷ reverse rest.now)) }
{
    let name = table.name.copy(alloc)?;
    match load_table(alloc, server, table) {
        Ok(()) => Ok(()),
        Err(ServerFault::Memory) => Err(ServerRefusal::Memory),
        Err(ServerFault::Failed) => Err(ServerRefusal::TableFailed(name)),
    }
}

// Loads the tables of a list that was reversed.
#[tactic(auto, using(crate::proofs::Loads::load_after))]
fn load_reversed(
    alloc: Global,
    server: &mut Box<dyn SqlServer>,
    mut rest: Vec<Loaded>,
) -> Result<(), ServerRefusal>
    requires { CanLoad (loaded server.old) (reverse rest.items) }
    ensures counts { ServerCounts (bound server.old)
        (failures server.old) (failures server.new) result }
    ensures asks_stay { asks server.new ≡ asks server.old }
    ensures honesty_stays { honest server.new ≡ honest server.old }
    ensures bound_stays { bound server.new ≡ bound server.old }
    ensures tells { LoadTells (loaded server.old) (loaded server.new) (reverse rest.items) result }
{
    let Some(table) = take_next(&mut rest) else {
        return Ok(());
    };
    load_one(alloc, server, table, rest.as_slice())?;
    load_reversed(alloc, server, rest)
}

/// Loads the tables into the server, in order, up to the first that it does not take.
pub fn load_tables(
    alloc: Global,
    server: &mut Box<dyn SqlServer>,
    tables: List<Loaded>,
) -> Result<(), ServerRefusal>
    requires { CanLoad (loaded server.old) tables }
    ensures counts { ServerCounts (bound server.old)
        (failures server.old) (failures server.new) result }
    ensures asks_stay { asks server.new ≡ asks server.old }
    ensures honesty_stays { honest server.new ≡ honest server.old }
    ensures bound_stays { bound server.new ≡ bound server.old }
    ensures tells { LoadTells (loaded server.old) (loaded server.new) tables result }
{
    let mut rest = tables.into_vec();
    rest.reverse();
    load_reversed(alloc, server, rest)
}
