// The scripted server, for tests.
ghost use Rattle.std.specs.Prelude.{◌≡◌, ◌≤◌, ◌<◌, ◌+◌, ◌^◌, ◌∷◌, ◌++◌, [], true, false, Some, All, Contains, IfOk, OnOk, OnErr, nat_le, length, slice_get, zip};
ghost use Rattle.nq_model.specs.Cells.{RowFits};
ghost use Rattle.nq_model.specs.Orders.{AreDistinct};
ghost use Rattle.nq_model.specs.Tables.{names_of, types_of};
ghost use Rattle.failing_calls.specs.Calls.{FailsWhere};
ghost use Rattle.plain_engine.specs.Counting.{is_failure};
ghost use Rattle.sql_profile.specs.Servers.{CountsFault, table_names, with_ask};
ghost use Rattle.sql_profile.specs.Texts.{IsAskable};
ghost use Rattle.sql_profile.specs.Tokens.{First};

use nq_model::List;
use sql_profile::{Answer, Loaded, ServerFault, SqlServer};
use std::alloc::Global;

/// A server that gives the answers of a script, one after the other, whatever it is asked.
#[derive(Drop)]
pub struct ScriptedServer {
    tables: List<Loaded>,
    script: List<Answer>,
    // The texts that were answered, in order: the first with the first answer of the script, and so
    // on.
    asked: List<List<u8>>,
    failures: u64,
    ghost within: { length asked ≤ length script },
    ghost counted: { failures ≤ 2 ^ 64 },
}

impl ScriptedServer {
    ghost use Rattle.plain_engine.specs.Scripted.{script_of, answered};

    /// A server that holds no table. Its ask after so many that succeeded gives the answer of the
    /// script behind so many; where there is none, the ask fails. No load fails. It is not honest,
    /// and tells its asks.
    pub fn new(alloc: Global, answers: List<Answer>) -> ScriptedServer
        ensures holds_none { ⟦<ScriptedServer as SqlServer>⟧.loaded result ≡ [] }
        ensures is_not_honest { ⟦<ScriptedServer as SqlServer>⟧.honest result ≡ false }
        ensures no_failures { ⟦<ScriptedServer as SqlServer>⟧.failures result ≡ 0 }
        ensures below { ⟦<ScriptedServer as SqlServer>⟧.bound result ≡ 2 ^ 64 }
        ensures tells { ⟦<ScriptedServer as SqlServer>⟧.asks result ≡ Some [] }
        ensures script { script_of result ≡ answers }
        ensures none_answered { answered result ≡ 0 }
    {
        ScriptedServer {
            tables: List::new(alloc),
            script: answers,
            asked: List::new(alloc),
            failures: 0,
        }
    }
}

impl SqlServer for ScriptedServer {
    ghost use Rattle.plain_engine.specs.Scripted.{answered, asks_of, failures_of, held_tables, script_of};

    ghost loaded = { held_tables };

    ghost honest = { λ _. false };

    ghost failures = { failures_of };

    ghost bound = { λ _. 2 ^ 64 };

    ghost asks = { λ server. Some (asks_of server) };

    ghost bounded = { λ server. server.counted };

    fn load(&mut self, alloc: Global, table: Loaded) -> Result<(), ServerFault>
        requires fresh { Contains (table_names (held_tables self.old)) table.name → ⊥ }
        requires columns_differ { AreDistinct (names_of table.columns) }
        requires fits { All (RowFits (types_of table.columns)) table.rows }
        ensures ok { OnOk result (held_tables self.new ≡ held_tables self.old ++ table ∷ []) }
        ensures err { OnErr result (held_tables self.new ≡ held_tables self.old) }

        // It never fails, and the script stays.
        ensures failed { FailsWhere is_failure false result }
        ensures failures { failures_of self.new ≡ failures_of self.old }
        ensures asked { asks_of self.new ≡ asks_of self.old }
        ensures answered { answered self.new ≡ answered self.old }
        ensures script { script_of self.new ≡ script_of self.old }
    {
        self.tables.push(table)?;
        Ok(())
    }

    fn ask(&mut self, alloc: Global, text: &[u8]) -> Result<Answer, ServerFault>
        requires { IsAskable First (held_tables self.old) text.now }
        ensures counts { CountsFault (2 ^ 64) (failures_of self.old) (failures_of self.new) result }
        ensures told { IfOk result (λ answer.
            asks_of self.new ≡ asks_of self.old ++ (text.now, answer) ∷ []) }
        ensures untold { OnErr result (asks_of self.new ≡ asks_of self.old) }
        ensures tables_stay { held_tables self.new ≡ held_tables self.old }

        // It gives the next answer, and fails where there is none.
        ensures gives { IfOk result (λ answer.
            slice_get (script_of self.old) (answered self.old) ≡ Some answer) }
        ensures failed { FailsWhere is_failure
            (nat_le (length (script_of self.old)) (answered self.old)) result }
        ensures one_more { OnOk result (answered self.new ≡ answered self.old + 1) }
        ensures no_more { OnErr result (answered self.new ≡ answered self.old) }
        ensures script { script_of self.new ≡ script_of self.old }
    {
        let Some(answer) = self.script.get(self.asked.len()) else {
            self.failures = self.failures.saturating_add(1);
            return Err(ServerFault::Failed);
        };
        let rows = answer.rows.copy(alloc)?;
        let copy = List::from_slice(alloc, text)?;
        self.asked.push(copy)?;
        Ok(Answer { rows })
    }
}
