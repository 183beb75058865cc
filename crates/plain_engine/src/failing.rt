// The failing server, for tests.
ghost use Rattle.std.specs.Prelude.{◌≡◌, ◌≤◌, ◌<◌, ◌+◌, ◌∷◌, ◌++◌, [], true, false, None, All, Contains, IfOk, OnOk, OnErr, length};
ghost use Rattle.nq_model.specs.Cells.{RowFits};
ghost use Rattle.nq_model.specs.Orders.{AreDistinct};
ghost use Rattle.nq_model.specs.Tables.{names_of, types_of};
ghost use Rattle.plain_engine.specs.Counting.{calls_after, is_failure, listed_up_to, next_count};
ghost use Rattle.sql_profile.specs.Servers.{CountsFault, RoseBelow, table_names};
ghost use Rattle.sql_profile.specs.Texts.{IsAskable, TextAllows};
ghost use Rattle.sql_profile.specs.Tokens.{First};

use failing_calls::is_next_listed;
use nq_model::List;
use sql_answer::answer_text;
use sql_eval::{Arrangement, Joining};
use sql_profile::{Answer, Loaded, ServerFault, SqlServer};
use std::alloc::Global;

/// A server like the plain one, but that its calls with listed numbers fail. Loads and asks are
/// counted together, from 1. A call that finds too little memory, or that comes after call 2^64 -
/// 1, takes no number.
#[derive(Drop)]
pub struct FailingServer {
    tables: List<Loaded>,
    failing: List<u64>,
    calls: u64,
    failures: u64,
    ghost counted: { failures ≤ listed_up_to failing calls },
    ghost within: { failures ≤ length failing },
}

impl FailingServer {
    ghost use Rattle.plain_engine.specs.Failing.{calls_of, failing_of, fails_next};

    /// A server that holds no table, and whose calls with these numbers fail; no other call fails.
    /// It is honest, fails at most once for each number, and does not tell its asks.
    pub fn new(alloc: Global, failing: List<u64>) -> FailingServer
        ensures holds_none { ⟦<FailingServer as SqlServer>⟧.loaded result ≡ [] }
        ensures is_honest { ⟦<FailingServer as SqlServer>⟧.honest result ≡ true }
        ensures no_failures { ⟦<FailingServer as SqlServer>⟧.failures result ≡ 0 }
        ensures as_many_as_listed { ⟦<FailingServer as SqlServer>⟧.bound result ≡ length failing }
        ensures tells_none { ⟦<FailingServer as SqlServer>⟧.asks result ≡ None }
        ensures no_calls { calls_of result ≡ 0 }
        ensures failing { failing_of result ≡ failing }
    {
        FailingServer {
            tables: List::new(alloc),
            failing,
            calls: 0,
            failures: 0,
        }
    }

    // Whether the next call has a listed number.
    fn fails_next(&self) -> bool
        ensures { result ≡ fails_next self.now }
    {
        is_next_listed(self.failing.as_slice(), self.calls)
    }

    // Counts a call that does not fail.
    #[tactic(auto, using(crate::proofs::Counting::listed_rise))]
    fn count_call(&mut self)
        ensures tables { self.new.tables ≡ self.old.tables }
        ensures failing { self.new.failing ≡ self.old.failing }
        ensures calls { self.new.calls ≡ next_count self.old.calls }
        ensures failures { self.new.failures ≡ self.old.failures }
    {
        self.calls = self.calls.saturating_add(1);
    }

    // Counts a call that fails.
    #[tactic(auto, using(crate::proofs::Scripts::failure_rules))]
    fn count_failure(&mut self)
        requires { fails_next self.old ≡ true }
        ensures tables { self.new.tables ≡ self.old.tables }
        ensures failing { self.new.failing ≡ self.old.failing }
        ensures calls { self.new.calls ≡ next_count self.old.calls }
        ensures failures { RoseBelow (length self.old.failing) self.old.failures self.new.failures }
    {
        self.calls = self.calls.saturating_add(1);
        self.failures = self.failures.saturating_add(1);
    }
}

impl SqlServer for FailingServer {
    ghost use Rattle.plain_engine.specs.Failing.{calls_of, failing_of, fails_next, failures_of, held_tables};
    ghost use Rattle.failing_calls.specs.Calls.{FailsWhere};

    ghost loaded = { held_tables };

    ghost honest = { λ _. true };

    ghost failures = { failures_of };

    ghost bound = { λ server. length (failing_of server) };

    ghost asks = { λ _. None };

    ghost bounded = { λ server. server.within };

    fn load(&mut self, alloc: Global, table: Loaded) -> Result<(), ServerFault>
        requires fresh { Contains (table_names (held_tables self.old)) table.name → ⊥ }
        requires columns_differ { AreDistinct (names_of table.columns) }
        requires fits { All (RowFits (types_of table.columns)) table.rows }
        ensures ok { OnOk result (held_tables self.new ≡ held_tables self.old ++ table ∷ []) }
        ensures err { OnErr result (held_tables self.new ≡ held_tables self.old) }
        ensures counts { CountsFault (length (failing_of self.old))
            (failures_of self.old) (failures_of self.new) result }

        // Which calls fail, so that a test can tell.
        ensures failed { FailsWhere is_failure (fails_next self.old) result }
        ensures calls { calls_of self.new ≡ calls_after (calls_of self.old) result }
        ensures failing { failing_of self.new ≡ failing_of self.old }
    {
        if self.fails_next() {
            self.count_failure();
            return Err(ServerFault::Failed);
        }
        self.tables.push(table)?;
        self.count_call();
        Ok(())
    }

    fn ask(&mut self, alloc: Global, text: &[u8]) -> Result<Answer, ServerFault>
        requires { IsAskable First (held_tables self.old) text.now }
        ensures allowed { IfOk result (λ answer.
            TextAllows First (held_tables self.old) text.now answer.rows) }
        ensures counts { CountsFault (length (failing_of self.old))
            (failures_of self.old) (failures_of self.new) result }
        ensures tables_stay { held_tables self.new ≡ held_tables self.old }

        // Which calls fail, so that a test can tell.
        ensures failed { FailsWhere is_failure (fails_next self.old) result }
        ensures calls { calls_of self.new ≡ calls_after (calls_of self.old) result }
        ensures failing { failing_of self.new ≡ failing_of self.old }
    {
        if self.fails_next() {
            self.count_failure();
            return Err(ServerFault::Failed);
        }
        let rows = answer_text(
            alloc,
            self.tables.as_slice(),
            text,
            Joining::NestedLoops,
            Arrangement::AsTheyArise,
        )?;
        self.count_call();
        Ok(Answer { rows })
    }
}
