// The crooked server, for tests.
ghost use Rattle.std.specs.Prelude.{◌≡◌, [], true, None};
ghost use Rattle.std.proofs.Common.{lit≤};

use nq_model::List;
use sql_answer::answer_text;
use sql_eval::{Arrangement, Joining};
use sql_profile::{Answer, Loaded, ServerFault, SqlServer};
use std::alloc::Global;

/// A server whose answers SQL allows too, in another arrangement than those of the plain one: in
/// each SELECT ties are numbered, and rows come, in reverse. The SELECTs of a UNION ALL stay in
/// their order. It is honest, never fails, and does not tell its asks.
#[derive(Drop)]
pub struct CrookedServer {
    tables: List<Loaded>,
}

impl CrookedServer {
    /// A server that holds no table.
    pub fn new(alloc: Global) -> CrookedServer
        ensures holds_none { ⟦<CrookedServer as SqlServer>⟧.loaded result ≡ [] }
        ensures is_honest { ⟦<CrookedServer as SqlServer>⟧.honest result ≡ true }
        ensures no_failures { ⟦<CrookedServer as SqlServer>⟧.failures result ≡ 0 }
        ensures never_fails { ⟦<CrookedServer as SqlServer>⟧.bound result ≡ 0 }
        ensures tells_none { ⟦<CrookedServer as SqlServer>⟧.asks result ≡ None }
    {
        CrookedServer {
            tables: List::new(alloc),
        }
    }
}

impl SqlServer for CrookedServer {
    ghost loaded = { λ server. server.tables };

    ghost honest = { λ _. true };

    ghost failures = { λ _. 0 };

    ghost bound = { λ _. 0 };

    ghost asks = { λ _. None };

    ghost bounded = { λ _. lit≤ tt };

    fn load(&mut self, alloc: Global, table: Loaded) -> Result<(), ServerFault> {
        self.tables.push(table)?;
        Ok(())
    }

    fn ask(&mut self, alloc: Global, text: &[u8]) -> Result<Answer, ServerFault> {
        let rows = answer_text(
            alloc,
            self.tables.as_slice(),
            text,
            Joining::NestedLoops,
            Arrangement::Reversed,
        )?;
        Ok(Answer { rows })
    }
}
