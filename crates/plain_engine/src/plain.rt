// The plain server.
ghost use Rattle.std.specs.Prelude.{◌≡◌, [], true, None};
ghost use Rattle.std.proofs.Common.{lit≤};

use nq_model::List;
use sql_answer::answer_text;
use sql_eval::{Arrangement, Joining};
use sql_profile::{Answer, Loaded, ServerFault, SqlServer};
use std::alloc::Global;

/// A server by nested loops. It is honest, never fails, and does not tell its asks. Rows come, and
/// ties are numbered, in the order in which the combinations arise.
#[derive(Drop)]
pub struct PlainServer {
    tables: List<Loaded>,
}

impl PlainServer {
    /// A server that holds no table.
    pub fn new(alloc: Global) -> PlainServer
        ensures holds_none { ⟦<PlainServer as SqlServer>⟧.loaded result ≡ [] }
        ensures is_honest { ⟦<PlainServer as SqlServer>⟧.honest result ≡ true }
        ensures no_failures { ⟦<PlainServer as SqlServer>⟧.failures result ≡ 0 }
        ensures never_fails { ⟦<PlainServer as SqlServer>⟧.bound result ≡ 0 }
        ensures tells_none { ⟦<PlainServer as SqlServer>⟧.asks result ≡ None }
    {
        PlainServer {
            tables: List::new(alloc),
        }
    }
}

impl SqlServer for PlainServer {
    ghost loaded = { λ server. server.tables };

    ghost honest = { λ _. true };

    ghost failures = { λ _. 0 };

    ghost bound = { λ _. 0 };

    ghost asks = { λ _. None };

    ghost bounded = { λ _. lit≤ tt };

    fn load(&mut self, alloc: Global, table: Loaded) -> Result<(), ServerFault> {
        self.tables.push(table)?;
        Ok(())
    }

    fn ask(&mut self, alloc: Global, text: &[u8]) -> Result<Answer, ServerFault> {
        let rows = answer_text(
            alloc,
            self.tables.as_slice(),
            text,
            Joining::NestedLoops,
            Arrangement::AsTheyArise,
        )?;
        Ok(Answer { rows })
    }
}
