// The fast server.
ghost use Rattle.std.specs.Prelude.{◌≡◌, [], true, None};
ghost use Rattle.std.proofs.Common.{lit≤};

use nq_model::List;
use sql_answer::answer_text;
use sql_eval::{Arrangement, Joining};
use sql_profile::{Answer, Loaded, ServerFault, SqlServer};
use std::alloc::Global;
use std::hash::DefaultHasher;

/// A server that joins tables by hash tables on the equalities of WHERE, inside NOT EXISTS too. It
/// is honest, never fails, and does not tell its asks. Rows come, and ties are numbered, in the
/// order of nested loops.
#[derive(Drop)]
pub struct FastServer {
    tables: List<Loaded>,
    hasher: DefaultHasher,
}

impl FastServer {
    /// A server that holds no table, for tests and for tables that nobody hostile wrote. It finds
    /// rows by codes whose keys are known, so whoever chooses the cells may make it as slow as
    /// nested loops.
    pub fn new(alloc: Global) -> FastServer
        ensures holds_none { ⟦<FastServer as SqlServer>⟧.loaded result ≡ [] }
        ensures is_honest { ⟦<FastServer as SqlServer>⟧.honest result ≡ true }
        ensures no_failures { ⟦<FastServer as SqlServer>⟧.failures result ≡ 0 }
        ensures never_fails { ⟦<FastServer as SqlServer>⟧.bound result ≡ 0 }
        ensures tells_none { ⟦<FastServer as SqlServer>⟧.asks result ≡ None }
    {
        FastServer::with_hasher(alloc, DefaultHasher::new())
    }

    /// A server that holds no table, for tables from anyone. Its codes begin with the hasher: of
    /// one that `RandomState` builds nobody knows the keys, so nobody can choose cells that make it
    /// slow.
    pub fn with_hasher(alloc: Global, hasher: DefaultHasher) -> FastServer
        ensures holds_none { ⟦<FastServer as SqlServer>⟧.loaded result ≡ [] }
        ensures is_honest { ⟦<FastServer as SqlServer>⟧.honest result ≡ true }
        ensures no_failures { ⟦<FastServer as SqlServer>⟧.failures result ≡ 0 }
        ensures never_fails { ⟦<FastServer as SqlServer>⟧.bound result ≡ 0 }
        ensures tells_none { ⟦<FastServer as SqlServer>⟧.asks result ≡ None }
    {
        FastServer {
            tables: List::new(alloc),
            hasher,
        }
    }
}

impl SqlServer for FastServer {
    ghost loaded = { λ server. server.tables };

    ghost honest = { λ _. true };

    ghost failures = { λ _. 0 };

    ghost bound = { λ _. 0 };

    ghost asks = { λ _. None };

    ghost bounded = { λ _. lit≤ tt };

    fn load(&mut self, alloc: Global, table: Loaded) -> Result<(), ServerFault> {
        let Loaded {
            name,
            columns,
            rows,
        } = table;
        // Answers share the cells of its columns.
        let rows = rows.shared()?;
        let table = Loaded {
            name,
            columns,
            rows,
        };
        self.tables.push(table)?;
        Ok(())
    }

    fn ask(&mut self, alloc: Global, text: &[u8]) -> Result<Answer, ServerFault> {
        let rows = answer_text(
            alloc,
            self.tables.as_slice(),
            text,
            Joining::HashTables(self.hasher),
            Arrangement::AsTheyArise,
        )?;
        Ok(Answer { rows })
    }
}
