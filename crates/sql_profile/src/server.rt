// Servers that are loaded with tables and asked texts.
ghost use Rattle.std.specs.Prelude.{◌≡◌, ◌≤◌, [], ◌∷◌, ◌++◌, List, ℕ, Bool, true, Option, OnOk, OnErr, IfOk, All, Contains};
ghost use Rattle.nq_model.specs.Cells.{RowFits};
ghost use Rattle.nq_model.specs.Orders.{AreDistinct};
ghost use Rattle.nq_model.specs.Tables.{names_of, types_of};
ghost use Rattle.sql_profile.specs.Servers.{CountsFault, Asks, with_ask, table_names};
ghost use Rattle.sql_profile.specs.Texts.{IsAskable, TextAllows};
ghost use Rattle.sql_profile.specs.Tokens.{First};
ghost use Rattle.sql_profile.specs.declared.server.Loaded.{Loaded};

use crate::answer::Answer;
use nq_model::{ColumnType, Label, List, Memory};
use rows::Rows;
use std::alloc::Global;

/// A table with its rows, as a server is loaded with it.
#[derive(Drop)]
pub struct Loaded {
    pub name: Label,
    pub columns: List<(Label, ColumnType)>,
    pub rows: Rows,
}

/// Why a server did not do what it was called for: it found too little memory, or it failed, which
/// it counts.
#[derive(Clone, Copy, Debug, PartialEq, Eq)]
pub enum ServerFault {
    Memory,
    Failed,
}

impl From<Memory> for ServerFault {
    ghost use Rattle.std.specs.Prelude.{◌≡◌};
    ghost use Rattle.sql_profile.specs.declared.server.ServerFault.TheVariants as fault;

    ghost from_gives = { λ _ e. e ≡ fault.Memory };

    fn from(_: Memory) -> Self {
        ServerFault::Memory
    }
}

/// A server of SQL texts over the tables that it was loaded with. Its honesty, the bound of its
/// faults, and whether it tells its asks never change.
pub trait SqlServer: Drop {
    /// The tables that it holds, in the order in which they were loaded.
    ghost loaded: { Self → List Loaded };

    /// Whether each of its answers is one that SQL allows.
    ghost honest: { Self → Bool };

    /// How many of its calls have failed.
    ghost failures: { Self → ℕ };

    /// What that count never passes.
    ghost bound: { Self → ℕ };

    /// The texts of its successful asks with their answers, in order, where it tells them.
    ghost asks: { Self → Option Asks };

    /// Adds a table, whose name no held table has and whose rows fit its columns. It answers
    /// `Failed` only where its count of faults rose, and after an error it holds what it held.
    fn load(&mut self, alloc: Global, table: Loaded) -> Result<(), ServerFault>
        requires fresh { Contains (table_names (loaded self.old)) table.name → ⊥ }
        requires columns_differ { AreDistinct (names_of table.columns) }
        requires fits { All (RowFits (types_of table.columns)) table.rows }
        ensures ok { OnOk result (loaded self.new ≡ loaded self.old ++ table ∷ []) }
        ensures err { OnErr result (loaded self.new ≡ loaded self.old) }
        ensures counts { CountsFault (bound self.old) (failures self.old) (failures self.new)
            result }
        ensures asks_stay { asks self.new ≡ asks self.old }
        ensures honesty_stays { honest self.new ≡ honest self.old }
        ensures bound_stays { bound self.new ≡ bound self.old };

    /// Answers a text of the profile that is well scoped over the held tables, if it is honest with
    /// rows that SQL allows to it. It answers `Failed` only where its count of faults rose.
    fn ask(&mut self, alloc: Global, text: &[u8]) -> Result<Answer, ServerFault>
        requires { IsAskable First (loaded self.old) text.now }
        ensures allowed { IfOk result
            (λ answer. honest self.old ≡ true
            → TextAllows First (loaded self.old) text.now answer.rows) }
        ensures counts { CountsFault (bound self.old) (failures self.old) (failures self.new)
            result }
        ensures told { IfOk result
            (λ answer. asks self.new ≡ with_ask text.now answer (asks self.old)) }
        ensures untold { OnErr result (asks self.new ≡ asks self.old) }
        ensures tables_stay { loaded self.new ≡ loaded self.old }
        ensures honesty_stays { honest self.new ≡ honest self.old }
        ensures bound_stays { bound self.new ≡ bound self.old };

    /// The count of faults does not pass its bound.
    ghost bounded: { (server : Self) → failures server ≤ bound server };
}

/// `SqlServer::load` of a boxed server.
pub fn load_table(
    alloc: Global,
    server: &mut Box<dyn SqlServer>,
    table: Loaded,
) -> Result<(), ServerFault>
    requires fresh { Contains (table_names (loaded server.old)) table.name → ⊥ }
    requires columns_differ { AreDistinct (names_of table.columns) }
    requires fits { All (RowFits (types_of table.columns)) table.rows }
    ensures ok { OnOk result (loaded server.new ≡ loaded server.old ++ table ∷ []) }
    ensures err { OnErr result (loaded server.new ≡ loaded server.old) }
    ensures counts { CountsFault (bound server.old) (failures server.old) (failures server.new)
        result }
    ensures asks_stay { asks server.new ≡ asks server.old }
    ensures honesty_stays { honest server.new ≡ honest server.old }
    ensures bound_stays { bound server.new ≡ bound server.old }
{
    server.load(alloc, table)
}

/// `SqlServer::ask` of a boxed server.
pub fn ask_text(
    alloc: Global,
    server: &mut Box<dyn SqlServer>,
    text: &[u8],
) -> Result<Answer, ServerFault>
    requires { IsAskable First (loaded server.old) text.now }
    ensures allowed { IfOk result
        (λ answer. honest server.old ≡ true
        → TextAllows First (loaded server.old) text.now answer.rows) }
    ensures counts { CountsFault (bound server.old) (failures server.old) (failures server.new)
        result }
    ensures told { IfOk result
        (λ answer. asks server.new ≡ with_ask text.now answer (asks server.old)) }
    ensures untold { OnErr result (asks server.new ≡ asks server.old) }
    ensures tables_stay { loaded server.new ≡ loaded server.old }
    ensures honesty_stays { honest server.new ≡ honest server.old }
    ensures bound_stays { bound server.new ≡ bound server.old }
{
    server.ask(alloc, text)
}
