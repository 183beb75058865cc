// Why a command gives no text.
use foreign_answers::{AnswerFault, LinkFault};
use nq_edge::PutFault;
use nq_execute::ServerRefusal;
use nq_json::JsonTableFault;
use nq_model::{Label, Memory, Text};
use query_syntax::SyntaxFault;
use schema_reader::SchemaFault;
use sql_reader::SqlFault;
use table_reader::TableFault;

/// What the inputs are refused for.
#[derive(Drop)]
pub enum Refused {
    /// The input of this name has more bytes than this limit.
    TooLong(Text, u64),
    /// The bytes of the schema spell none.
    Schema(SchemaFault),
    /// The bytes of the query spell none.
    Query(SyntaxFault),
    /// The query breaks this typing rule at this place, first in the order of judging.
    IllTyped { rule: u8, place: u64 },
    /// The rows of the table of this name would name bags, and it has no key.
    NoKey(Label),
    /// The text of the table of this name is refused.
    Table(Label, TableFault),
    /// The bytes of the SQL text spell none.
    Sql(SqlFault),
    /// The SQL text breaks this rule of scope at this place, first in the order of judging.
    IllScoped { rule: u8, place: u64 },
    /// The JSON text of the table of this name is refused.
    JsonTable(Label, JsonTableFault),
    /// The text of the answer of this number, counted from 1, is refused.
    Answer(u64, AnswerFault),
    /// The answers are not linked.
    Links(LinkFault),
}

/// Why no inputs were gathered.
#[derive(Drop)]
pub enum InputRefusal {
    Memory,
    Refused(Refused),
    /// The input of this name was not read.
    Failed(Text),
}

/// Why no text was put.
#[derive(Drop)]
pub enum Refusal {
    /// The words are no listed form.
    Usage,
    Input(InputRefusal),
    Server(ServerRefusal),
    OutputFailed,
}

impl From<Memory> for InputRefusal {
    ghost use Rattle.std.specs.Prelude.{◌≡◌};
    ghost use Rattle.command_line.specs.declared.refusal.InputRefusal.TheVariants as refusal;

    ghost from_gives = { λ _ e. e ≡ refusal.Memory };

    fn from(_: Memory) -> InputRefusal {
        InputRefusal::Memory
    }
}

impl From<InputRefusal> for Refusal {
    ghost use Rattle.std.specs.Prelude.{◌≡◌};
    ghost use Rattle.command_line.specs.declared.refusal.Refusal.TheVariants as refusal;

    ghost from_gives = { λ given e. e ≡ refusal.Input given };

    fn from(given: InputRefusal) -> Refusal {
        Refusal::Input(given)
    }
}

impl From<ServerRefusal> for Refusal {
    ghost use Rattle.std.specs.Prelude.{◌≡◌};
    ghost use Rattle.command_line.specs.declared.refusal.Refusal.TheVariants as refusal;

    ghost from_gives = { λ given e. e ≡ refusal.Server given };

    fn from(given: ServerRefusal) -> Refusal {
        Refusal::Server(given)
    }
}

impl From<PutFault> for Refusal {
    ghost use Rattle.std.specs.Prelude.{◌≡◌};
    ghost use Rattle.command_line.specs.declared.refusal.Refusal.TheVariants as refusal;

    ghost from_gives = { λ _ e. e ≡ refusal.OutputFailed };

    fn from(_: PutFault) -> Refusal {
        Refusal::OutputFailed
    }
}
