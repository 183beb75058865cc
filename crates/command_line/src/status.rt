// The status of an answer.
ghost use Rattle.std.specs.Prelude.{◌≡◌};
ghost use Rattle.command_line.specs.Refusals.{status_of};

use crate::refusal::{InputRefusal, Refusal, Refused};
use nq_execute::ServerRefusal;

// The status of what the inputs are refused for.
fn refused_status(refused: &Refused) -> u8
    ensures { result ≡ Rattle.command_line.specs.Refusals.refused_status refused.now }
{
    match refused {
        Refused::TooLong(..) => 10,
        Refused::Schema(_) => 3,
        Refused::Query(_) => 4,
        Refused::IllTyped { .. } => 5,
        Refused::Table(..) => 6,
        Refused::Sql(_) | Refused::IllScoped { .. } => 12,
        Refused::NoKey(_) => 14,
        Refused::Answer(..) | Refused::Links(_) => 15,
        Refused::JsonTable(..) => 16,
    }
}

/// The status of an answer: 0, or that of the refusal.
pub fn status_of(answer: &Result<(), Refusal>) -> u8
    ensures { result ≡ status_of answer.now }
{
    match answer {
        Ok(()) => 0,
        Err(Refusal::Usage) => 2,
        Err(Refusal::Input(InputRefusal::Memory)) => 1,
        Err(Refusal::Input(InputRefusal::Refused(refused))) => refused_status(refused),
        Err(Refusal::Input(InputRefusal::Failed(_))) => 7,
        Err(Refusal::Server(ServerRefusal::Memory)) => 1,
        Err(Refusal::Server(ServerRefusal::TableFailed(_))) => 9,
        Err(Refusal::Server(ServerRefusal::TextFailed(_))) => 9,
        Err(Refusal::Server(ServerRefusal::BadAnswer { .. })) => 11,
        Err(Refusal::OutputFailed) => 8,
    }
}
