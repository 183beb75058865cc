// Why an SQL text spells no tree.
ghost use Rattle.std.specs.Prelude.{◌≡◌};
ghost use Rattle.sql_reader.specs.declared.fault.SqlFault.TheVariants.{Memory as want};

use nq_model::Memory;
use thiserror::Error;

/// Why an SQL text spells no tree at a depth. A place is the number of bytes before what is at
/// fault.
#[derive(Clone, Copy, Debug, PartialEq, Eq, Error)]
pub enum SqlFault {
    #[error("too little memory")]
    Memory,
    #[error("the SQL text is not UTF-8 at byte {place}")]
    NotUtf8 { place: u64 },
    #[error("no SQL token begins at byte {place}")]
    Token { place: u64 },
    #[error("no SQL text has this at byte {place}")]
    Unexpected { place: u64 },
    #[error("the number at byte {place} is above 9223372036854775807")]
    IntRange { place: u64 },
    #[error("the SQL text is too deep at byte {place}")]
    Deep { place: u64 },
}

impl From<Memory> for SqlFault {
    ghost from_gives = { λ _ e. e ≡ want };

    fn from(_error: Memory) -> SqlFault {
        SqlFault::Memory
    }
}
