// Why a text spells no schema.
ghost use Rattle.std.specs.Prelude.{◌≡◌};
ghost use Rattle.schema_reader.specs.declared.fault.SchemaFault.TheVariants.{Memory as want};

use nq_model::Memory;
use thiserror::Error;

/// Why a text spells no schema. A place is the number of bytes before what is at fault.
#[derive(Clone, Copy, Debug, PartialEq, Eq, Error)]
pub enum SchemaFault {
    #[error("too little memory")]
    Memory,
    #[error("the text is not UTF-8 at byte {place}")]
    NotUtf8 { place: u64 },
    #[error("no schema has this at byte {place}")]
    Syntax { place: u64 },
    #[error("the table at byte {place} has the name of an earlier one")]
    TwiceTable { place: u64 },
    #[error("the column at byte {place} has the name of an earlier one")]
    TwiceColumn { place: u64 },
    #[error("the table at byte {place} has no columns")]
    NoColumn { place: u64 },
    #[error("the word of a key at byte {place} is no column, or stands in the key before")]
    KeyColumn { place: u64 },
    #[error("the name at byte {place} is the 65th, or has more than 64 bytes")]
    OverLimit { place: u64 },
}

impl From<Memory> for SchemaFault {
    ghost from_gives = { λ _ e. e ≡ want };

    fn from(_error: Memory) -> SchemaFault {
        SchemaFault::Memory
    }
}
