// Why a text spells no term.
ghost use Rattle.std.specs.Prelude.{◌≡◌};
ghost use Rattle.query_syntax.specs.declared.fault.SyntaxFault.TheVariants.{Memory as want};

use nq_model::Memory;
use thiserror::Error;

/// Why a text spells no term at a depth. A place is the number of bytes before what is at fault.
#[derive(Clone, Copy, Debug, PartialEq, Eq, Error)]
pub enum SyntaxFault {
    #[error("too little memory")]
    Memory,
    #[error("the text is not UTF-8 at byte {place}")]
    NotUtf8 { place: u64 },
    #[error("no token begins at byte {place}")]
    Token { place: u64 },
    #[error("no query has this at byte {place}")]
    Unexpected { place: u64 },
    #[error("the number at byte {place} is above 9223372036854775807")]
    IntRange { place: u64 },
    #[error("the query is too deep at byte {place}")]
    Deep { place: u64 },
    #[error("the variable at byte {place} is bound nowhere")]
    Unbound { place: u64 },
    #[error("the label at byte {place} stands earlier in the same record or record type")]
    TwiceLabel { place: u64 },
}

impl From<Memory> for SyntaxFault {
    ghost from_gives = { λ _ e. e ≡ want };

    fn from(_error: Memory) -> SyntaxFault {
        SyntaxFault::Memory
    }
}
