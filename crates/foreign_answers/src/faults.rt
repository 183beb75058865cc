// Why answers are refused.
use nq_model::Memory;
use thiserror::Error;

/// Why the text of an answer is refused. Rows and columns are counted from 1, and the header is no
/// row.
#[derive(Clone, Copy, Debug, PartialEq, Eq, Error)]
pub enum AnswerFault {
    /// Too little memory, at any text.
    #[error("want of memory")]
    Memory,
    /// There is no record, or the first is not the column names.
    #[error("the first record is not the column names")]
    Header,
    /// A row has more or fewer cells than the answer has columns.
    #[error("row {row} has another number of cells than the answer has columns")]
    Width { row: u64 },
    /// A cell is not UTF-8, in a column of any type.
    #[error("row {row} column {column} is not UTF-8")]
    NotUtf8 { row: u64, column: u64 },
    /// A cell of an int column is no int within 64 bits.
    #[error("row {row} column {column} is no int")]
    BadInt { row: u64, column: u64 },
    /// A cell of a bool column is no truth value.
    #[error("row {row} column {column} is no bool")]
    BadBool { row: u64, column: u64 },
}

impl From<Memory> for AnswerFault {
    ghost use Rattle.std.specs.Prelude.{◌≡◌};
    ghost use Rattle.foreign_answers.specs.declared.faults.AnswerFault.TheVariants as fault;

    ghost from_gives = { λ _ e. e ≡ fault.Memory };

    fn from(_: Memory) -> Self {
        AnswerFault::Memory
    }
}

/// Why answers are not linked. Texts are counted from 1 in path order, and so are rows and columns.
#[derive(Clone, Copy, Debug, PartialEq, Eq, Error)]
pub enum LinkFault {
    /// Too little memory, at any answers.
    #[error("want of memory")]
    Memory,
    /// A row stands in a bag that no row of the enclosing answer gives.
    #[error("row {row} of answer {text} stands in no bag that is given")]
    Dangling {
        text: u64,
        row: u64,
    },
    /// A row gives an inner bag, with its tag in this column, by the index of an earlier row, the
    /// first that has it.
    #[error("row {row} of answer {text} has in column {column} the index of row {earlier}")]
    Twice {
        text: u64,
        row: u64,
        column: u64,
        earlier: u64,
    },
}

impl From<Memory> for LinkFault {
    ghost use Rattle.std.specs.Prelude.{◌≡◌};
    ghost use Rattle.foreign_answers.specs.declared.faults.LinkFault.TheVariants as fault;

    ghost from_gives = { λ _ e. e ≡ fault.Memory };

    fn from(_: Memory) -> Self {
        LinkFault::Memory
    }
}
