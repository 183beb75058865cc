//! Reads table texts: CSV with a header of column names, into rows of typed cells.
#![tactic(auto)]

mod cells;
mod laws;
mod read;
mod record;
mod records;

pub use laws::table_laws;
use nq_model::Memory;
pub use read::read_table;
pub use record::record_at;
use thiserror::Error;

/// Why a table text is refused. Rows and columns are counted from 1, and the header is no row.
#[derive(Clone, Copy, Debug, PartialEq, Eq, Error)]
pub enum TableFault {
    /// Too little memory, at any text.
    #[error("want of memory")]
    Memory,
    /// There is no record, or the first is not the column names.
    #[error("the first record is not the column names")]
    Header,
    /// A row has more or fewer cells than the table has columns.
    #[error("row {row} has another number of cells than the table has columns")]
    Width { row: u64 },
    /// A cell is not UTF-8, in a column of any type.
    #[error("row {row} column {column} is not UTF-8")]
    NotUtf8 { row: u64, column: u64 },
    /// A cell of an int column is no int within 64 bits.
    #[error("row {row} column {column} is no int")]
    BadInt { row: u64, column: u64 },
    /// A cell of a bool column is no truth value.
    #[error("row {row} column {column} is no bool")]
    BadBool { row: u64, column: u64 },
    /// A row has the key cells of an earlier one, the first that has them.
    #[error("row {row} has the key of row {earlier}")]
    TwiceKey { row: u64, earlier: u64 },
}

impl From<Memory> for TableFault {
    ghost use Rattle.std.specs.Prelude.{◌≡◌};
    ghost use Rattle.table_reader.specs.declared.TableFault.TheVariants as fault;

    ghost from_gives = { λ _ e. e ≡ fault.Memory };

    fn from(_: Memory) -> Self {
        TableFault::Memory
    }
}
