// Key columns, and how many cells of each type an index has.
use nq_model::{ColumnType, Label};

/// A key column of a generator, and its type.
#[derive(Drop)]
pub struct KeyColumn {
    pub generator: u64,
    pub name: Label,
    pub of: ColumnType,
}

/// How many key cells of each type an index has, beside its tag.
#[derive(Clone, Copy)]
pub struct Layout {
    pub ints: u64,
    pub bools: u64,
    pub texts: u64,
}
