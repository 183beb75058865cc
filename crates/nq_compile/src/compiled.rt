// What compiling gives.
use nq_ir::Path;
use nq_model::{ColumnType, List, Ty};

/// The SQL texts that stand in for a query: its type, the paths of the type in pre-order, and for
/// each path the text and the types of its columns, the two of the outer index first.
///
/// After Cheney, Lindley and Wadler, "Query Shredding", SIGMOD 2014.
#[derive(Drop)]
pub struct Compiled {
    pub result: Ty,
    pub paths: List<Path>,
    pub texts: List<List<u8>>,
    pub columns: List<List<ColumnType>>,
}
