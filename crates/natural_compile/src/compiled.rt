// What compiling by keys gives.
use natural_keys::NaturalKeys;
use nq_ir::Path;
use nq_model::{ColumnType, List, Ty};

/// The SQL texts that stand in for a query, whose rows name bags by keys: its type, the paths of
/// the type in pre-order, for each path the text and the types of its columns, and the keys that
/// read the answers.
///
/// After the natural indexes of Cheney, Lindley and Wadler, "Query Shredding", SIGMOD 2014.
#[derive(Drop)]
pub struct KeyedTexts {
    pub result: Ty,
    pub paths: List<Path>,
    pub keys: NaturalKeys,
    pub texts: List<List<u8>>,
    pub columns: List<List<ColumnType>>,
}
