// What compiling a query for its lineage gives.
use lineage::TraceForm;
use nq_model::{ColumnType, List, Ty};

/// The SQL texts that stand in for the lineage of a query: the traced form of its normal form, the
/// type of that form's value, and for each path of the type the text and the types of its columns.
#[derive(Drop)]
pub struct TracedTexts {
    pub form: TraceForm,
    pub result: Ty,
    pub texts: List<List<u8>>,
    pub columns: List<List<ColumnType>>,
}
