//! Lineage: the traced form of a query, whose elements say which rows made them, what its answers
//! decode to, and the text of that.
#![tactic(auto)]

mod bodies;
mod coded;
mod decoder;
mod erasure;
mod fields;
mod form;
mod found;
mod laws;
mod places;
mod records;
mod tables;
mod text;
mod traced;
mod types;

pub use decoder::decode;
pub use erasure::erase;
pub use form::{TraceForm, has_no_numbers, trace_form};
pub use laws::lineage_laws;
pub use records::recorded;
pub use text::write_traced;
pub use traced::{RowName, Traced, TracedElement};
