//! The SQL tree of a let form.
#![tactic(auto)]

mod expr;
mod keys;
mod laws;
mod names;
mod plain;
mod select;
mod source;
mod text;
mod values;

pub use laws::flattening_laws;
pub use plain::{base_expr, column_expr, conds_keep};
pub use source::sources;
pub use text::flatten;
