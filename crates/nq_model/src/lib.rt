//! Types, terms, values, cells and schemas, with the definitions that every other crate cites.
#![tactic(auto)]

mod cell_ref;
mod laws;
mod list;
mod memory;
mod operators;
mod order;
mod step_laws;
mod table;
mod term;
mod term_copy;
mod text;
mod ty;
mod type_laws;
mod value;
mod value_laws;

pub use cell_ref::CellRef;
pub use laws::{canonical_laws, sameness_laws};
pub use list::List;
pub use memory::{Memory, boxed};
pub use operators::{binary_value, is_true, unary_value};
pub use order::{in_label_order, label_order};
pub use step_laws::{substitution_laws, unfolding_laws};
pub use table::{Cell, ColumnType, Schema, TableShape};
pub use term::{Binary, Node, Term, Unary};
pub use text::{Label, Text};
pub use ty::Ty;
pub use type_laws::{judging_laws, typing_laws};
pub use value::Value;
pub use value_laws::meaning_laws;
