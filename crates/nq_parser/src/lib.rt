//! Reads query texts: their tokens one after the other, with a stack of unfinished forms.
//!
//! Where a form or a state is let go, `drop` says so: its parts are then dropped by one call, which
//! the check reads once, and not at each place.
#![tactic(auto)]

mod begin;
mod behind;
mod behind_word;
mod between;
mod edition;
mod fits;
mod form;
mod have;
mod inside;
mod join;
mod laws;
mod levels;
mod openness;
mod part;
mod query;
mod read;
mod settle;
mod stack;
mod state;
mod step;
mod type_begin;
mod type_behind;
mod type_between;
mod type_settle;
mod type_stack;
mod wants;
mod words;

pub use edition::{Edition, edition_of};
pub use laws::query_laws;
pub use openness::{is_open, open_front, open_laws};
pub use query::parse;
pub use query_syntax::SyntaxFault;
