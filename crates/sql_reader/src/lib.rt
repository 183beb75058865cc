//! Reads SQL texts: their tokens one after the other, with a stack of unfinished forms.
#![tactic(auto)]

mod begin;
mod behind;
mod between;
mod chain;
mod extent;
mod fault;
mod fits;
mod form;
mod front;
mod levels;
mod lexer;
mod lists;
mod marks;
mod moves;
mod numbering;
mod openness;
mod part;
mod queries;
mod read;
mod scalars;
mod selects;
mod settle;
mod sources;
mod sql;
mod stack;
mod state;
mod step;
mod token;

pub use fault::SqlFault;
pub use lexer::tokens;
pub use openness::{is_open, open_front, open_laws};
pub use sql::read_sql;
pub use token::{Mark, Symbol, Token, Whole};
