//! Tokens and syntax trees of query texts, and the terms that syntax trees stand for.
#![tactic(auto)]

mod fault;
mod front;
mod indexes;
mod lexer;
mod lower_labels;
mod lower_type;
mod marks;
mod symbol;
mod syntax;

pub use fault::SyntaxFault;
pub use indexes::lower;
pub use lexer::tokens;
pub use symbol::{Operator, Symbol, Token, Whole};
pub use syntax::{Aggregate, FieldName, Syntax, TypeSyntax, Variable};
