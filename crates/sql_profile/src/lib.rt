//! SQL texts and their answers: the trees of texts, what a text may say and what SQL allows to it,
//! the trait of a server, and which answers fit their columns.
#![tactic(auto)]

mod answer;
mod laws;
mod server;
mod tree;

pub use answer::{Answer, Misfit, fits, misfit_laws};
pub use laws::{
    answer_laws, ask_laws, chain_laws, loaded_laws, printing_laws, scope_laws, text_laws,
};
pub use server::{Loaded, ServerFault, SqlServer, ask_text, load_table};
pub use tree::{
    Expr, ExprNode, Item, ItemValue, Link, Picked, Query, Select, Source, SqlText, With,
};
