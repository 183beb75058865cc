//! A query as JSON, for programs that run its texts elsewhere: its type, and for each path the
//! text, the columns of its answer, and where its bags stand in the answer around.
#![tactic(auto)]

mod columns;
mod parents;
mod path_form;
mod texts;
mod type_form;

pub use columns::column_name;
pub use texts::write_query_json;
