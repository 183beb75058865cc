//! Explanations of faults of schemas, queries and SQL texts, for a person who knows SQL: the place,
//! the line with a caret, and what could stand there.
#![tactic(auto)]

mod faults;
mod groups;
mod hints;
mod laws;
mod lines;
mod lists;
mod nearest;
mod sentences;
mod sql_columns;
mod sql_faults;
mod sql_found;
mod sql_groups;
mod sql_hints;
mod sql_places;
mod sql_scopes;
mod sql_stops;
mod sql_words;
mod stops;
mod table_names;
mod types;
mod words;

pub use faults::{explain_schema, explain_syntax, explain_type};
pub use laws::naming_laws;
pub use sql_columns::columns_line;
pub use sql_faults::{explain_scope, explain_sql};
pub use table_names::explain_table_name;
