//! What is said of a fault: the line and column of its place, an excerpt of the text around it, a
//! sentence for each fault of a schema, a query and an SQL text, and what each rule asks.
#![tactic(auto)]

mod columns;
mod excerpts;
mod laws;
mod lines;
mod places;
mod rule_texts;
mod scope_rules;
mod sentences;
mod typing_rules;

pub use excerpts::excerpt;
pub use laws::{column_laws, excerpt_laws};
pub use places::{Place, place_in};
pub use rule_texts::{Rule, example_schema, rule_text};
pub use scope_rules::{ScopeRule, scope_rule};
pub use sentences::{
    QueryFaultKind, SchemaFaultKind, SqlFaultKind, query_sentence, schema_sentence, sql_sentence,
};
pub use typing_rules::{TypingRule, typing_rule};
