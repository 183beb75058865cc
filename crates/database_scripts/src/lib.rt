//! Scripts for the programs psql and sqlite3: one that makes and fills the tables of a schema, and
//! one that asks the texts of a query and writes the answers to files.
#![tactic(auto)]

mod ask;
mod columns;
mod database;
mod files;
mod load;

pub use ask::ask_script;
pub use database::Database;
pub use load::load_script;
