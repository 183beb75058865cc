//! Reads schema texts: the schema that a text spells, or its one fault with its place.
#![tactic(auto)]

mod fault;
mod front;
mod grammar;
mod laws;
mod read;
mod shapes;
mod written;

pub use fault::SchemaFault;
pub use laws::schema_laws;
pub use read::read_schema;
