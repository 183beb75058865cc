//! Servers that answer SQL texts over the tables that they were loaded with.
#![tactic(auto)]

mod crooked;
mod failing;
mod plain;
mod scripted;

pub use crooked::CrookedServer;
pub use failing::FailingServer;
pub use plain::PlainServer;
pub use scripted::ScriptedServer;
