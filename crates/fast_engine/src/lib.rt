//! A server that joins tables by hash tables.
#![tactic(auto)]

mod fast;

pub use fast::FastServer;
