//! The canonical text of what flat answers stitch to, written from the answers: no value is built.
#![tactic(auto)]

mod build;
mod compare;
mod groups;
mod heading;
mod numbered;
mod order;
mod part;
mod read;
mod runs;
mod size;
mod spans;
mod text;
mod write;

pub use text::answer_text;
