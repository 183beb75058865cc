//! The command line: the words of each command, the texts that `--help`, `--version` and `show`
//! write, and why a command gives no text, with the status and the note line of each answer.
#![tactic(auto)]

mod frame;
mod help;
mod laws;
mod note;
mod paths;
mod refusal;
mod rules;
mod status;
mod topics;
mod words;

pub use frame::frames;
pub use help::{help_text, version_text};
pub use laws::frame_laws;
pub use note::put_note;
pub use paths::paths_text;
pub use refusal::{InputRefusal, Refusal, Refused};
pub use status::status_of;
pub use topics::{Topic, topic_text};
pub use words::{Aim, Command, Showing, Subject, command_of};
