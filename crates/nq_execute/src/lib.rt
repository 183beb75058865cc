//! Serving a command: a server is loaded with tables and asked texts, each answer is tried against
//! its columns before the next text is asked, and the value that the answers stitch to is written
//! as its canonical text, as its summary, as JSON or by what it tells of table rows, or the rows of
//! the one answer, as lines or as JSON. Answers that come from elsewhere are written alike.
#![tactic(auto)]

mod ask;
mod finish;
mod laws;
mod load;
mod plan;
mod refusal;
mod serving;
mod summary;

pub use finish::write_answers;
pub use laws::writing_laws;
pub use plan::{Finish, Indexes, Plan, RowWriting, TraceWriting, Writing};
pub use refusal::ServerRefusal;
pub use serving::serve;
