//! Normal forms as query texts: generator k is `xk`, and parentheses stand where a part is weaker
//! than its place asks.
#![tactic(auto)]

mod bases;
mod header;
mod laws;
mod levels;
mod pieces;
mod text;
mod types;

pub use laws::printing_laws;
pub use text::print_normal;
