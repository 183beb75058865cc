//! Normal, shredded and let forms of queries, and what they mean.
#![tactic(auto)]

mod base;
mod laws;
mod lets;
mod normal;
mod normal_laws;
mod path;
mod shredded;

pub use base::{Base, Gen, Test, copy_conds, copy_gens};
pub use laws::{insertion_laws, let_laws, shredding_laws, spot_laws};
pub use lets::{LetForm, LetPart, LetQuery};
pub use normal::{Body, Comp, Normal};
pub use normal_laws::{normal_form_laws, strand_laws};
pub use path::{Path, Step};
pub use shredded::{Shape, Shredded, Strand};
