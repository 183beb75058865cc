//! Natural indexes: an index is a tag and the keys of the rows at which its comprehension stands.
#![tactic(auto)]

mod columns;
mod homes;
mod index;
mod layout;
mod layouts;
mod natural;
mod places;

pub use columns::{has_key, key_columns, scope_key};
pub use index::KeyIndex;
pub use layout::{KeyColumn, Layout};
pub use layouts::{inner_layouts, outer_layouts};
pub use natural::NaturalKeys;
pub use places::element_columns;
