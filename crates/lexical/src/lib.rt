//! What stands at the front of a text, as far as the languages share it: white space, words,
//! numbers, literals.
#![tactic(auto)]

mod bytes;
mod digits;
mod literal;
mod quotes;

pub use bytes::{
    begins_word, comment_len, digits_len, is_digit, is_order_mark, is_quote, is_white, word_len,
};
pub use digits::value_of;
pub use literal::literal_len;
pub use quotes::unquoted;
