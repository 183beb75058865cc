// What stands at the front of a text: a gap, a token, or none of these.
ghost use Rattle.std.specs.Prelude.{◌≡◌, ◌<◌, ◌≤◌, ◌+◌, ◌^◌, ℕ, List, ◌∷◌, length, drop, take, false, get_or, All};
ghost use Rattle.std.specs.Str.{IsUtf8};
ghost use Rattle.nq_model.specs.QueryTokens.{front, word_front, number_front, literal_front, literal_len};
ghost use Rattle.query_syntax.specs.Fronts.{front_view};
ghost use Rattle.lexical.specs.Digits.{IsDigit};

use crate::marks::symbol_front;
use crate::symbol::{Symbol, Whole};
use lexical::{
    begins_word, comment_len, digits_len, is_digit, is_order_mark, is_quote, is_white, literal_len,
    value_of, word_len,
};
use std::str;

/// What stands at the front of a text.
#[derive(Clone, Copy)]
pub enum Front<'a> {
    /// So many bytes of white space or of a comment.
    Gap(usize),
    /// A token of so many bytes.
    Takes(usize, Symbol<'a>),
    /// No token begins.
    NoToken,
    /// A number above 9223372036854775807.
    TooLarge,
}

// A word of so many bytes at the front of the bytes.
fn word_front(bytes: &[u8], size: usize) -> Front<'_>
    requires within { size ≤ length bytes.now }
    requires utf8 { IsUtf8 (take size bytes.now) }
    ensures { front_view result ≡ word_front size bytes.now }
{
    if size > 64 {
        return Front::NoToken;
    }
    match str::from_utf8(&bytes[..size]) {
        Ok(word) => Front::Takes(size, Symbol::Word(word)),
        Err(_) => unreachable!(),
    }
}

// A number of so many digits at the front of the bytes.
fn number_front(bytes: &[u8], size: usize) -> Front<'_>
    requires within { size ≤ length bytes.now }
    requires digits { All IsDigit (take size bytes.now) }
    ensures { front_view result ≡ number_front size bytes.now }
{
    match value_of(&bytes[..size]) {
        Some(value) => Front::Takes(
            size,
            Symbol::Number(Whole {
                value,
                digits: size as u64,
            }),
        ),
        None => Front::TooLarge,
    }
}

// The literal whose first quote stands at a place of the text, before these bytes.
fn literal_front<'a>(text: &'a str, place: usize, rest: &'a [u8]) -> Front<'a>
    requires within { place < length text.now }
    requires fits { length text.now < 2 ^ 64 }
    requires quote { get_or text.now place 0 ≡ 39 }
    requires rest { rest.now ≡ drop (place + 1) text.now }
    ensures { front_view result ≡ literal_front (literal_len false rest.now) rest.now }
{
    match literal_len(rest) {
        Some(size) => Front::Takes(size + 1, Symbol::Literal(&text[place + 1..place + size])),
        None => Front::NoToken,
    }
}

// What stands at a place of a text, where this is the byte there and these are the bytes from there
// on.
fn front_of<'a>(
    text: &'a str,
    place: usize,
    bytes: &'a [u8],
    first: u8,
    rest: &'a [u8],
) -> Front<'a>
    requires within { place < length text.now }
    requires fits { length text.now < 2 ^ 64 }
    requires there { bytes.now ≡ drop place text.now }
    requires parts { bytes.now ≡ first ∷ rest.now }
    ensures { front_view result ≡ front place first rest.now }
{
    if is_white(first) {
        Front::Gap(1)
    } else if first == b'#' {
        Front::Gap(comment_len(rest) + 1)
    } else if begins_word(first) {
        word_front(bytes, word_len(rest) + 1)
    } else if is_digit(first) {
        number_front(bytes, digits_len(rest) + 1)
    } else if is_quote(first) {
        literal_front(text, place, rest)
    } else if is_order_mark(place, bytes) {
        Front::Gap(3)
    } else {
        symbol_front(bytes)
    }
}

/// What stands at a place of a text that does not end there.
pub fn front_at(text: &str, place: usize) -> Front<'_>
    requires within { place < length text.now }
    requires fits { length text.now < 2 ^ 64 }
    ensures { (b : ℕ) (rest : List ℕ) → drop place text.now ≡ b ∷ rest
        → front_view result ≡ front place b rest }
{
    let (_, bytes) = text.as_bytes().split_at(place);
    match bytes.split_first() {
        Some((first, rest)) => front_of(text, place, bytes, *first, rest),
        None => unreachable!(),
    }
}
