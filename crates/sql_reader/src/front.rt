// What stands at the front of an SQL text: a gap, a token, or none of these.
ghost use Rattle.std.specs.Prelude.{◌≡◌, ◌<◌, ◌≤◌, ◌+◌, ◌^◌, ℕ, List, ◌∷◌, codes, length, drop, take, false, get_or, All};
ghost use Rattle.std.specs.List.{prefix_len};
ghost use Rattle.lexical.specs.Digits.{IsDigit};
ghost use Rattle.sql_profile.specs.Tokens.{First, begins_with, front, is_name_byte, literal_front, literal_len, name_front, number_front};
ghost use Rattle.sql_reader.specs.Fronts.{front_view};

use crate::marks::{keyword_front, symbol_front};
use crate::token::{Symbol, Whole};
use lexical::{
    begins_word, comment_len, digits_len, is_digit, is_order_mark, is_quote, is_white, literal_len,
    value_of, word_len,
};

/// What stands at the front of a text.
#[derive(Clone, Copy)]
pub enum Front<'a> {
    /// So many bytes of white space or of a comment.
    Gap(usize),
    /// A token of so many bytes.
    Takes(usize, Symbol<'a>),
    /// No token begins.
    NoToken,
    /// A number above 9223372036854775807.
    TooLarge,
}

fn begins_comment(bytes: &[u8]) -> bool
    ensures { result ≡ begins_with (codes "--") bytes.now }
{
    bytes.starts_with(b"--")
}

// A number of so many digits at the front of the bytes.
#[tactic(auto, using(crate::proofs::Fronts::same_number))]
fn number_front(bytes: &[u8], size: usize) -> Front<'_>
    requires within { size ≤ length bytes.now }
    requires digits { All IsDigit (take size bytes.now) }
    ensures { front_view result ≡ number_front (take size bytes.now) }
{
    match value_of(&bytes[..size]) {
        Some(value) => Front::Takes(
            size,
            Symbol::Number(Whole {
                value,
                digits: size as u64,
            }),
        ),
        None => Front::TooLarge,
    }
}

// How many bytes stand before the first double quote, or before the end.
fn name_len(bytes: &[u8]) -> usize
    ensures { result ≡ prefix_len is_name_byte bytes.now }
{
    for (i, byte) in bytes.iter().enumerate() {
        if *byte == b'"' {
            return i;
        }
    }
    bytes.len()
}

// The identifier whose first quote stands at a place of the text, before these bytes.
fn name_front<'a>(text: &'a str, place: usize, rest: &[u8]) -> Front<'a>
    requires within { place < length text.now }
    requires fits { length text.now < 2 ^ 64 }
    requires quote { get_or text.now place 0 ≡ 34 }
    requires rest { rest.now ≡ drop (place + 1) text.now }
    ensures { front_view result
        ≡ name_front (prefix_len is_name_byte rest.now) rest.now
        (drop (prefix_len is_name_byte rest.now) rest.now) }
{
    let size = name_len(rest);
    if size < rest.len() && 1 <= size && size <= 128 {
        Front::Takes(size + 2, Symbol::Name(&text[place + 1..place + 1 + size]))
    } else {
        Front::NoToken
    }
}

// The literal whose first quote stands at a place of the text, before these bytes.
#[tactic(auto, using(crate::proofs::Fronts::same_literal))]
fn literal_front<'a>(text: &'a str, place: usize, rest: &[u8]) -> Front<'a>
    requires within { place < length text.now }
    requires fits { length text.now < 2 ^ 64 }
    requires quote { get_or text.now place 0 ≡ 39 }
    requires rest { rest.now ≡ drop (place + 1) text.now }
    ensures { front_view result ≡ literal_front (literal_len false rest.now) rest.now }
{
    match literal_len(rest) {
        Some(size) => Front::Takes(size + 1, Symbol::Literal(&text[place + 1..place + size])),
        None => Front::NoToken,
    }
}

// What stands at a place of a text, where this is the byte there and these are the bytes from there
// on.
fn front_of<'a>(
    text: &'a str,
    place: usize,
    bytes: &'a [u8],
    first: u8,
    rest: &'a [u8],
) -> Front<'a>
    requires within { place < length text.now }
    requires fits { length text.now < 2 ^ 64 }
    requires there { bytes.now ≡ drop place text.now }
    requires parts { bytes.now ≡ first ∷ rest.now }
    ensures { front_view result ≡ front First place first rest.now }
{
    if is_white(first) {
        Front::Gap(1)
    } else if begins_comment(bytes) {
        Front::Gap(comment_len(rest) + 1)
    } else if begins_word(first) {
        keyword_front(&bytes[..word_len(rest) + 1])
    } else if is_digit(first) {
        number_front(bytes, digits_len(rest) + 1)
    } else if first == b'"' {
        name_front(text, place, rest)
    } else if is_quote(first) {
        literal_front(text, place, rest)
    } else if is_order_mark(place, bytes) {
        Front::Gap(3)
    } else {
        symbol_front(bytes)
    }
}

/// What stands at a place of a text that does not end there.
pub fn front_at(text: &str, place: usize) -> Front<'_>
    requires within { place < length text.now }
    requires fits { length text.now < 2 ^ 64 }
    ensures { (b : ℕ) (rest : List ℕ) → drop place text.now ≡ b ∷ rest
        → front_view result ≡ front First place b rest }
{
    let (_, bytes) = text.as_bytes().split_at(place);
    match bytes.split_first() {
        Some((first, rest)) => front_of(text, place, bytes, *first, rest),
        None => unreachable!(),
    }
}
