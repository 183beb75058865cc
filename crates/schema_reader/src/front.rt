// What stands at the front of a text: white space, a comment, a token, or none of these.
ghost use Rattle.std.specs.Prelude.{◌≡◌, take, option_map};
ghost use Rattle.std.specs.List.{prefix_len};
ghost use Rattle.nq_model.specs.SchemaTokens.{is_word_byte};
ghost use Rattle.schema_reader.specs.Fronts.{mark_of, mark_view, IsFront, BeginsWord};

use lexical::{begins_word, comment_len, is_order_mark, is_white, word_len};
use std::str;

/// A token that is no word.
#[derive(Clone, Copy)]
pub enum Mark {
    Opening,
    Closing,
    Comma,
    Colon,
    Semicolon,
}

/// What a token says.
#[derive(Clone, Copy)]
pub enum Symbol<'a> {
    Word(&'a str),
    Mark(Mark),
}

/// What stands at the front of a text.
#[derive(Clone, Copy)]
pub enum Front<'a> {
    /// Nothing.
    End,
    /// A byte where no token begins.
    Stray,
    /// White space or a comment of so many bytes.
    Gap(usize),
    /// A token of so many bytes.
    Token(Symbol<'a>, usize),
}

fn mark_of(byte: u8) -> Option<Mark>
    ensures { option_map mark_view result ≡ mark_of byte }
{
    match byte {
        b'(' => Some(Mark::Opening),
        b')' => Some(Mark::Closing),
        b',' => Some(Mark::Comma),
        b':' => Some(Mark::Colon),
        b';' => Some(Mark::Semicolon),
        _ => None,
    }
}

// The word at the front of the bytes.
fn word(bytes: &[u8]) -> &str
    requires { BeginsWord bytes.now }
    ensures { result.now ≡ take (prefix_len is_word_byte bytes.now) bytes.now }
{
    match str::from_utf8(&bytes[..word_len(bytes)]) {
        Ok(word) => word,
        Err(_) => unreachable!(),
    }
}

/// What stands at the front of the bytes that begin at a place.
pub fn front_at<'a>(place: usize, bytes: &'a [u8]) -> Front<'a>
    ensures { IsFront place bytes.now result }
{
    let Some((first, _)) = bytes.split_first() else {
        return Front::End;
    };
    if is_white(*first) {
        return Front::Gap(1);
    }
    if *first == b'#' {
        return Front::Gap(comment_len(bytes));
    }
    if begins_word(*first) {
        let word = word(bytes);
        return Front::Token(Symbol::Word(word), word.len());
    }
    if let Some(mark) = mark_of(*first) {
        return Front::Token(Symbol::Mark(mark), 1);
    }
    if is_order_mark(place, bytes) {
        return Front::Gap(3);
    }
    Front::Stray
}
