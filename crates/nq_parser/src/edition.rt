// The editions of the language, and what stands before a program of the second.
ghost use Rattle.std.specs.Prelude.{◌≡◌, map};
ghost use Rattle.nq_model.specs.QueryTexts.{edition_of};
ghost use Rattle.nq_parser.specs.Editions.{IsBehind, edition_view, is_nq, is_semicolon, is_two};
ghost use Rattle.query_syntax.specs.Symbols.{token_view};

use query_syntax::{Symbol, Token};

/// The editions of the language, which differ in their reserved words and forms.
#[derive(Clone, Copy)]
pub enum Edition {
    First,
    Second,
}

/// The edition in which a text with these tokens is read: the second behind `nq 2;`.
pub fn edition_of(tokens: &[Token<'_>]) -> Edition
    ensures { edition_view result ≡ edition_of (map token_view tokens.now) }
{
    match behind_header(tokens) {
        None => Edition::First,
        Some(_) => Edition::Second,
    }
}

/// The tokens behind a header, with the place of the header; none where there is no header.
pub fn behind_header<'a, 't>(tokens: &'a [Token<'t>]) -> Option<(u64, &'a [Token<'t>])>
    ensures { IsBehind result (map token_view tokens.now) }
{
    match tokens {
        [word, number, semicolon, body @ ..] => {
            if is_nq(*word) && is_two(*number) && is_semicolon(*semicolon) {
                Some((word.place, body))
            } else {
                None
            }
        }
        _ => None,
    }
}

/// Whether the token is the word `nq`.
pub fn is_nq(token: Token<'_>) -> bool
    ensures { result ≡ is_nq (token_view token.entry) }
{
    match token.symbol {
        Symbol::Word(word) => word == "nq",
        _ => false,
    }
}

/// Whether the token is the number spelled `2`.
pub fn is_two(token: Token<'_>) -> bool
    ensures { result ≡ is_two (token_view token.entry) }
{
    match token.symbol {
        Symbol::Number(number) => number.value == 2 && number.digits == 1,
        _ => false,
    }
}

fn is_semicolon(token: Token<'_>) -> bool
    ensures { result ≡ is_semicolon (token_view token.entry) }
{
    match token.symbol {
        Symbol::Semicolon => true,
        _ => false,
    }
}
