// The sentence that is said of each fault.
ghost use Rattle.std.specs.Prelude.{◌≡◌, option_copied};
ghost use Rattle.explanations.specs.Lists.{words_view};
ghost use Rattle.explanations.specs.Sentences.{byte_sentence, name_sentence, stop_sentence};
ghost use Rattle.explanations.specs.Sentences.{token_sentence};
ghost use Rattle.explanations.specs.Words.{around_view};

use crate::hints::{name_hint, stop_hint};
use crate::lists::among;
use crate::words::Around;
use diagnostics::{QueryFaultKind, query_sentence};

// Of a byte at which no token begins.
fn byte_sentence(byte: u8) -> &'static str
    ensures { result.now ≡ byte_sentence byte }
{
    match byte {
        b'"' => "Texts stand in single quotes, as in 'Oslo'. Names stand in none.",
        b'&' => "The word and is written &&.",
        b'\'' => "This text does not end. It ends at a single quote, and two stand for one in it.",
        b'/' => "There is no division, and a comment begins with #.",
        b'\\' => "A function is written fun (x: int) -> x + 1.",
        b'`' => "Names stand in no quotes, and texts in single ones.",
        b'{' => "There are no braces. A bag is [1] ++ [2], and a record (a = 1, b = 2).",
        b'|' => "The word or is written ||.",
        b'}' => "There are no braces. A bag is [1] ++ [2], and a record (a = 1, b = 2).",
        _ => query_sentence(QueryFaultKind::Token),
    }
}

/// Of a place at which no token begins, by its byte.
pub(crate) fn token_sentence(byte: Option<&u8>) -> &'static str
    ensures { result.now ≡ token_sentence (option_copied byte.entry) }
{
    match byte {
        Some(byte) => byte_sentence(*byte),
        None => query_sentence(QueryFaultKind::Token),
    }
}

/// Of where a text ceases to be a query, and these kinds of tokens are expected.
#[tactic(auto, unfolding(crate::specs::Sentences::stop_sentence))]
pub(crate) fn stop_sentence(
    kind: QueryFaultKind,
    around: Around<'_>,
    expected: &[&str],
) -> &'static str
    ensures { result.now
        ≡ stop_sentence kind (around_view around.entry) (words_view expected.now) }
{
    match kind {
        QueryFaultKind::Deep => query_sentence(kind),
        _ => stop_hint(around, expected, query_sentence(kind)),
    }
}

/// Of a name that no variable has.
#[tactic(auto, unfolding(crate::specs::Sentences::name_sentence))]
pub(crate) fn name_sentence(tables: &[&str], name: &str) -> &'static str
    ensures { result.now ≡ name_sentence (words_view tables.now) name.now }
{
    if among(tables, name) {
        "This is a table. Write table before its name."
    } else {
        name_hint(name, query_sentence(QueryFaultKind::Unbound))
    }
}
