// Sentences for what a person who knows other languages is likely to have meant.
ghost use Rattle.std.specs.Prelude.{◌≡◌, []};
ghost use Rattle.explanations.specs.Hints.{first_said, hint_view, hints_view, is_any_or};
ghost use Rattle.explanations.specs.Hints.{is_said, name_hints, stop_hints};
ghost use Rattle.explanations.specs.Lists.{words_view};
ghost use Rattle.explanations.specs.Words.{around_view};

use crate::lists::all_among;
use crate::words::Around;

/// A sentence, and where it is said: behind these words, at these words, where all of these are
/// among what is expected. No words stand for any.
#[derive(Clone, Copy)]
pub struct Hint {
    pub(crate) before: &'static str,
    pub(crate) found: &'static str,
    pub(crate) expected: &'static [&'static str],
    pub(crate) sentence: &'static str,
}

// Where a text ceases to be a query.
const STOPS: [Hint; 62] = [
    Hint {
        before: "",
        found: "=",
        expected: &["=="],
        sentence: "To compare two values, write ==.",
    },
    Hint {
        before: "<",
        found: ">",
        expected: &["("],
        sentence: "Unequal is written !=.",
    },
    Hint {
        before: "",
        found: "and",
        expected: &["&&"],
        sentence: "The word and is written &&.",
    },
    Hint {
        before: "",
        found: "AND",
        expected: &["&&"],
        sentence: "The word and is written &&.",
    },
    Hint {
        before: "",
        found: "or",
        expected: &["||"],
        sentence: "The word or is written ||.",
    },
    Hint {
        before: "",
        found: "OR",
        expected: &["||"],
        sentence: "The word or is written ||.",
    },
    Hint {
        before: "",
        found: "like",
        expected: &["=="],
        sentence: "There is no like. Texts are compared whole, by ==, !=, <, <=, > and >=.",
    },
    Hint {
        before: "",
        found: "LIKE",
        expected: &["=="],
        sentence: "There is no like. Texts are compared whole, by ==, !=, <, <=, > and >=.",
    },
    Hint {
        before: "",
        found: "in",
        expected: &["=="],
        sentence: "There is no in. Write x == 1 || x == 2, or !empty(..) of what has it.",
    },
    Hint {
        before: "",
        found: "IN",
        expected: &["=="],
        sentence: "There is no in. Write x == 1 || x == 2, or !empty(..) of what has it.",
    },
    Hint {
        before: "",
        found: "is",
        expected: &["=="],
        sentence: "There is no null, and no test for it.",
    },
    Hint {
        before: "",
        found: "IS",
        expected: &["=="],
        sentence: "There is no null, and no test for it.",
    },
    Hint {
        before: "",
        found: "as",
        expected: &["=="],
        sentence: "A field is named as in (n = c.id), and a row as in for (c <- table t).",
    },
    Hint {
        before: "",
        found: "AS",
        expected: &["=="],
        sentence: "A field is named as in (n = c.id), and a row as in for (c <- table t).",
    },
    Hint {
        before: "",
        found: "join",
        expected: &["=="],
        sentence: "A join is a for in a for, with a where.",
    },
    Hint {
        before: "",
        found: "JOIN",
        expected: &["=="],
        sentence: "A join is a for in a for, with a where.",
    },
    Hint {
        before: "",
        found: "union",
        expected: &["=="],
        sentence: "Two bags are put together by ++.",
    },
    Hint {
        before: "",
        found: "UNION",
        expected: &["=="],
        sentence: "Two bags are put together by ++.",
    },
    Hint {
        before: "",
        found: "group",
        expected: &["=="],
        sentence: "To group rows, put a for in a field, so that each row holds a bag.",
    },
    Hint {
        before: "",
        found: "GROUP",
        expected: &["=="],
        sentence: "To group rows, put a for in a field, so that each row holds a bag.",
    },
    Hint {
        before: "group",
        found: "by",
        expected: &["=="],
        sentence: "To group rows, put a for in a field, so that each row holds a bag.",
    },
    Hint {
        before: "GROUP",
        found: "BY",
        expected: &["=="],
        sentence: "To group rows, put a for in a field, so that each row holds a bag.",
    },
    Hint {
        before: "order",
        found: "by",
        expected: &["=="],
        sentence: "A bag has no order and no limit. Sort and cut the value that you get.",
    },
    Hint {
        before: "ORDER",
        found: "BY",
        expected: &["=="],
        sentence: "A bag has no order and no limit. Sort and cut the value that you get.",
    },
    Hint {
        before: "",
        found: "order",
        expected: &["=="],
        sentence: "A bag has no order and no limit. Sort and cut the value that you get.",
    },
    Hint {
        before: "",
        found: "ORDER",
        expected: &["=="],
        sentence: "A bag has no order and no limit. Sort and cut the value that you get.",
    },
    Hint {
        before: "",
        found: "limit",
        expected: &["=="],
        sentence: "A bag has no order and no limit. Sort and cut the value that you get.",
    },
    Hint {
        before: "",
        found: "LIMIT",
        expected: &["=="],
        sentence: "A bag has no order and no limit. Sort and cut the value that you get.",
    },
    Hint {
        before: "not",
        found: "",
        expected: &["=="],
        sentence: "The word not is written !, as in !(a == b).",
    },
    Hint {
        before: "NOT",
        found: "",
        expected: &["=="],
        sentence: "The word not is written !, as in !(a == b).",
    },
    Hint {
        before: "select",
        found: "",
        expected: &["=="],
        sentence: "There is no select. Write for (r <- table t) where (r.a == 1) [(a = r.a)].",
    },
    Hint {
        before: "SELECT",
        found: "",
        expected: &["=="],
        sentence: "There is no select. Write for (r <- table t) where (r.a == 1) [(a = r.a)].",
    },
    Hint {
        before: "from",
        found: "",
        expected: &["=="],
        sentence: "There is no select. Write for (r <- table t) where (r.a == 1) [(a = r.a)].",
    },
    Hint {
        before: "FROM",
        found: "",
        expected: &["=="],
        sentence: "There is no select. Write for (r <- table t) where (r.a == 1) [(a = r.a)].",
    },
    Hint {
        before: "",
        found: "<",
        expected: &["&&"],
        sentence: "Comparisons do not chain. Write 1 < x && x < 3.",
    },
    Hint {
        before: "",
        found: "<=",
        expected: &["&&"],
        sentence: "Comparisons do not chain. Write 1 < x && x < 3.",
    },
    Hint {
        before: "",
        found: ">",
        expected: &["&&"],
        sentence: "Comparisons do not chain. Write 1 < x && x < 3.",
    },
    Hint {
        before: "",
        found: ">=",
        expected: &["&&"],
        sentence: "Comparisons do not chain. Write 1 < x && x < 3.",
    },
    Hint {
        before: "",
        found: "==",
        expected: &["&&"],
        sentence: "Comparisons do not chain. Write 1 < x && x < 3.",
    },
    Hint {
        before: "",
        found: "a semicolon",
        expected: &["the end of the text"],
        sentence: "A query ends without a semicolon. Only a let has one.",
    },
    Hint {
        before: "",
        found: "a comma",
        expected: &["]"],
        sentence: "A bag of two is [1] ++ [2], and a bag of one record [(a = 1, b = 2)].",
    },
    Hint {
        before: "",
        found: "a comma",
        expected: &["->"],
        sentence: "A function has one parameter. Write fun (x: int) -> fun (y: int) -> x + y.",
    },
    Hint {
        before: "",
        found: "a comma",
        expected: &[")"],
        sentence: "No list stands here. Write (a = 1, b = 2), f(1)(2), or a for in a for.",
    },
    Hint {
        before: "",
        found: "a comma",
        expected: &["the end of the text"],
        sentence: "A query gives one bag, as for (r <- table t) [(a = r.a, b = r.b)] does.",
    },
    Hint {
        before: "(",
        found: "*",
        expected: &["("],
        sentence: "What is counted is a bag, as in count(table t).",
    },
    Hint {
        before: "",
        found: "a colon",
        expected: &["="],
        sentence: "A field is label = value. Only in types is it label: type.",
    },
    Hint {
        before: "[",
        found: "]",
        expected: &["a colon"],
        sentence: "An empty bag names the type of its elements, as in [: int].",
    },
    Hint {
        before: "",
        found: "let",
        expected: &["("],
        sentence: "A let stands at the beginning. Inside, write for (x <- [1 + 2]) [x].",
    },
    Hint {
        before: "let",
        found: "",
        expected: &["="],
        sentence: "A let stands at the beginning. Inside, write for (x <- [1 + 2]) [x].",
    },
    Hint {
        before: "",
        found: "(",
        expected: &["="],
        sentence: "A function is a value. Write let f = fun (x: int) -> x + 1;",
    },
    Hint {
        before: "fun",
        found: "",
        expected: &["("],
        sentence: "A function names the type of its parameter, as in fun (x: int) -> x + 1.",
    },
    Hint {
        before: "where",
        found: "",
        expected: &["("],
        sentence: "The condition stands in parentheses, as in where (c.vip).",
    },
    Hint {
        before: "for",
        found: "",
        expected: &["("],
        sentence: "A for has parentheses, as in for (x <- table t) [x.a].",
    },
    Hint {
        before: "",
        found: "",
        expected: &["<-"],
        sentence: "A for takes its elements by an arrow, as in for (x <- table t).",
    },
    Hint {
        before: "",
        found: "the end of the text",
        expected: &["let"],
        sentence: "The query is not finished.",
    },
    Hint {
        before: "",
        found: "",
        expected: &["let"],
        sentence: "No query goes on like this.",
    },
    Hint {
        before: "",
        found: "",
        expected: &["else"],
        sentence: "An if has an else, since it always has a value.",
    },
    Hint {
        before: "",
        found: "",
        expected: &["a semicolon"],
        sentence: "A let ends with a semicolon, as in let x = 1; [x].",
    },
    Hint {
        before: "",
        found: "the end of the text",
        expected: &[],
        sentence: "The query is not finished.",
    },
    Hint {
        before: "",
        found: "",
        expected: &["int"],
        sentence: "The types are int, bool, text, [T], (a: T, b: U) and T -> U.",
    },
    Hint {
        before: "",
        found: "",
        expected: &["true"],
        sentence: "No query goes on like this.",
    },
    Hint {
        before: "",
        found: "",
        expected: &["a name of your own"],
        sentence: "A name of your own stands here, and no word of the language.",
    },
];

// At a name that nothing has.
const NAMES: [Hint; 8] = [
    Hint {
        before: "",
        found: "count",
        expected: &[],
        sentence: "The word count is of the second edition. Begin the query with nq 2;",
    },
    Hint {
        before: "",
        found: "sum",
        expected: &[],
        sentence: "The word sum is of the second edition. Begin the query with nq 2;",
    },
    Hint {
        before: "",
        found: "exists",
        expected: &[],
        sentence: "There is no exists. Write !empty(..).",
    },
    Hint {
        before: "",
        found: "EXISTS",
        expected: &[],
        sentence: "There is no exists. Write !empty(..).",
    },
    Hint {
        before: "",
        found: "null",
        expected: &[],
        sentence: "There is no null. A bag of none or one stands for what may be absent.",
    },
    Hint {
        before: "",
        found: "NULL",
        expected: &[],
        sentence: "There is no null. A bag of none or one stands for what may be absent.",
    },
    Hint {
        before: "",
        found: "TRUE",
        expected: &[],
        sentence: "The truth values are true and false.",
    },
    Hint {
        before: "",
        found: "FALSE",
        expected: &[],
        sentence: "The truth values are true and false.",
    },
];

fn is_any_or(words: &str, there: &str) -> bool
    ensures { result ≡ is_any_or words.now there.now }
{
    words == "" || words == there
}

fn is_said(before: &str, found: &str, expected: &[&str], hint: Hint) -> bool
    ensures { result ≡ is_said before.now found.now (words_view expected.now) (hint_view hint) }
{
    is_any_or(hint.before, before)
        && is_any_or(hint.found, found)
        && all_among(expected, hint.expected)
}

/// The sentence of the first of the hints that is said, or this one.
pub(crate) fn first_said(
    before: &str,
    found: &str,
    expected: &[&str],
    otherwise: &'static str,
    hints: &[Hint],
) -> &'static str
    ensures { result.now ≡ first_said before.now found.now (words_view expected.now)
        otherwise.now (hints_view hints.now) }
{
    for hint in hints {
        if is_said(before, found, expected, *hint) {
            return hint.sentence;
        }
    }
    otherwise
}

/// The sentence for where a text ceases to be a query, or this one.
pub(crate) fn stop_hint(
    around: Around<'_>,
    expected: &[&str],
    otherwise: &'static str,
) -> &'static str
    ensures { result.now ≡ first_said (around_view around.entry).before
        (around_view around.entry).found (words_view expected.now) otherwise.now stop_hints }
{
    first_said(around.before, around.found, expected, otherwise, &STOPS)
}

/// The sentence for a name that nothing has, or this one.
pub(crate) fn name_hint(name: &str, otherwise: &'static str) -> &'static str
    ensures { result.now ≡ first_said [] name.now [] otherwise.now name_hints }
{
    first_said("", name, &[], otherwise, &NAMES)
}
