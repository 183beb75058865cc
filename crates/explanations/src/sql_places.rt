// Of a place at which no token of SQL begins, by the word or the byte there.
ghost use Rattle.std.specs.Prelude.{◌≡◌};
ghost use Rattle.std.specs.Str.{str_eq_ignore_ascii_case};
ghost use Rattle.explanations.specs.Groups.{groups_view};
ghost use Rattle.explanations.specs.Lists.{words_view};
ghost use Rattle.explanations.specs.SqlPlaces.{front_sentence, is_spelled, place_sentence};
ghost use Rattle.explanations.specs.SqlPlaces.{sentence_of, sql_byte_sentence, word_at};
ghost use Rattle.explanations.specs.SqlPlaces.{word_sentence};

use diagnostics::{SqlFaultKind, sql_sentence};
use lexical::{begins_word, word_len};

// Sentences, each with the words at which it is said.
const WORDS: [(&str, &[&str]); 17] = [
    (
        "There is no JOIN. List the sources behind FROM, and compare their columns in WHERE.",
        &[
            "JOIN", "INNER", "LEFT", "RIGHT", "FULL", "OUTER", "CROSS", "NATURAL", "LATERAL",
        ],
    ),
    (
        "There is no ON. Compare the columns of the sources in WHERE.",
        &["ON", "USING"],
    ),
    (
        "There is no GROUP BY. Take (SELECT COUNT(*) FROM .. WHERE ..) for each row.",
        &["GROUP", "HAVING"],
    ),
    (
        "There is no LIMIT. All rows are given.",
        &["LIMIT", "OFFSET", "FETCH"],
    ),
    (
        "There is no DISTINCT. Equal rows are all kept.",
        &["DISTINCT", "UNIQUE"],
    ),
    (
        "There is no IN. Compare by = and OR, or write NOT (NOT EXISTS (SELECT ..)).",
        &["IN", "ANY", "SOME"],
    ),
    (
        "There is no LIKE. Texts are compared whole, by =, <>, <, <=, > and >=.",
        &["LIKE", "ILIKE", "SIMILAR"],
    ),
    (
        "There is no BETWEEN. Write two comparisons, with AND between.",
        &["BETWEEN"],
    ),
    (
        "There is no NULL, and no test for it.",
        &["IS", "NULL", "ISNULL", "NULLIF", "IFNULL", "NVL"],
    ),
    (
        "Only row numbers have an order, and it ascends: OVER (ORDER BY \"d\".\"name\").",
        &["ASC", "DESC", "NULLS"],
    ),
    (
        "There is no PARTITION BY. Rows are numbered by ROW_NUMBER() OVER (ORDER BY ..).",
        &["PARTITION"],
    ),
    (
        "Rows are numbered by ROW_NUMBER() OVER (ORDER BY ..), and by nothing else.",
        &["DENSE_RANK", "NTILE", "LAG", "LEAD", "WINDOW"],
    ),
    (
        "There is no AVG, MIN or MAX. There are COUNT(*) and COALESCE(SUM(..), 0).",
        &["AVG", "MIN", "MAX"],
    ),
    (
        "There is no recursion. A WITH query asks tables and earlier WITH queries.",
        &["RECURSIVE"],
    ),
    (
        "SELECTs are put together by UNION ALL alone. Ask by NOT EXISTS for a difference.",
        &["EXCEPT", "INTERSECT", "MINUS"],
    ),
    (
        "There is no such function. There are COUNT, SUM, COALESCE and ROW_NUMBER.",
        &[
            "ABS",
            "CAST",
            "CONCAT",
            "CONVERT",
            "LOWER",
            "MOD",
            "ROUND",
            "SUBSTR",
            "SUBSTRING",
            "TRIM",
            "UPPER",
        ],
    ),
    (
        "An SQL text of nq only asks: it begins with SELECT or WITH.",
        &[
            "INSERT", "UPDATE", "DELETE", "CREATE", "DROP", "ALTER", "TRUNCATE", "MERGE",
        ],
    ),
];

// Whether the bytes spell the word, in any case.
#[tactic(auto, using(crate::proofs::SqlPlaces::same_word))]
fn is_word(known: &[u8], word: &[u8]) -> bool
    ensures { result ≡ str_eq_ignore_ascii_case known.now word.now }
{
    known.eq_ignore_ascii_case(word)
}

// Whether the bytes spell one of the words, in any case.
fn is_spelled(words: &[&str], word: &[u8]) -> bool
    ensures { result ≡ is_spelled (words_view words.now) word.now }
{
    for known in words {
        if is_word(known.as_bytes(), word) {
            return true;
        }
    }
    false
}

// The sentence of the first row that has the word.
fn sentence_of(rows: &[(&'static str, &[&str])], word: &[u8]) -> &'static str
    ensures { result.now ≡ sentence_of (groups_view rows.now) word.now }
{
    for row in rows {
        if is_spelled(row.1, word) {
            return row.0;
        }
    }
    "A name stands in double quotes, as in \"d\".\"name\"."
}

// Of a word that is no keyword.
#[tactic(auto, unfolding(crate::specs::SqlPlaces::word_sentence))]
fn word_sentence(word: &[u8]) -> &'static str
    ensures { result.now ≡ word_sentence word.now }
{
    sentence_of(&WORDS, word)
}

// Of a byte with which no word begins.
fn byte_sentence(byte: u8) -> &'static str
    ensures { result.now ≡ sql_byte_sentence byte }
{
    match byte {
        b'!' => "Unequal is written <>.",
        b'"' => "A name in double quotes has 1 to 128 bytes, and ends at the next double quote.",
        b'#' => "A comment begins with --.",
        b'$' => "There are no parameters. Write the value itself.",
        b'%' => "There is no division, and no remainder.",
        b'&' => "The word and is written AND.",
        b'\'' => "This text does not end. It ends at a single quote, and two stand for one in it.",
        b'/' => "There is no division, and a comment begins with --.",
        b':' => "There are no parameters. Write the value itself.",
        b'?' => "There are no parameters. Write the value itself.",
        b'@' => "There are no parameters. Write the value itself.",
        b'[' => "Names stand in double quotes, as in \"d\".\"name\".",
        b'`' => "Names stand in double quotes, as in \"d\".\"name\".",
        b'|' => "Texts are not joined, and the word or is written OR.",
        _ => sql_sentence(SqlFaultKind::Token),
    }
}

// The letters, digits and `_` at the front of these bytes.
fn word_at(bytes: &[u8]) -> &[u8]
    ensures { result.now ≡ word_at bytes.now }
{
    &bytes[..word_len(bytes)]
}

// Of what stands at the front of these bytes.
fn front_sentence(bytes: &[u8]) -> &'static str
    ensures { result.now ≡ front_sentence bytes.now }
{
    match bytes {
        [] => sql_sentence(SqlFaultKind::Token),
        [first, ..] => {
            if begins_word(*first) {
                word_sentence(word_at(bytes))
            } else {
                byte_sentence(*first)
            }
        }
    }
}

/// Of a place at which no token begins.
#[tactic(auto, unfolding(crate::specs::SqlPlaces::place_sentence))]
pub(crate) fn place_sentence(text: &[u8], place: u64) -> &'static str
    ensures { result.now ≡ place_sentence text.now place }
{
    let before = place as usize;
    if before <= text.len() {
        front_sentence(&text[before..])
    } else {
        front_sentence(&[])
    }
}
