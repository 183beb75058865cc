// Sentences for where a text ceases to be SQL that nq takes, for a person who knows more of SQL.
ghost use Rattle.std.specs.Prelude.{◌≡◌};
ghost use Rattle.explanations.specs.Hints.{first_said};
ghost use Rattle.explanations.specs.Lists.{words_view};
ghost use Rattle.explanations.specs.SqlHints.{sql_hints, sql_stop_sentence};
ghost use Rattle.explanations.specs.Words.{around_view};

use crate::hints::{Hint, first_said};
use crate::words::Around;
use diagnostics::{SqlFaultKind, sql_sentence};

// More telling ones come before others.
const HINTS: [Hint; 60] = [
    Hint {
        before: "",
        found: "the end of the text",
        expected: &["WITH", "SELECT"],
        sentence: "The text is empty. It begins with SELECT or WITH.",
    },
    Hint {
        before: "",
        found: "",
        expected: &["WITH"],
        sentence: "An SQL text begins with SELECT or WITH.",
    },
    Hint {
        before: "a semicolon",
        found: "",
        expected: &[],
        sentence: "There is one SQL text, and it ends behind the semicolon.",
    },
    Hint {
        before: "",
        found: "WITH",
        expected: &[],
        sentence: "WITH stands only at the beginning, once. Its queries are joined by commas.",
    },
    Hint {
        before: "=",
        found: "=",
        expected: &[],
        sentence: "To compare two values, write =.",
    },
    Hint {
        before: "<",
        found: ">",
        expected: &[],
        sentence: "Unequal is written <>, with no space in it.",
    },
    Hint {
        before: "=",
        found: "<",
        expected: &[],
        sentence: "At most is written <=.",
    },
    Hint {
        before: "=",
        found: ">",
        expected: &[],
        sentence: "At least is written >=.",
    },
    Hint {
        before: "",
        found: "=",
        expected: &["AND", "+"],
        sentence: "Comparisons do not chain. Write two of them, with AND between.",
    },
    Hint {
        before: "",
        found: "<>",
        expected: &["AND", "+"],
        sentence: "Comparisons do not chain. Write two of them, with AND between.",
    },
    Hint {
        before: "",
        found: "<",
        expected: &["AND", "+"],
        sentence: "Comparisons do not chain. Write two of them, with AND between.",
    },
    Hint {
        before: "",
        found: "<=",
        expected: &["AND", "+"],
        sentence: "Comparisons do not chain. Write two of them, with AND between.",
    },
    Hint {
        before: "",
        found: ">",
        expected: &["AND", "+"],
        sentence: "Comparisons do not chain. Write two of them, with AND between.",
    },
    Hint {
        before: "",
        found: ">=",
        expected: &["AND", "+"],
        sentence: "Comparisons do not chain. Write two of them, with AND between.",
    },
    Hint {
        before: "<",
        found: "=",
        expected: &[],
        sentence: "At most is written <=, with no space in it.",
    },
    Hint {
        before: ">",
        found: "=",
        expected: &[],
        sentence: "At least is written >=, with no space in it.",
    },
    Hint {
        before: "",
        found: "+",
        expected: &["CASE"],
        sentence: "A plus stands only between two numbers.",
    },
    Hint {
        before: "a number",
        found: "a dot",
        expected: &[],
        sentence: "Numbers are whole. None has a point.",
    },
    Hint {
        before: "",
        found: "*",
        expected: &["ROW_NUMBER"],
        sentence: "Name the columns, as in SELECT \"d\".\"name\" AS \"n\". There is no SELECT *.",
    },
    Hint {
        before: "a dot",
        found: "*",
        expected: &[],
        sentence: "Name the columns, as in SELECT \"d\".\"name\" AS \"n\". There is no SELECT *.",
    },
    Hint {
        before: "",
        found: "SUM",
        expected: &["COALESCE"],
        sentence: "A sum is written COALESCE(SUM(..), 0), so that a sum of nothing is 0.",
    },
    Hint {
        before: "",
        found: "",
        expected: &["COALESCE"],
        sentence: "A SELECT that is a value gives COUNT(*) or COALESCE(SUM(..), 0).",
    },
    Hint {
        before: "",
        found: "COUNT",
        expected: &[],
        sentence: "A count is written (SELECT COUNT(*) FROM \"tasks\" AS \"t\"), in parentheses.",
    },
    Hint {
        before: "",
        found: "SUM",
        expected: &[],
        sentence: "A sum is written (SELECT COALESCE(SUM(\"t\".\"n\"), 0) FROM \"t\" AS \"t\").",
    },
    Hint {
        before: "",
        found: "COALESCE",
        expected: &[],
        sentence: "A sum is written (SELECT COALESCE(SUM(\"t\".\"n\"), 0) FROM \"t\" AS \"t\").",
    },
    Hint {
        before: "(",
        found: "",
        expected: &["SUM"],
        sentence: "COALESCE stands only around a SUM, as in COALESCE(SUM(\"t\".\"n\"), 0).",
    },
    Hint {
        before: "(",
        found: "",
        expected: &["*"],
        sentence: "Only rows are counted, by COUNT(*).",
    },
    Hint {
        before: "a comma",
        found: "a number",
        expected: &["0"],
        sentence: "A sum of nothing is 0, as in COALESCE(SUM(\"t\".\"n\"), 0).",
    },
    Hint {
        before: "a comma",
        found: "a text in single quotes",
        expected: &["0"],
        sentence: "A sum of nothing is 0, as in COALESCE(SUM(\"t\".\"n\"), 0).",
    },
    Hint {
        before: "a comma",
        found: "a name in double quotes",
        expected: &["0"],
        sentence: "A sum of nothing is 0, as in COALESCE(SUM(\"t\".\"n\"), 0).",
    },
    Hint {
        before: "a comma",
        found: "-",
        expected: &["0"],
        sentence: "A sum of nothing is 0, as in COALESCE(SUM(\"t\".\"n\"), 0).",
    },
    Hint {
        before: ")",
        found: "AS",
        expected: &["FROM"],
        sentence: "The one column of a SELECT that is a value has no name.",
    },
    Hint {
        before: "",
        found: "EXISTS",
        expected: &[],
        sentence: "EXISTS stands behind NOT alone. Write NOT (NOT EXISTS (SELECT ..)).",
    },
    Hint {
        before: "EXISTS",
        found: "",
        expected: &["("],
        sentence: "The query of NOT EXISTS stands in parentheses.",
    },
    Hint {
        before: "",
        found: "NOT",
        expected: &["CASE"],
        sentence: "Here a NOT stands in parentheses, as in (NOT TRUE).",
    },
    Hint {
        before: "",
        found: "SELECT",
        expected: &["CASE"],
        sentence: "A SELECT that is a value stands in parentheses: (SELECT COUNT(*) FROM ..).",
    },
    Hint {
        before: "(",
        found: "(",
        expected: &["SELECT"],
        sentence: "No parentheses stand around the SELECTs of a query.",
    },
    Hint {
        before: "ALL",
        found: "",
        expected: &["SELECT"],
        sentence: "Behind UNION ALL stands a SELECT, without parentheses.",
    },
    Hint {
        before: "",
        found: "",
        expected: &["ALL"],
        sentence: "UNION is always UNION ALL, which keeps equal rows.",
    },
    Hint {
        before: "SELECT",
        found: "ALL",
        expected: &[],
        sentence: "A SELECT keeps all rows. It is written without ALL.",
    },
    Hint {
        before: "",
        found: "",
        expected: &["WHEN"],
        sentence: "CASE is written CASE WHEN .. THEN .. ELSE .. END.",
    },
    Hint {
        before: "",
        found: "WHEN",
        expected: &["ELSE"],
        sentence: "CASE has one WHEN. Write another CASE behind ELSE.",
    },
    Hint {
        before: "",
        found: "END",
        expected: &["ELSE"],
        sentence: "CASE has an ELSE, since it always has a value.",
    },
    Hint {
        before: "",
        found: "ROW_NUMBER",
        expected: &[],
        sentence: "A row number is an item of its own: SELECT ROW_NUMBER() OVER () AS \"n\".",
    },
    Hint {
        before: "",
        found: "ORDER",
        expected: &[],
        sentence: "Rows have no order. ORDER BY stands only in ROW_NUMBER() OVER (ORDER BY ..).",
    },
    Hint {
        before: "",
        found: "a text in single quotes",
        expected: &["a name in double quotes"],
        sentence: "Names stand in double quotes, and texts in single ones.",
    },
    Hint {
        before: "",
        found: "",
        expected: &["a dot"],
        sentence: "A column is written \"d\".\"name\", and a text 'Oslo' in single quotes.",
    },
    Hint {
        before: "AS",
        found: "",
        expected: &["("],
        sentence: "A WITH query stands in parentheses, as in WITH \"q\" AS (SELECT 1 AS \"n\").",
    },
    Hint {
        before: "",
        found: "a name in double quotes",
        expected: &["AS"],
        sentence: "A name is given by AS, as in 1 AS \"n\" or FROM \"departments\" AS \"d\".",
    },
    Hint {
        before: "",
        found: "",
        expected: &["AS", "AND"],
        sentence: "Each item has a name, as in 1 AS \"n\".",
    },
    Hint {
        before: ")",
        found: "",
        expected: &["AS"],
        sentence: "A row number has a name, as in ROW_NUMBER() OVER () AS \"n\".",
    },
    Hint {
        before: "",
        found: "",
        expected: &["AS"],
        sentence: "An AS is missing, as in FROM \"departments\" AS \"d\" or WITH \"q\" AS (..).",
    },
    Hint {
        before: "FROM",
        found: "(",
        expected: &[],
        sentence: "A source is a table or a WITH query, and no SELECT in parentheses.",
    },
    Hint {
        before: "a comma",
        found: "(",
        expected: &["a name in double quotes"],
        sentence: "A source is a table or a WITH query, and no SELECT in parentheses.",
    },
    Hint {
        before: "SELECT",
        found: "FROM",
        expected: &[],
        sentence: "Behind SELECT stands an item, as in SELECT 1 AS \"n\".",
    },
    Hint {
        before: "a comma",
        found: "FROM",
        expected: &["ROW_NUMBER"],
        sentence: "Behind a comma stands one more item, as in 1 AS \"n\".",
    },
    Hint {
        before: "",
        found: "the end of the text",
        expected: &[],
        sentence: "The text is not finished.",
    },
    Hint {
        before: "",
        found: "FROM",
        expected: &[],
        sentence: "FROM stands behind the items and before WHERE, once in a SELECT.",
    },
    Hint {
        before: "",
        found: "WHERE",
        expected: &[],
        sentence: "WHERE stands behind FROM, once in a SELECT. Conditions are joined by AND.",
    },
    Hint {
        before: "AS",
        found: "",
        expected: &["a name in double quotes"],
        sentence: "Behind AS stands a name in double quotes, as in 1 AS \"n\".",
    },
];

// The sentence for where a text ceases to be SQL that nq takes, or this one.
fn sql_hint(around: Around<'_>, expected: &[&str], otherwise: &'static str) -> &'static str
    ensures { result.now ≡ first_said (around_view around.entry).before
        (around_view around.entry).found (words_view expected.now) otherwise.now sql_hints }
{
    first_said(around.before, around.found, expected, otherwise, &HINTS)
}

/// Of where a text ceases to be SQL that nq takes, and these kinds of tokens are expected.
#[tactic(auto, unfolding(crate::specs::SqlHints::sql_stop_sentence))]
pub(crate) fn sql_stop_sentence(
    kind: SqlFaultKind,
    around: Around<'_>,
    expected: &[&str],
) -> &'static str
    ensures { result.now ≡ sql_stop_sentence kind (around_view around.entry)
        (words_view expected.now) }
{
    match kind {
        SqlFaultKind::Deep => sql_sentence(kind),
        _ => sql_hint(around, expected, sql_sentence(kind)),
    }
}
