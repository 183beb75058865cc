// Groups of kinds of tokens of SQL texts that have one name.
ghost use Rattle.std.specs.Prelude.{◌≡◌, IfOk};
ghost use Rattle.explanations.specs.Groups.{names};
ghost use Rattle.explanations.specs.Lists.{words_view};
ghost use Rattle.explanations.specs.SqlGroups.{sql_groups};

use crate::groups::names_of;
use nq_model::{List, Memory};
use std::alloc::Global;

// The names of groups, each with the words of its kinds. Larger groups come before those within
// them; the kinds by themselves come last.
const GROUPS: [(&str, &[&str]); 48] = [
    (
        "an expression",
        &[
            "NOT",
            "CASE",
            "TRUE",
            "FALSE",
            "0",
            "a number",
            "a text in single quotes",
            "a name in double quotes",
            "-",
            "(",
        ],
    ),
    (
        "an operand",
        &[
            "CASE",
            "TRUE",
            "FALSE",
            "0",
            "a number",
            "a text in single quotes",
            "a name in double quotes",
            "-",
            "(",
        ],
    ),
    (
        "an operator",
        &["AND", "OR", "=", "<>", "<", "<=", ">", ">=", "+", "-", "*"],
    ),
    ("a number", &["0", "a number"]),
    ("WITH", &["WITH"]),
    ("AS", &["AS"]),
    ("UNION", &["UNION"]),
    ("ALL", &["ALL"]),
    ("SELECT", &["SELECT"]),
    ("FROM", &["FROM"]),
    ("WHERE", &["WHERE"]),
    ("ROW_NUMBER", &["ROW_NUMBER"]),
    ("OVER", &["OVER"]),
    ("ORDER", &["ORDER"]),
    ("BY", &["BY"]),
    ("NOT", &["NOT"]),
    ("EXISTS", &["EXISTS"]),
    ("CASE", &["CASE"]),
    ("WHEN", &["WHEN"]),
    ("THEN", &["THEN"]),
    ("ELSE", &["ELSE"]),
    ("END", &["END"]),
    ("COUNT", &["COUNT"]),
    ("SUM", &["SUM"]),
    ("COALESCE", &["COALESCE"]),
    ("TRUE", &["TRUE"]),
    ("FALSE", &["FALSE"]),
    ("0", &["0"]),
    ("a number", &["a number"]),
    ("a text in single quotes", &["a text in single quotes"]),
    ("a name in double quotes", &["a name in double quotes"]),
    ("AND", &["AND"]),
    ("OR", &["OR"]),
    ("=", &["="]),
    ("<>", &["<>"]),
    ("<", &["<"]),
    ("<=", &["<="]),
    (">", &[">"]),
    (">=", &[">="]),
    ("+", &["+"]),
    ("-", &["-"]),
    ("*", &["*"]),
    ("(", &["("]),
    (")", &[")"]),
    ("a comma", &["a comma"]),
    ("a dot", &["a dot"]),
    ("a semicolon", &["a semicolon"]),
    ("the end of the text", &["the end of the text"]),
];

/// How the expected kinds are named.
#[tactic(auto, unfolding(crate::specs::Groups::names))]
pub(crate) fn sql_names(alloc: Global, expected: &[&str]) -> Result<List<&'static str>, Memory>
    ensures { IfOk result (λ found. words_view found
        ≡ names sql_groups (words_view expected.now)) }
{
    names_of(alloc, expected, &GROUPS)
}
