// Groups of kinds of tokens that have one name.
ghost use Rattle.std.specs.Prelude.{◌≡◌, List, [], ◌∷◌, IfOk, OnOk};
ghost use Rattle.explanations.specs.Groups.{Row, found_and, group_view, groups, groups_view};
ghost use Rattle.explanations.specs.Groups.{is_named, names, names_from};
ghost use Rattle.explanations.specs.Lists.{words_view};

use crate::lists::all_among;
use nq_model::{List, Memory};
use std::alloc::Global;

// The names of groups, each with the words of its kinds. Larger groups come before those within
// them; the kinds by themselves come last.
const GROUPS: [(&str, &[&str]); 52] = [
    (
        "an expression",
        &[
            "count",
            "sum",
            "for",
            "where",
            "if",
            "fun",
            "table",
            "empty",
            "true",
            "false",
            "a name of your own",
            "a number",
            "a text in quotes",
            "-",
            "(",
            "[",
            "!",
        ],
    ),
    (
        "an expression",
        &[
            "for",
            "where",
            "if",
            "fun",
            "table",
            "empty",
            "true",
            "false",
            "a name of your own",
            "a number",
            "a text in quotes",
            "-",
            "(",
            "[",
            "!",
        ],
    ),
    (
        "an operand",
        &[
            "count",
            "sum",
            "table",
            "empty",
            "true",
            "false",
            "a name of your own",
            "a number",
            "a text in quotes",
            "-",
            "(",
            "[",
            "!",
        ],
    ),
    (
        "an operand",
        &[
            "table",
            "empty",
            "true",
            "false",
            "a name of your own",
            "a number",
            "a text in quotes",
            "-",
            "(",
            "[",
            "!",
        ],
    ),
    (
        "any word",
        &[
            "count",
            "sum",
            "for",
            "where",
            "if",
            "then",
            "else",
            "fun",
            "let",
            "table",
            "empty",
            "true",
            "false",
            "int",
            "bool",
            "text",
            "a name of your own",
        ],
    ),
    (
        "any word",
        &[
            "for",
            "where",
            "if",
            "then",
            "else",
            "fun",
            "let",
            "table",
            "empty",
            "true",
            "false",
            "int",
            "bool",
            "text",
            "a name of your own",
        ],
    ),
    ("a type", &["int", "bool", "text", "(", "["]),
    (
        "an operator",
        &[
            "++", "||", "&&", "==", "!=", "<", "<=", ">", ">=", "+", "-", "*",
        ],
    ),
    ("for", &["for"]),
    ("where", &["where"]),
    ("if", &["if"]),
    ("then", &["then"]),
    ("else", &["else"]),
    ("fun", &["fun"]),
    ("let", &["let"]),
    ("table", &["table"]),
    ("empty", &["empty"]),
    ("count", &["count"]),
    ("sum", &["sum"]),
    ("true", &["true"]),
    ("false", &["false"]),
    ("int", &["int"]),
    ("bool", &["bool"]),
    ("text", &["text"]),
    ("a name of your own", &["a name of your own"]),
    ("a number", &["a number"]),
    ("a text in quotes", &["a text in quotes"]),
    ("++", &["++"]),
    ("||", &["||"]),
    ("&&", &["&&"]),
    ("==", &["=="]),
    ("!=", &["!="]),
    ("<", &["<"]),
    ("<=", &["<="]),
    (">", &[">"]),
    (">=", &[">="]),
    ("+", &["+"]),
    ("-", &["-"]),
    ("*", &["*"]),
    ("=", &["="]),
    ("<-", &["<-"]),
    ("->", &["->"]),
    ("!", &["!"]),
    ("(", &["("]),
    (")", &[")"]),
    ("[", &["["]),
    ("]", &["]"]),
    ("a comma", &["a comma"]),
    ("a colon", &["a colon"]),
    ("a semicolon", &["a semicolon"]),
    ("a dot", &["a dot"]),
    ("the end of the text", &["the end of the text"]),
];

// Whether a group is named: all of its kinds are expected, and no group before has them all.
fn is_named(
    expected: &[&str],
    taken: &[&str],
    group: (&'static str, &'static [&'static str]),
) -> bool
    ensures { result ≡ is_named (words_view expected.now) (words_view taken.now)
        (group_view group.entry) }
{
    all_among(expected, group.1) && !all_among(taken, group.1)
}

// Puts the name of a group and takes its kinds, if it is named.
fn put_group(
    expected: &[&str],
    found: &mut List<&'static str>,
    taken: &mut List<&'static str>,
    group: (&'static str, &'static [&'static str]),
) -> Result<(), Memory>
    ensures { (more : List Row) → OnOk result
        (found_and (words_view expected.now) found.new taken.new more
        ≡ found_and (words_view expected.now) found.old taken.old (group.entry ∷ more)) }
{
    if !is_named(expected, taken.as_slice(), group) {
        return Ok(());
    }
    found.push(group.0)?;
    taken.extend_from_slice(group.1)
}

/// The names of those of the groups that are named.
pub(crate) fn names_of(
    alloc: Global,
    expected: &[&str],
    groups: &[(&'static str, &'static [&'static str])],
) -> Result<List<&'static str>, Memory>
    ensures { IfOk result (λ found. words_view found
        ≡ names_from (words_view expected.now) [] (groups_view groups.now)) }
{
    let mut found = List::new(alloc);
    let mut taken = List::new(alloc);
    for group in groups {
        put_group(expected, &mut found, &mut taken, *group)?;
    }
    Ok(found)
}

/// How the expected kinds are named.
#[tactic(auto, unfolding(crate::specs::Groups::names))]
pub(crate) fn names(alloc: Global, expected: &[&str]) -> Result<List<&'static str>, Memory>
    ensures { IfOk result (λ found. words_view found
        ≡ names groups (words_view expected.now)) }
{
    names_of(alloc, expected, &GROUPS)
}
