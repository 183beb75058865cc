// The lines of an explanation that tell more than its place.
ghost use Rattle.std.specs.Prelude.{◌≡◌, ◌++◌, IfOk, OnOk, map, option_copied};
ghost use Rattle.explanations.specs.Explanations.{expected_line, found_line, name_line};
ghost use Rattle.explanations.specs.Explanations.{nearest_line, rule_line, table_line};
ghost use Rattle.explanations.specs.Explanations.{table_names, tables_line};
ghost use Rattle.explanations.specs.Lists.{words_view};
ghost use Rattle.explanations.specs.Words.{kind_words};

use crate::lists::{among, put_listed};
use crate::words::kind_words;
use expected_tokens::TokenKind;
use nq_model::{List, Memory, Schema};
use std::alloc::Global;

/// The words of kinds of tokens.
pub(crate) fn words_of(alloc: Global, kinds: &[TokenKind]) -> Result<List<&'static str>, Memory>
    ensures { IfOk result (λ words. words_view words ≡ map kind_words kinds.now) }
{
    let mut words = List::new(alloc);
    for kind in kinds {
        words.push(kind_words(*kind))?;
    }
    Ok(words)
}

/// The names of the tables of a schema.
pub(crate) fn table_names<'a>(alloc: Global, schema: &'a Schema) -> Result<List<&'a str>, Memory>
    ensures { IfOk result (λ names. words_view names ≡ table_names schema.now) }
{
    let mut names = List::new(alloc);
    for shape in schema.tables.as_slice() {
        names.push(shape.name.as_str())?;
    }
    Ok(names)
}

/// Puts the words of the token at the place.
#[tactic(auto, unfolding(crate::specs::Explanations::found_line))]
pub(crate) fn put_found(text: &mut List<u8>, found: &str) -> Result<(), Memory>
    ensures { OnOk result (text.new ≡ text.old ++ found_line found.now) }
{
    text.extend_from_slice(b"found: ")?;
    text.extend_from_slice(found.as_bytes())?;
    text.extend_from_slice(b"\n")
}

/// Puts the names of the expected kinds of tokens.
#[tactic(auto, unfolding(crate::specs::Explanations::expected_line))]
pub(crate) fn put_expected(text: &mut List<u8>, said: &[&str]) -> Result<(), Memory>
    ensures { OnOk result (text.new ≡ text.old ++ expected_line (words_view said.now)) }
{
    text.extend_from_slice(b"expected: ")?;
    put_listed(text, " or ", said)?;
    text.extend_from_slice(b"\n")
}

/// Puts the tables of the schema.
#[tactic(auto, unfolding(crate::specs::Explanations::tables_line))]
pub(crate) fn put_tables(text: &mut List<u8>, tables: &[&str]) -> Result<(), Memory>
    ensures { OnOk result (text.new ≡ text.old ++ tables_line (words_view tables.now)) }
{
    text.extend_from_slice(b"tables: ")?;
    put_listed(text, " and ", tables)?;
    text.extend_from_slice(b"\n")
}

// Puts what to write for the name of a table.
#[tactic(auto, unfolding(crate::specs::Explanations::table_line))]
fn put_table(text: &mut List<u8>, name: &str) -> Result<(), Memory>
    ensures { OnOk result (text.new ≡ text.old ++ table_line name.now) }
{
    text.extend_from_slice(b"write: table ")?;
    text.extend_from_slice(name.as_bytes())?;
    text.extend_from_slice(b"\n")
}

/// Puts what to write for a name that no variable has, if it is that of a table; else the tables.
pub(crate) fn put_name(text: &mut List<u8>, tables: &[&str], name: &str) -> Result<(), Memory>
    ensures { OnOk result (text.new
        ≡ text.old ++ name_line (words_view tables.now) name.now) }
{
    if among(tables, name) {
        put_table(text, name)
    } else {
        put_tables(text, tables)
    }
}

/// Puts the number of a rule, and a text that keeps it.
#[tactic(auto, unfolding(crate::specs::Explanations::rule_line))]
pub(crate) fn put_rule(
    alloc: Global,
    text: &mut List<u8>,
    number: u64,
    right: &str,
) -> Result<(), Memory>
    ensures { OnOk result (text.new ≡ text.old ++ rule_line number right.now) }
{
    let digits = number.to_string(alloc)?;
    text.extend_from_slice(b"rule: ")?;
    text.extend_from_slice(digits.as_bytes())?;
    text.extend_from_slice(b", kept by: ")?;
    text.extend_from_slice(right.as_bytes())?;
    text.extend_from_slice(b"\n")
}

/// Puts the nearest name, if there is one.
#[tactic(auto, unfolding(crate::specs::Explanations::nearest_line))]
pub(crate) fn put_nearest(text: &mut List<u8>, name: Option<&str>) -> Result<(), Memory>
    ensures { OnOk result (text.new ≡ text.old ++ nearest_line (option_copied name.entry)) }
{
    match name {
        None => Ok(()),
        Some(name) => {
            text.extend_from_slice(b"nearest: ")?;
            text.extend_from_slice(name.as_bytes())?;
            text.extend_from_slice(b"\n")
        }
    }
}
