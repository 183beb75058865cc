// Whole texts.
ghost use Rattle.std.specs.Prelude.{◌≡◌, ◌++◌, IfOk, OnOk, length, map, string_bytes};
ghost use Rattle.sql_profile.specs.Printed.{more_withs, printed, printed_with, printed_withs};
ghost use Rattle.sql_profile.specs.Spellable.{IsSpellable};
ghost use Rattle.sql_profile.specs.Texts.{Spells};
ghost use Rattle.sql_profile.specs.Tokens.{First};
ghost use Rattle.sql_profile.specs.Trees.{PlacedSql, bare, sql_tree, with_tree};

use crate::literal::put_name;
use crate::query::put_query;
use nq_model::{List, Memory};
use sql_profile::{SqlText, With};
use std::alloc::Global;

// `"name" AS (query)`.
fn put_with(text: &mut String, with: &With) -> Result<(), Memory>
    ensures { OnOk result (string_bytes text.new
        ≡ string_bytes text.old ++ printed_with (with_tree with.now)) }
{
    put_name(text, &with.name)?;
    text.push_str(" AS (")?;
    put_query(text, &with.query)?;
    text.push_str(")")?;
    Ok(())
}

// Each WITH query behind a comma, and the space before the main query.
fn put_more_withs(text: &mut String, withs: &[With]) -> Result<(), Memory>
    ensures { OnOk result (string_bytes text.new
        ≡ string_bytes text.old ++ more_withs (map with_tree withs.now)) }
{
    for with in withs {
        text.push_str(", ")?;
        put_with(text, with)?;
    }
    text.push_str(" ")?;
    Ok(())
}

// WITH and the queries, if there are any.
fn put_withs(text: &mut String, withs: &[With]) -> Result<(), Memory>
    ensures { OnOk result (string_bytes text.new
        ≡ string_bytes text.old ++ printed_withs (map with_tree withs.now)) }
{
    if let Some((first, further)) = withs.split_first() {
        text.push_str("WITH ")?;
        put_with(text, first)?;
        put_more_withs(text, further)?;
    }
    Ok(())
}

/// The text of a tree: keywords in capitals and one space between words, names in double quotes,
/// each operation in parentheses, no final `;`. Where texts can spell the tree, this one spells it,
/// at a depth of its own bytes. Fails only if memory runs out.
pub fn print(alloc: Global, text: &SqlText) -> Result<List<u8>, Memory>
    ensures is { IfOk result (λ bytes. bytes ≡ printed (sql_tree text.now)) }
    ensures spells { IfOk result (λ bytes. IsSpellable (sql_tree text.now)
        → (tree : PlacedSql) × Spells First (length bytes) bytes tree
        × (bare tree ≡ sql_tree text.now)) }
{
    let mut written = String::new(alloc);
    put_withs(&mut written, text.withs.as_slice())?;
    put_query(&mut written, &text.main)?;
    Ok(List::from_vec(written.into_bytes()))
}
