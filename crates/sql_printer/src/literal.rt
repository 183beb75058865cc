// Names, literals, and what stands between the parts of lists.
ghost use Rattle.std.specs.Prelude.{◌≡◌, ◌++◌, OnOk, string_bytes};
ghost use Rattle.nq_model.specs.Canonical.{cell_text};
ghost use Rattle.nq_model.specs.declared.table.Cell.TheVariants as cell;
ghost use Rattle.sql_profile.specs.Printed.{quoted, truth};
ghost use Rattle.sql_printer.specs.Leads.{lead};

use nq_model::{Label, Memory};

// The name in double quotes.
pub(crate) fn put_name(text: &mut String, name: &Label) -> Result<(), Memory>
    ensures { OnOk result (string_bytes text.new ≡ string_bytes text.old ++ quoted name.now) }
{
    text.push_str("\"")?;
    text.push_str(name.as_str())?;
    text.push_str("\"")?;
    Ok(())
}

pub(crate) fn put_truth(text: &mut String, holds: bool) -> Result<(), Memory>
    ensures { OnOk result (string_bytes text.new ≡ string_bytes text.old ++ truth holds) }
{
    if holds {
        text.push_str("TRUE")?;
    } else {
        text.push_str("FALSE")?;
    }
    Ok(())
}

// The text in single quotes, each single quote in it doubled.
pub(crate) fn put_literal(text: &mut String, literal: &str) -> Result<(), Memory>
    ensures { OnOk result (string_bytes text.new
        ≡ string_bytes text.old ++ cell_text (cell.Text literal.now)) }
{
    text.push_str("'")?;
    let mut rest = literal;
    while let Some((before, after)) = rest.split_once('\'') {
        text.push_str(before)?;
        text.push_str("''")?;
        rest = after;
    }
    text.push_str(rest)?;
    text.push_str("'")?;
    Ok(())
}

// What stands before the part of a list at a place: before the first, and before each further one.
pub(crate) fn put_lead(
    text: &mut String,
    place: usize,
    first: &str,
    further: &str,
) -> Result<(), Memory>
    ensures { OnOk result (string_bytes text.new
        ≡ string_bytes text.old ++ lead place first.now further.now) }
{
    if place == 0 {
        text.push_str(first)?;
    } else {
        text.push_str(further)?;
    }
    Ok(())
}
