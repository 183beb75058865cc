// The sources of a SELECT.
ghost use Rattle.std.specs.Prelude.{◌≡◌, ◌++◌, OnOk, map, string_bytes};
ghost use Rattle.sql_profile.specs.Printed.{more_sources, printed_from, printed_source};
ghost use Rattle.sql_profile.specs.Trees.{bare_source};

use crate::literal::put_name;
use nq_model::Memory;
use sql_profile::Source;

// `"table" AS "alias"`.
fn put_source(text: &mut String, source: &Source) -> Result<(), Memory>
    ensures { OnOk result (string_bytes text.new
        ≡ string_bytes text.old ++ printed_source (bare_source source.now)) }
{
    put_name(text, &source.table)?;
    text.push_str(" AS ")?;
    put_name(text, &source.alias)
}

// Each source behind a comma.
fn put_more_sources(text: &mut String, sources: &[Source]) -> Result<(), Memory>
    ensures { OnOk result (string_bytes text.new
        ≡ string_bytes text.old ++ more_sources (map bare_source sources.now)) }
{
    for source in sources {
        text.push_str(", ")?;
        put_source(text, source)?;
    }
    Ok(())
}

// FROM and the sources, if there are any.
pub(crate) fn put_from(text: &mut String, sources: &[Source]) -> Result<(), Memory>
    ensures { OnOk result (string_bytes text.new
        ≡ string_bytes text.old ++ printed_from (map bare_source sources.now)) }
{
    if let Some((first, further)) = sources.split_first() {
        text.push_str(" FROM ")?;
        put_source(text, first)?;
        put_more_sources(text, further)?;
    }
    Ok(())
}
