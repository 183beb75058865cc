// The sources of generators.
ghost use Rattle.std.specs.Prelude.{◌≡◌, ◌++◌, IfOk, OnOk, map};
ghost use Rattle.sql_profile.specs.Trees.{bare_source};
ghost use Rattle.flatten.specs.Exprs.{source_of};

use crate::names::alias;
use nq_ir::Gen;
use nq_model::{List, Memory};
use sql_profile::Source;
use std::alloc::Global;

/// A source for each generator, under its alias. Fails only if memory runs out.
pub fn sources(alloc: Global, gens: &[Gen]) -> Result<List<Source>, Memory>
    ensures { IfOk result (λ made. map bare_source made ≡ map source_of gens.now) }
{
    let mut sources = List::with_capacity(alloc, gens.len())?;
    push_sources(alloc, &mut sources, gens)?;
    Ok(sources)
}

/// Puts a source for each generator at the end.
pub(crate) fn push_sources(
    alloc: Global,
    sources: &mut List<Source>,
    gens: &[Gen],
) -> Result<(), Memory>
    ensures { OnOk result (map bare_source sources.new
        ≡ map bare_source sources.old ++ map source_of gens.now) }
{
    for generator in gens {
        sources.push(source(alloc, generator)?)?;
    }
    Ok(())
}

fn source(alloc: Global, generator: &Gen) -> Result<Source, Memory>
    ensures { IfOk result (λ made. bare_source made ≡ source_of generator.now) }
{
    Ok(Source {
        table: generator.table.copy(alloc)?,
        alias: alias(alloc, generator.number)?,
        place: 0,
    })
}
