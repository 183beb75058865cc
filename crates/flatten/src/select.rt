// The SELECTs of a let form: of its lets, and of its parts.
ghost use Rattle.std.specs.Prelude.{◌≡◌, ◌++◌, ◌∷◌, [], IfOk, OnOk, MatchOption, map};
ghost use Rattle.nq_ir.specs.Lets.{let_tree, part_tree, let_of, no_let, strand_of};
ghost use Rattle.nq_ir.specs.WellFormed.{column_names};
ghost use Rattle.sql_profile.specs.Trees.{bare_source, plain, select_tree};
ghost use Rattle.flatten.specs.Exprs.{source_of};
ghost use Rattle.flatten.specs.Emitted.{let_select, strand_select, strand_values, around_number, after_let};
ghost use Rattle.flatten.specs.Views.{value_tree};

use crate::expr::keep;
use crate::keys::let_items;
use crate::names::{let_alias, number_name, with_name};
use crate::source::{push_sources, sources};
use crate::values::{answer_items, number, push_values};
use nq_ir::{Gen, LetPart, LetQuery};
use nq_model::{List, Memory, Schema};
use sql_profile::{Expr, ExprNode, ItemValue, Select, Source};
use std::alloc::Global;

/// How many levels an expression has at most. The stack is memory, so a deeper one is want of
/// memory.
pub(crate) const DEEPEST: u64 = 2_000;

// The let with a number, from 1, if there is one.
#[tactic(auto, using(crate::proofs::Lists::let_found, crate::proofs::Lists::let_missing))]
fn let_at(lets: &[LetQuery], number: u64) -> Option<&LetQuery>
    ensures { MatchOption result (let_of (map let_tree lets.now) number ≡ no_let)
        (λ l. let_tree l.now ≡ let_of (map let_tree lets.now) number) }
{
    if number == 0 {
        return None;
    }
    match lets.get((number - 1) as usize) {
        Some(found) => Some(found),
        None => None,
    }
}

// The generators in scope of the let with a number.
fn gens_around(lets: &[LetQuery], number: u64) -> &[Gen]
    ensures { result.now ≡ (let_of (map let_tree lets.now) number).gens }
{
    match let_at(lets, number) {
        Some(found) => found.gens.as_slice(),
        None => &[],
    }
}

// The tag of the comprehension whose let has a number; 0 where there is none.
fn tag_around(lets: &[LetQuery], number: u64) -> u64
    ensures { result ≡ (let_of (map let_tree lets.now) number).parent }
{
    match let_at(lets, number) {
        Some(found) => found.parent,
        None => 0,
    }
}

// The number of the spot around.
#[tactic(auto, using(crate::proofs::Lists::around_first, crate::proofs::Lists::around_later, crate::proofs::Lists::plain_seen, crate::proofs::Built::column_built))]
fn around_number(alloc: Global, from: u64) -> Result<ItemValue, Memory>
    ensures { IfOk result (λ made. value_tree made ≡ plain (around_number from)) }
{
    if from == 0 {
        return number(1);
    }
    let alias = let_alias(alloc)?;
    let column = number_name(alloc)?;
    Ok(ItemValue::Plain(Expr {
        place: 0,
        node: ExprNode::Column { alias, column },
    }))
}

// The WITH query of the let with a number as a source, and then those of generators.
#[tactic(auto, using(crate::proofs::Lists::after_first, crate::proofs::Lists::after_later))]
fn after_let(alloc: Global, from: u64, gens: &[Gen]) -> Result<List<Source>, Memory>
    ensures { IfOk result (λ made. map bare_source made ≡ after_let from (map source_of gens.now)) }
{
    let mut sources = List::new(alloc);
    if from != 0 {
        sources.push(Source {
            table: with_name(alloc, from)?,
            alias: let_alias(alloc)?,
            place: 0,
        })?;
    }
    push_sources(alloc, &mut sources, gens)?;
    Ok(sources)
}

// The values of a part's SELECT.
fn strand_values(
    alloc: Global,
    schema: &Schema,
    lets: &[LetQuery],
    part: &LetPart,
) -> Result<List<ItemValue>, Memory>
    ensures { IfOk result (λ values.
        map value_tree values
        ≡ strand_values (column_names schema.now.tables) (around_number part.now.from)
        (strand_of (map let_tree lets.now) (part_tree part.now))) }
{
    let outer = gens_around(lets, part.from);
    let own = part.gens.as_slice();
    let mut values = List::new(alloc);
    values.push(number(tag_around(lets, part.from))?)?;
    values.push(around_number(alloc, part.from)?)?;
    push_values(
        alloc,
        &mut values,
        schema,
        outer,
        own,
        part.tag,
        &part.shape,
        DEEPEST,
    )?;
    Ok(values)
}

/// The SELECT of a part.
#[tactic(auto, using(crate::proofs::Lists::select_built))]
pub(crate) fn part_select(
    alloc: Global,
    schema: &Schema,
    lets: &[LetQuery],
    part: &LetPart,
) -> Result<Select, Memory>
    ensures { IfOk result (λ made.
        select_tree made ≡ strand_select (column_names schema.now.tables) part.now.from
        (strand_of (map let_tree lets.now) (part_tree part.now))) }
{
    let outer = gens_around(lets, part.from);
    let items = answer_items(alloc, strand_values(alloc, schema, lets, part)?)?;
    let from = after_let(alloc, part.from, part.gens.as_slice())?;
    let keep = keep(alloc, outer, part.conds.as_slice(), DEEPEST)?;
    Ok(Select {
        place: 0,
        items,
        from,
        keep,
    })
}

/// The SELECT of a let.
#[tactic(auto, using(crate::proofs::Lists::select_built))]
pub(crate) fn let_select(alloc: Global, schema: &Schema, query: &LetQuery) -> Result<Select, Memory>
    ensures { IfOk result (λ made.
        select_tree made ≡ let_select (column_names schema.now.tables) (let_tree query.now)) }
{
    let items = let_items(alloc, schema, query.gens.as_slice())?;
    let from = sources(alloc, query.gens.as_slice())?;
    let keep = keep(alloc, &[], query.conds.as_slice(), DEEPEST)?;
    Ok(Select {
        place: 0,
        items,
        from,
        keep,
    })
}
