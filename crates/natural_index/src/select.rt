// The SELECTs at a path.
ghost use Rattle.std.specs.Prelude.{◌≡◌, ◌++◌, IfOk, map};
ghost use Rattle.nq_model.specs.Types.{type_tree};
ghost use Rattle.nq_ir.specs.Spots.{both, strand_tree};
ghost use Rattle.nq_ir.specs.Shredded.{shredded_tree};
ghost use Rattle.nq_ir.specs.Trees.{conds_tree};
ghost use Rattle.sql_profile.specs.Trees.{bare_source, select_tree, sql_tree};
ghost use Rattle.flatten.specs.Emitted.{none_outer};
ghost use Rattle.flatten.specs.Exprs.{conds_keep, source_of};
ghost use Rattle.flatten.specs.Views.{item_view, keep_tree};
ghost use Rattle.natural_index.specs.Trees.{empty_select, as_items, natural_columns, natural_select, natural_selects, union_tree};

use crate::exprs::{Index, group, number, push_shape, zeros};
use crate::items::items_of;
use flatten::{conds_keep, sources};
use natural_keys::{Layout, element_columns, key_columns, scope_key};
use nq_ir::{Shredded, Strand, copy_conds};
use nq_model::{ColumnType, List, Memory, Schema, Ty};
use sql_profile::{Expr, ExprNode, Item, Query, Select, Source, SqlText};
use std::alloc::Global;

// The items of the SELECT of a comprehension.
fn items_at(
    alloc: Global,
    schema: &Schema,
    outer: Layout,
    inner: Layout,
    part: &Strand,
) -> Result<List<Item>, Memory>
    ensures { IfOk result (λ items. map item_view items
        ≡ as_items (natural_columns schema.now.tables outer inner (strand_tree part.now))) }
{
    let around = key_columns(alloc, schema, part.outer_gens.as_slice())?;
    let keys = scope_key(alloc, schema, part)?;
    let index = Index {
        layout: inner,
        tag: part.tag,
        keys: keys.as_slice(),
    };
    let mut parts = List::new(alloc);
    push_shape(alloc, &part.shape, &index, &mut parts)?;
    let around = around.as_slice();
    items_of(
        alloc,
        number(part.parent)?,
        group(alloc, around, ColumnType::Int, outer.ints)?,
        group(alloc, around, ColumnType::Bool, outer.bools)?,
        group(alloc, around, ColumnType::Text, outer.texts)?,
        parts,
    )
}

// The sources of all generators in scope, outermost first.
fn sources_at(alloc: Global, part: &Strand) -> Result<List<Source>, Memory>
    ensures { IfOk result (λ made. map bare_source made
        ≡ map source_of (part.now.outer_gens ++ part.now.gens)) }
{
    let mut all = sources(alloc, part.outer_gens.as_slice())?;
    for source in sources(alloc, part.gens.as_slice())?.into_vec() {
        all.push(source)?;
    }
    Ok(all)
}

// What stands behind WHERE: all conditions in scope, from outside in.
#[tactic(auto, using(crate::proofs::Conds::copies_both))]
fn keep_at(alloc: Global, part: &Strand) -> Result<Option<Expr>, Memory>
    ensures { IfOk result (λ made. keep_tree made
        ≡ conds_keep none_outer (both (conds_tree part.now.outer_conds)
        (conds_tree part.now.conds))) }
{
    let mut all = copy_conds(alloc, part.outer_conds.as_slice())?;
    for cond in copy_conds(alloc, part.conds.as_slice())?.into_vec() {
        all.push(cond)?;
    }
    conds_keep(alloc, all.as_slice())
}

// The SELECT of a comprehension.
#[tactic(auto, using(flatten::proofs::Lists::select_built, flatten::proofs::Lists::items_listed))]
fn natural_select(
    alloc: Global,
    schema: &Schema,
    outer: Layout,
    inner: Layout,
    part: &Strand,
) -> Result<Select, Memory>
    ensures { IfOk result (λ made. select_tree made
        ≡ natural_select schema.now.tables outer inner (strand_tree part.now)) }
{
    let items = items_at(alloc, schema, outer, inner, part)?;
    let from = sources_at(alloc, part)?;
    let keep = keep_at(alloc, part)?;
    Ok(Select {
        place: 0,
        items,
        from,
        keep,
    })
}

// The SELECT where there is no comprehension.
#[tactic(auto, using(flatten::proofs::Lists::select_built, flatten::proofs::Lists::items_listed, flatten::proofs::Built::bool_built))]
fn empty_select(alloc: Global, outer: Layout, inner: Layout, element: &Ty) -> Result<Select, Memory>
    ensures { IfOk result (λ made. select_tree made
        ≡ empty_select outer inner (type_tree element.now)) }
{
    let columns = element_columns(alloc, inner, element)?;
    let items = items_of(
        alloc,
        number(0)?,
        group(alloc, &[], ColumnType::Int, outer.ints)?,
        group(alloc, &[], ColumnType::Bool, outer.bools)?,
        group(alloc, &[], ColumnType::Text, outer.texts)?,
        zeros(alloc, columns.as_slice())?,
    )?;
    let never = Expr {
        place: 0,
        node: ExprNode::Bool(false),
    };
    Ok(Select {
        place: 0,
        items,
        from: List::new(alloc),
        keep: Some(never),
    })
}

// The SELECTs of the comprehensions at a path; one without a row where there is none.
fn selects_at(
    alloc: Global,
    schema: &Schema,
    outer: Layout,
    inner: Layout,
    form: &Shredded,
) -> Result<List<Select>, Memory>
    ensures { IfOk result (λ made. map select_tree made
        ≡ natural_selects schema.now.tables outer inner (shredded_tree form.now).element
        (shredded_tree form.now).parts) }
{
    let parts = form.parts.as_slice();
    let mut selects = List::with_capacity(alloc, parts.len())?;
    if parts.is_empty() {
        selects.push(empty_select(alloc, outer, inner, &form.element)?)?;
        return Ok(selects);
    }
    for part in parts {
        selects.push(natural_select(alloc, schema, outer, inner, part)?)?;
    }
    Ok(selects)
}

/// The text at a path: the SELECTs joined by UNION ALL.
#[tactic(auto, using(flatten::proofs::Lists::query_seen))]
pub(crate) fn text_at(
    alloc: Global,
    schema: &Schema,
    outer: Layout,
    inner: Layout,
    form: &Shredded,
) -> Result<SqlText, Memory>
    ensures { IfOk result (λ text. sql_tree text
        ≡ union_tree (natural_selects schema.now.tables outer inner
        (shredded_tree form.now).element (shredded_tree form.now).parts)) }
{
    let selects = selects_at(alloc, schema, outer, inner, form)?;
    Ok(SqlText {
        withs: List::new(alloc),
        main: Query { selects },
    })
}
