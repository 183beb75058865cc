// Base terms as expressions, and conditions as what stands behind WHERE.
ghost use Rattle.std.specs.Prelude.{◌≡◌, ◌+◌, IfOk, cond, map, pos};
ghost use Rattle.nq_model.specs.Totals.{HowMany};
ghost use Rattle.nq_ir.specs.Trees.{BaseTree, base_tree, test_part, tests_of, conds_of, conds_tree};
ghost use Rattle.sql_profile.specs.Trees.{ExprTree, chain as sql_chain, expr_tree, link_tree, query_tree, select_tree};
ghost use Rattle.flatten.specs.Names.{let_alias, alias, outer_column};
ghost use Rattle.flatten.specs.Exprs.{base_expr, conds_keep, joined, one_item};
ghost use Rattle.flatten.specs.Emitted.{in_gens};
ghost use Rattle.flatten.specs.Views.{keep_tree, items_tree, picked_tree, query_from, test_picked, test_select};

use crate::names::{alias, let_alias, one_name, outer_column};
use crate::source::sources;
use nq_ir::{Base, Gen, Test};
use nq_model::{Binary, Label, List, Memory, boxed};
use sql_profile::{Expr, ExprNode, Item, ItemValue, Link, Picked, Query, Select};
use std::alloc::Global;

/// Whether the generator with a number is one of these.
pub(crate) fn is_in(gens: &[Gen], number: u64) -> bool
    ensures { result ≡ in_gens gens.now number }
{
    for generator in gens {
        if number == generator.number {
            return true;
        }
    }
    false
}

/// A column of a generator; that of one that stands outside is a column of the WITH query.
#[tactic(auto, using(crate::proofs::Built::column_built))]
pub(crate) fn column(
    alloc: Global,
    outside: bool,
    number: u64,
    column: &Label,
) -> Result<Expr, Memory>
    ensures { IfOk result (λ made.
        expr_tree made ≡ cond outside (ExprTree.column let_alias (outer_column number column.now))
        (ExprTree.column (alias number) column.now)) }
{
    if outside {
        let alias = let_alias(alloc)?;
        let column = outer_column(alloc, number, column.as_str())?;
        return Ok(Expr {
            place: 0,
            node: ExprNode::Column { alias, column },
        });
    }
    let alias = alias(alloc, number)?;
    let column = column.copy(alloc)?;
    Ok(Expr {
        place: 0,
        node: ExprNode::Column { alias, column },
    })
}

// How many levels are left below one more. The stack is memory, so a deeper tree is want of
// memory.
fn below(levels: u64) -> Result<u64, Memory>
    ensures { IfOk result (λ left. left + 1 ≡ levels) }
{
    match levels.checked_sub(1) {
        Some(left) => Ok(left),
        None => Err(Memory),
    }
}

// Whether operations of this kind are kept as chains: those of which texts have thousands.
fn is_chained(op: Binary) -> bool {
    matches!(op, Binary::Add | Binary::And | Binary::Or)
}

/// A base term as an expression of at most so many levels, where these generators stand outside.
#[cycle(expr)]
#[tactic(auto, using(nq_ir::proofs::Forms::base_int, nq_ir::proofs::Forms::base_bool, nq_ir::proofs::Forms::base_text, nq_ir::proofs::Forms::base_column, nq_ir::proofs::Forms::base_unary, nq_ir::proofs::Forms::base_binary, nq_ir::proofs::Forms::base_choose, nq_ir::proofs::Forms::base_empty, nq_ir::proofs::Forms::base_count, nq_ir::proofs::Forms::base_sum, crate::proofs::Built::sum_built, crate::proofs::Built::int_built, crate::proofs::Built::bool_built, crate::proofs::Built::text_built, crate::proofs::Built::unary_built, crate::proofs::Built::binary_built, crate::proofs::Built::choose_built))]
pub(crate) fn expr(alloc: Global, outer: &[Gen], base: &Base, levels: u64) -> Result<Expr, Memory>
    ensures { IfOk result (λ made.
        expr_tree made ≡ base_expr (in_gens outer.now) (base_tree base.now)) }
{
    let levels = below(levels)?;
    match base {
        Base::Int(number) => Ok(Expr {
            place: 0,
            node: ExprNode::Int(*number),
        }),
        Base::Bool(truth) => Ok(Expr {
            place: 0,
            node: ExprNode::Bool(*truth),
        }),
        Base::Text(text) => Ok(Expr {
            place: 0,
            node: ExprNode::Text(text.copy(alloc)?),
        }),
        Base::Column {
            generator,
            column: name,
        } => { column(alloc, is_in(outer, *generator), *generator, name) }
        Base::Unary { op, of } => {
            let of = boxed(alloc, expr(alloc, outer, of, levels)?)?;
            Ok(Expr {
                place: 0,
                node: ExprNode::Unary { op: *op, of },
            })
        }
        Base::Binary { op, .. } if is_chained(*op) => chain(alloc, outer, *op, base, levels),
        Base::Binary { op, left, right } => pair(alloc, outer, *op, left, right, levels),
        Base::Chain { op, first, more } => {
            let first = expr(alloc, outer, first, levels)?;
            let more = links(alloc, outer, more.as_slice(), levels)?;
            chained(alloc, *op, first, more)
        }
        Base::Choose { test, yes, no } => {
            let test = boxed(alloc, expr(alloc, outer, test, levels)?)?;
            let yes = boxed(alloc, expr(alloc, outer, yes, levels)?)?;
            let no = boxed(alloc, expr(alloc, outer, no, levels)?)?;
            Ok(Expr {
                place: 0,
                node: ExprNode::Choose { test, yes, no },
            })
        }
        Base::Empty(tests) => emptiness(alloc, outer, tests.as_slice(), levels),
        Base::Count(test) => count(alloc, outer, test, levels),
        Base::Sum { over, value } => {
            let over = boxed(alloc, picked(alloc, outer, over, levels)?)?;
            let value = boxed(alloc, expr(alloc, outer, value, levels)?)?;
            Ok(Expr {
                place: 0,
                node: ExprNode::Sum { over, value },
            })
        }
    }
}

// An operation on two terms.
#[cycle(expr)]
#[tactic(auto, using(crate::proofs::Built::binary_built))]
fn pair(
    alloc: Global,
    outer: &[Gen],
    op: Binary,
    left: &Base,
    right: &Base,
    levels: u64,
) -> Result<Expr, Memory>
    ensures { IfOk result (λ made.
        expr_tree made ≡ ExprTree.binary op (base_expr (in_gens outer.now) (base_tree left.now))
        (base_expr (in_gens outer.now) (base_tree right.now))) }
{
    let left = boxed(alloc, expr(alloc, outer, left, levels)?)?;
    let right = boxed(alloc, expr(alloc, outer, right, levels)?)?;
    Ok(Expr {
        place: 0,
        node: ExprNode::Binary { op, left, right },
    })
}

// A term as a chain of an operation, however often that stands in its left part. The links are
// found from the last to the first.
#[cycle(expr)]
fn chain(alloc: Global, outer: &[Gen], op: Binary, base: &Base, levels: u64) -> Result<Expr, Memory>
    ensures { IfOk result (λ made.
        expr_tree made ≡ base_expr (in_gens outer.now) (base_tree base.now)) }
{
    let mut links = Vec::new(alloc);
    let mut left = base;
    while let Base::Binary {
        op: own,
        left: before,
        right,
    } = left
    {
        if *own != op {
            break;
        }
        let right = expr(alloc, outer, right, levels)?;
        links.push(Link { place: 0, right })?;
        left = before;
    }
    links.reverse();
    let first = expr(alloc, outer, left, levels)?;
    chained(alloc, op, first, List::from_vec(links))
}

// An expression and links behind it as one chain.
#[tactic(auto, using(crate::proofs::Built::chain_built))]
fn chained(alloc: Global, op: Binary, first: Expr, more: List<Link>) -> Result<Expr, Memory>
    ensures { IfOk result (λ made.
        expr_tree made ≡ sql_chain op (expr_tree first) (map link_tree more)) }
{
    let first = boxed(alloc, first)?;
    Ok(Expr {
        place: 0,
        node: ExprNode::Chain { op, first, more },
    })
}

// How many combinations the sources and conditions of a comprehension keep.
#[cycle(expr)]
#[tactic(auto, using(nq_ir::proofs::Forms::base_count, crate::proofs::Built::count_built))]
fn count(alloc: Global, outer: &[Gen], test: &Test, levels: u64) -> Result<Expr, Memory>
    ensures { IfOk result (λ made.
        expr_tree made ≡ ExprTree.total HowMany
        (test_picked (in_gens outer.now) (test_part test.now)).0
        (test_picked (in_gens outer.now) (test_part test.now)).1 (ExprTree.int (pos 1))) }
{
    let over = boxed(alloc, picked(alloc, outer, test, levels)?)?;
    Ok(Expr {
        place: 0,
        node: ExprNode::Count(over),
    })
}

// The sources and the condition of a comprehension that is counted or summed.
#[cycle(expr)]
#[tactic(auto, using(nq_ir::proofs::Forms::test_is, crate::proofs::Built::picked_built))]
fn picked(alloc: Global, outer: &[Gen], test: &Test, levels: u64) -> Result<Picked, Memory>
    ensures { IfOk result (λ made.
        picked_tree made ≡ test_picked (in_gens outer.now) (test_part test.now)) }
{
    let from = sources(alloc, test.gens.as_slice())?;
    let keep = keep(alloc, outer, test.conds.as_slice(), levels)?;
    Ok(Picked { from, keep })
}

// An emptiness test: NOT EXISTS over its comprehensions, and TRUE where there is none.
#[cycle(expr)]
#[tactic(auto, using(crate::proofs::Built::bool_built, crate::proofs::Lists::no_tests, crate::proofs::Lists::some_tests))]
fn emptiness(alloc: Global, outer: &[Gen], tests: &[Test], levels: u64) -> Result<Expr, Memory>
    ensures { IfOk result (λ made.
        expr_tree made ≡ base_expr (in_gens outer.now)
        (BaseTree.empty (tests_of (map test_part tests.now)))) }
{
    if tests.is_empty() {
        return Ok(Expr {
            place: 0,
            node: ExprNode::Bool(true),
        });
    }
    not_exists(alloc, selects(alloc, outer, tests, levels)?)
}

// No SELECT of a query has a row.
fn not_exists(alloc: Global, selects: List<Select>) -> Result<Expr, Memory>
    ensures { IfOk result (λ made.
        expr_tree made ≡ ExprTree.not_exists (query_from (map select_tree selects))) }
{
    let query = boxed(alloc, Query { selects })?;
    Ok(Expr {
        place: 0,
        node: ExprNode::NotExists(query),
    })
}

// A SELECT for each comprehension of a test.
#[cycle(expr)]
fn selects(
    alloc: Global,
    outer: &[Gen],
    tests: &[Test],
    levels: u64,
) -> Result<List<Select>, Memory>
    ensures { IfOk result (λ made.
        map select_tree made ≡ map (test_select (in_gens outer.now)) (map test_part tests.now)) }
{
    let mut selects = List::with_capacity(alloc, tests.len())?;
    for test in tests {
        selects.push(test_select(alloc, outer, test, levels)?)?;
    }
    Ok(selects)
}

#[cycle(expr)]
#[tactic(auto, using(nq_ir::proofs::Forms::test_is, crate::proofs::Lists::select_built))]
fn test_select(alloc: Global, outer: &[Gen], test: &Test, levels: u64) -> Result<Select, Memory>
    ensures { IfOk result (λ made.
        select_tree made ≡ test_select (in_gens outer.now) (test_part test.now)) }
{
    let items = one_item(alloc)?;
    let from = sources(alloc, test.gens.as_slice())?;
    let keep = keep(alloc, outer, test.conds.as_slice(), levels)?;
    Ok(Select {
        place: 0,
        items,
        from,
        keep,
    })
}

/// What stands behind WHERE where these conditions are to hold, joined from the left, of at most so
/// many levels.
#[cycle(expr)]
pub(crate) fn keep(
    alloc: Global,
    outer: &[Gen],
    conds: &[Base],
    levels: u64,
) -> Result<Option<Expr>, Memory>
    ensures { IfOk result (λ made.
        keep_tree made ≡ conds_keep (in_gens outer.now) (conds_tree conds.now)) }
{
    match conds.split_first() {
        None => Ok(None),
        Some((first, rest)) => Ok(Some(all_of(alloc, outer, first, rest, levels)?)),
    }
}

// The conjunction of conditions, of at most so many levels.
#[cycle(expr)]
fn all_of(
    alloc: Global,
    outer: &[Gen],
    first: &Base,
    rest: &[Base],
    levels: u64,
) -> Result<Expr, Memory>
    ensures { IfOk result (λ made.
        expr_tree made ≡ joined (in_gens outer.now)
        (base_expr (in_gens outer.now) (base_tree first.now))
        (conds_of (map base_tree rest.now))) }
{
    let levels = below(levels)?;
    let first = expr(alloc, outer, first, levels)?;
    if rest.is_empty() {
        return Ok(first);
    }
    let more = links(alloc, outer, rest, levels)?;
    chained(alloc, Binary::And, first, more)
}

// Each term as a link of a chain.
#[cycle(expr)]
#[tactic(auto, using(crate::proofs::Built::link_built))]
fn links(alloc: Global, outer: &[Gen], parts: &[Base], levels: u64) -> Result<List<Link>, Memory>
    ensures { IfOk result (λ links.
        map link_tree links ≡ map (base_expr (in_gens outer.now)) (map base_tree parts.now)) }
{
    let mut links = List::with_capacity(alloc, parts.len())?;
    for part in parts {
        let right = expr(alloc, outer, part, levels)?;
        links.push(Link { place: 0, right })?;
    }
    Ok(links)
}

// `1 AS "one"`.
#[tactic(auto, using(crate::proofs::Built::int_built, crate::proofs::Lists::one_built))]
fn one_item(alloc: Global) -> Result<List<Item>, Memory>
    ensures { IfOk result (λ items. items_tree items ≡ one_item) }
{
    let mut items = List::with_capacity(alloc, 1)?;
    let one = Expr {
        place: 0,
        node: ExprNode::Int(1),
    };
    items.push(Item {
        name: one_name(alloc)?,
        place: 0,
        value: ItemValue::Plain(one),
    })?;
    Ok(items)
}
