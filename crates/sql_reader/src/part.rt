// Expressions that were read whole.
ghost use Rattle.std.specs.Prelude.{◌≡◌, ℕ, IfOk};
ghost use Rattle.std.specs.Option.{option_map};
ghost use Rattle.sql_profile.specs.Trees.{placed_node, placed_picked};
ghost use Rattle.sql_reader.specs.Parts.{binary, choice, in_parens, leaf, minus, negation, not_exists, scalar, scalar_tree};
ghost use Rattle.sql_reader.specs.Views.{boxed_tree, kept_tree, part_view, scalar_view, selects_view};

use crate::chain::{Chain, chain_extent, chain_of, is_chained};
use crate::extent::{Extent, deeper, enclosed, flat, greater};
use crate::levels::level;
use crate::lists::{Scalar, Selects};
use nq_model::{Binary, List, Memory, Unary, boxed};
use sql_profile::{Expr, ExprNode, Link, Picked, Query, Source};
use std::alloc::Global;

/// An expression, the level at which it may stand, and how deep it is.
#[derive(Drop)]
pub struct Part {
    pub expr: Box<Expr>,
    pub level: u64,
    pub extent: Extent,
}

fn made(
    alloc: Global,
    place: u64,
    node: ExprNode,
    level: u64,
    extent: Extent,
) -> Result<Part, Memory>
    ensures { IfOk result (λ made.
        part_view made
        ≡ record { tree = placed_node node place; level = level; depth = extent.depth }) }
{
    let expr = boxed(alloc, Expr { place, node })?;
    Ok(Part {
        expr,
        level,
        extent,
    })
}

/// An expression that has no parts.
pub fn leaf(alloc: Global, place: u64, node: ExprNode) -> Result<Part, Memory>
    ensures { IfOk result (λ made. part_view made ≡ leaf (placed_node node place)) }
{
    made(alloc, place, node, 8, flat())
}

/// An expression in parentheses, which leave nothing in the tree.
pub fn in_parens(inner: Part) -> Result<Part, Memory>
    ensures { IfOk result (λ whole. part_view whole ≡ in_parens (part_view inner)) }
{
    let extent = enclosed(inner.extent)?;
    Ok(Part {
        expr: inner.expr,
        level: 8,
        extent,
    })
}

/// The expression with a minus before it.
pub fn minus(alloc: Global, place: u64, of: Part) -> Result<Part, Memory>
    ensures { IfOk result (λ whole. part_view whole ≡ minus place (part_view of)) }
{
    let extent = deeper(of.extent)?;
    let node = ExprNode::Unary {
        op: Unary::Minus,
        of: of.expr,
    };
    made(alloc, place, node, 7, extent)
}

/// The expression with NOT before it.
pub fn negation(alloc: Global, place: u64, of: Part) -> Result<Part, Memory>
    ensures { IfOk result (λ whole. part_view whole ≡ negation place (part_view of)) }
{
    let extent = deeper(of.extent)?;
    let node = ExprNode::Unary {
        op: Unary::Not,
        of: of.expr,
    };
    made(alloc, place, node, 3, extent)
}

/// NOT EXISTS of a query.
pub fn not_exists(alloc: Global, place: u64, of: Selects) -> Result<Part, Memory>
    ensures { IfOk result (λ whole. part_view whole ≡ not_exists place (selects_view of)) }
{
    let extent = deeper(enclosed(of.extent)?)?;
    let query = boxed(
        alloc,
        Query {
            selects: of.selects,
        },
    )?;
    made(alloc, place, ExprNode::NotExists(query), 3, extent)
}

/// A scalar query of these sources, and of what it keeps, which is so deep.
#[tactic(auto, using(crate::proofs::Putting::picked_kept))]
pub fn scalar(
    alloc: Global,
    begun: Scalar,
    from: List<Source>,
    keep: Option<Expr>,
    kept: Extent,
) -> Result<Part, Memory>
    ensures { IfOk result (λ whole.
        part_view whole ≡ scalar (scalar_view begun) from (kept_tree keep) kept.depth) }
{
    let Scalar {
        place,
        value,
        extent,
    } = begun;
    let whole = deeper(greater(extent, kept))?;
    let over = boxed(alloc, Picked { from, keep })?;
    made(alloc, place, total(value, over), 8, whole)
}

// The sum of a value, or else a count.
fn total(value: Option<Box<Expr>>, over: Box<Picked>) -> ExprNode
    ensures { (p : ℕ) → placed_node result p
        ≡ scalar_tree p (option_map boxed_tree value) (placed_picked over.value).from
        (placed_picked over.value).keep }
{
    match value {
        Some(value) => ExprNode::Sum { over, value },
        None => ExprNode::Count(over),
    }
}

/// CASE of a test and its two arms.
pub fn choice(alloc: Global, place: u64, test: Part, yes: Part, no: Part) -> Result<Part, Memory>
    ensures { IfOk result (λ whole.
        part_view whole ≡ choice place (part_view test) (part_view yes) (part_view no)) }
{
    let extent = deeper(greater(test.extent, greater(yes.extent, no.extent)))?;
    let node = ExprNode::Choose {
        test: test.expr,
        yes: yes.expr,
        no: no.expr,
    };
    made(alloc, place, node, 8, extent)
}

/// Two expressions with an operator between them.
pub fn binary(
    alloc: Global,
    left: Part,
    place: u64,
    op: Binary,
    right: Part,
) -> Result<Part, Memory>
    ensures { IfOk result (λ whole.
        part_view whole ≡ binary (part_view left) place op (part_view right)) }
{
    if is_chained(op) {
        chained(alloc, left, place, op, right)
    } else {
        paired(alloc, left, place, op, right)
    }
}

// Two expressions in a node of their own.
fn paired(alloc: Global, left: Part, place: u64, op: Binary, right: Part) -> Result<Part, Memory>
    ensures { IfOk result (λ whole.
        part_view whole ≡ binary (part_view left) place op (part_view right)) }
{
    let extent = deeper(greater(left.extent, right.extent))?;
    let node = ExprNode::Binary {
        op,
        left: left.expr,
        right: right.expr,
    };
    made(alloc, place, node, level(op), extent)
}

// The right expression as one more link of the left one, which is a chain or begins one.
#[tactic(auto, using(crate::proofs::Putting::link_put))]
fn chained(alloc: Global, left: Part, place: u64, op: Binary, right: Part) -> Result<Part, Memory>
    ensures { IfOk result (λ whole.
        part_view whole ≡ binary (part_view left) place op (part_view right)) }
{
    let before = left.extent;
    let behind = right.extent;
    let Chain { first, links } = chain_of(alloc, op, left.expr)?;
    let extent = chain_extent(links.len(), before, behind)?;
    let mut more = links;
    more.push(Link {
        place,
        right: Box::into_inner(right.expr),
    })?;
    made(
        alloc,
        place,
        ExprNode::Chain { op, first, more },
        level(op),
        extent,
    )
}
