// Operations that stand in chains, grouped to the left.
ghost use Rattle.std.specs.Prelude.{◌≡◌, [], suc, max, map, IfOk};
ghost use Rattle.sql_profile.specs.Trees.{chain_at, placed_expr, placed_link};

use crate::extent::{Extent, deeper, greater, longer};
use nq_model::{Binary, List, Memory, boxed};
use sql_profile::{Expr, ExprNode, Link};
use std::alloc::Global;

/// The first part of a chain, and its links.
#[derive(Drop)]
pub struct Chain {
    pub first: Box<Expr>,
    pub links: List<Link>,
}

/// Whether operations of this kind are kept as chains: those of which texts have thousands.
pub fn is_chained(op: Binary) -> bool {
    matches!(op, Binary::Add | Binary::And | Binary::Or)
}

/// The expression as a chain of this operation, which has no link where the expression is none.
#[tactic(auto, using(crate::proofs::Putting::chain_kept))]
pub fn chain_of(alloc: Global, op: Binary, expr: Box<Expr>) -> Result<Chain, Memory>
    ensures { IfOk result (λ chain.
        chain_at op (placed_expr chain.first.value) (map placed_link chain.links)
        ≡ placed_expr expr.value) }
{
    let Expr { place, node } = Box::into_inner(expr);
    match node {
        ExprNode::Chain {
            op: own,
            first,
            more,
        } => goes_on(alloc, op, place, own, first, more),
        node => begins(alloc, Expr { place, node }),
    }
}

// The chain of an operation, as it is where that is the one that is asked for.
#[tactic(auto, using(crate::proofs::Putting::chain_kept))]
fn goes_on(
    alloc: Global,
    op: Binary,
    place: u64,
    own: Binary,
    first: Box<Expr>,
    more: List<Link>,
) -> Result<Chain, Memory>
    ensures { IfOk result (λ chain.
        chain_at op (placed_expr chain.first.value) (map placed_link chain.links)
        ≡ chain_at own (placed_expr first.value) (map placed_link more)) }
{
    if own == op {
        Ok(Chain { first, links: more })
    } else {
        let node = ExprNode::Chain {
            op: own,
            first,
            more,
        };
        begins(alloc, Expr { place, node })
    }
}

// A chain of no links.
fn begins(alloc: Global, first: Expr) -> Result<Chain, Memory>
    ensures { IfOk result (λ chain. (chain.first.value ≡ first) × (chain.links ≡ [])) }
{
    let first = boxed(alloc, first)?;
    Ok(Chain {
        first,
        links: List::new(alloc),
    })
}

/// How deep a chain of so many links is with one more part behind it.
pub fn chain_extent(links: usize, chain: Extent, part: Extent) -> Result<Extent, Memory>
    ensures { IfOk result (λ whole. whole.depth ≡ suc (max chain.depth part.depth)) }
{
    if links == 0 {
        deeper(greater(chain, part))
    } else {
        longer(chain, part)
    }
}
