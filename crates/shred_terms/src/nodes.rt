// Comprehensions at one path as strands, each with the bags in its body, in which the next strands
// stand.
ghost use Rattle.std.specs.Prelude.{◌≡◌, ◌++◌, [], IfOk, OnOk, map, flat_map};
ghost use Rattle.nq_ir.specs.Spots.{bags_of, both, strand_tree};
ghost use Rattle.nq_ir.specs.Trees.{body_tree, conds_tree};
ghost use Rattle.shred_terms.specs.Levels.{bags_view, field_bags, node_of, node_view, under_node};
ghost use Rattle.shred_terms.specs.Placed.{placed_in};

use crate::around::{Around, joined_conds, joined_gens, strand};
use nq_ir::{Body, Comp, Normal, Strand};
use nq_model::{Label, List, Memory};
use std::alloc::Global;

/// A strand, and the bags in the body of its comprehension, fields in order.
#[derive(Drop)]
pub struct Node<'a> {
    pub strand: Strand,
    pub bags: Vec<&'a Normal>,
}

/// Puts the comprehensions at the end.
pub fn push_nodes<'a>(
    alloc: Global,
    around: &Around,
    comps: &'a [Comp],
    nodes: &mut Vec<Node<'a>>,
) -> Result<(), Memory>
    ensures { OnOk result (map node_view nodes.new.items
        ≡ map node_view nodes.old.items ++ map node_of (placed_in around.now comps.now)) }
{
    for comp in comps {
        let mut bags = Vec::new(alloc);
        push_bags(&comp.body, &mut bags)?;
        nodes.push(Node {
            strand: strand(alloc, around, comp)?,
            bags,
        })?;
    }
    Ok(())
}

// Puts the bags in a body at the end.
#[cycle(bags)]
#[tactic(auto, using(nq_ir::proofs::Forms::body_plain, nq_ir::proofs::Forms::body_rec, nq_ir::proofs::Forms::body_bag))]
fn push_bags<'a>(body: &'a Body, bags: &mut Vec<&'a Normal>) -> Result<(), Memory>
    ensures { OnOk result (bags_view bags.new.items
        ≡ bags_view bags.old.items ++ bags_of (body_tree body.now)) }
{
    match body {
        Body::Plain(_) => Ok(()),
        Body::Rec(fields) => push_field_bags(fields.as_slice(), bags),
        Body::Bag(bag) => {
            bags.push(bag)?;
            Ok(())
        }
    }
}

#[cycle(bags)]
fn push_field_bags<'a>(
    fields: &'a [(Label, Body)],
    bags: &mut Vec<&'a Normal>,
) -> Result<(), Memory>
    ensures { OnOk result (bags_view bags.new.items
        ≡ bags_view bags.old.items ++ field_bags fields.now) }
{
    for field in fields {
        push_bags(&field.1, bags)?;
    }
    Ok(())
}

/// The comprehensions in the bags with this number, counted from 0.
pub fn nodes_under<'a>(
    alloc: Global,
    here: &[Node<'a>],
    slot: usize,
) -> Result<Vec<Node<'a>>, Memory>
    ensures { IfOk result (λ nodes.
        map node_view nodes.items ≡ flat_map (under_node slot) (map node_view here.now)) }
{
    let mut nodes = Vec::new(alloc);
    for node in here {
        push_under(alloc, node, slot, &mut nodes)?;
    }
    Ok(nodes)
}

// Puts the comprehensions of one bag at the end. Where it has none, nothing is copied for it.
#[tactic(auto, using(nq_ir::proofs::Forms::form_is))]
fn push_under<'a>(
    alloc: Global,
    node: &Node<'a>,
    slot: usize,
    nodes: &mut Vec<Node<'a>>,
) -> Result<(), Memory>
    ensures { OnOk result (map node_view nodes.new.items
        ≡ map node_view nodes.old.items ++ under_node slot (node_view node.now)) }
{
    match node.bags.get(slot) {
        Some(bag) if !bag.parts.is_empty() => {
            let inner = within(alloc, &node.strand)?;
            push_nodes(alloc, &inner, bag.parts.as_slice(), nodes)
        }
        _ => Ok(()),
    }
}

// What stands around the body of a strand's comprehension.
#[tactic(auto, using(crate::proofs::Steps::conds_joined))]
fn within(alloc: Global, strand: &Strand) -> Result<Around, Memory>
    ensures parent { IfOk result (λ inner. inner.parent ≡ strand.now.tag) }
    ensures gens { IfOk result
        (λ inner. inner.gens ≡ (strand_tree strand.now).outer_gens ++ strand.now.gens) }
    ensures conds { IfOk result
        (λ inner. conds_tree inner.conds
        ≡ both (strand_tree strand.now).outer_conds (strand_tree strand.now).conds) }
{
    Ok(Around {
        parent: strand.tag,
        gens: joined_gens(alloc, strand.outer_gens.as_slice(), strand.gens.as_slice())?,
        conds: joined_conds(
            alloc,
            strand.outer_conds.as_slice(),
            strand.conds.as_slice(),
        )?,
    })
}

/// The strands alone.
pub fn strands_of(alloc: Global, nodes: Vec<Node<'_>>) -> Result<List<Strand>, Memory>
    ensures { IfOk result (λ strands. map strand_tree strands ≡ map
        (λ d. d.0) (map node_view nodes.entry.items)) }
{
    let mut strands = List::with_capacity(alloc, nodes.len())?;
    for node in nodes {
        strands.push(node.strand)?;
    }
    Ok(strands)
}
