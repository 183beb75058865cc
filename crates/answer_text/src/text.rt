// The canonical text of what answers stitch to.
ghost use Rattle.std.specs.Prelude.{◌≡◌, ◌++◌, IfOk, codes, pos};
ghost use Rattle.nq_model.specs.Canonical.{canonical_text, written};
ghost use Rattle.nq_model.specs.Types.{type_tree, bag};
ghost use Rattle.nq_ir.specs.NormalForms.{element_type};
ghost use Rattle.nq_ir.specs.Parts.{element_types};
ghost use Rattle.stitcher.specs.FlatNumbers.{flat_numbers};
ghost use Rattle.stitcher.specs.Schemes.{stitched};
ghost use Rattle.stitcher.specs.Stitching.{rows_of};
ghost use Rattle.answer_text.specs.Building.{rows_left};
ghost use Rattle.answer_text.specs.Elements.{bag_value};

use crate::build::{Bags, bags_of};
use crate::size::rows_size;
use crate::write::write_bag;
use nq_model::{List, Memory, Ty};
use sql_profile::Answer;
use std::alloc::Global;

// Answers with the last first.
#[tactic(auto, using(crate::proofs::Building::turned))]
fn reversed(answers: List<Answer>) -> List<Answer>
    ensures { rows_left result ≡ rows_of answers }
{
    let mut left = answers.into_vec();
    left.reverse();
    List::from_vec(left)
}

// The text of the bag of elements of a type under the index of the top.
#[tactic(auto, using(crate::proofs::Building::bag_written))]
fn bag_text(alloc: Global, of: &Ty, answers: List<Answer>) -> Result<List<u8>, Memory>
    ensures { IfOk result (λ text. text
        ≡ written (bag_value (type_tree of.now) (rows_of answers) (pos 0, pos 1)) ++ codes "\n") }
{
    let mut left = reversed(answers);
    let Bags { groups, element } = bags_of(alloc, of, &mut left)?;
    let places = groups.places_under((0, 1));
    let size = rows_size(alloc, &element, &groups.rows)?;
    // Some room more, for quotes that are doubled and for what stands round all.
    let room = size.saturating_add(size / 32).saturating_add(16);
    let mut text = String::with_capacity(alloc, room)?;
    write_bag(&mut text, &element, &groups.rows, places)?;
    text.push_str("\n")?;
    Ok(List::from_vec(text.into_bytes()))
}

/// The canonical text of the value of a bag type to which answers stitch by tag and number, one for
/// each path of the type in path order. It is written from the answers: their rows are put in
/// groups and in order, and no value is built. Fails only if memory runs out.
#[tactic(auto, using(crate::proofs::Stitched::text_of_bag))]
pub fn answer_text(alloc: Global, of: &Ty, answers: List<Answer>) -> Result<List<u8>, Memory>
    requires bag { type_tree of.now ≡ bag (element_type (type_tree of.now)) }
    ensures { IfOk result (λ text. text
        ≡ canonical_text (stitched (flat_numbers (element_types (type_tree of.now)))
        (element_type (type_tree of.now)) (rows_of answers))) }
{
    match of {
        Ty::Bag(element) => {
            let text = bag_text(alloc, element, answers)?;
            Ok(text)
        }
        Ty::Int | Ty::Bool | Ty::Text | Ty::Rec(_) | Ty::Fun(_, _) => Ok(List::new(alloc)),
    }
}
