// Whether answers are linked.
ghost use Rattle.std.specs.Prelude.{◌≡◌, ◌≢◌, IfErr, OnOk};
ghost use Rattle.nq_model.specs.Types.{TypeTree, bag, type_tree};
ghost use Rattle.nq_ir.specs.Parts.{element_types};
ghost use Rattle.stitcher.specs.FlatNumbers.{flat_numbers};
ghost use Rattle.stitcher.specs.Linked.{link_fault, IsLinked};
ghost use Rattle.stitcher.specs.Stitching.{rows_of, AreAnswersOf};
ghost use Rattle.foreign_answers.specs.Faults.{told};
ghost use Rattle.foreign_answers.specs.declared.faults.LinkFault.TheVariants as fault;

use crate::columns::columns_of;
use crate::faults::LinkFault;
use crate::homes::homes_of;
use crate::judge::Judge;
use nq_model::{List, Ty};
use sql_profile::Answer;
use std::alloc::Global;
use stitcher::FlatNumbers;

/// Whether the answers of a bag type are linked by tag and number: each row stands in a bag that a
/// row of the enclosing answer gives, or in the whole value at the empty path, and no two rows of
/// an answer give one inner bag by the same index.
///
/// A fault is the first in path order and row order, of a row first by the bag that it stands in,
/// then by its inner bags in label order. `LinkFault::Memory` alone may come at any answers.
pub fn links(alloc: Global, of: &Ty, answers: &List<Answer>) -> Result<(), LinkFault>
    requires bag { (element : TypeTree) × (type_tree of.now ≡ bag element) }
    requires answers { AreAnswersOf (flat_numbers
        (element_types (type_tree of.now))) (type_tree of.now) (rows_of answers.now) }
    ensures linked { OnOk result (IsLinked (type_tree of.now) (rows_of answers.now)) }
    ensures fault { IfErr result (λ e. e ≢ fault.Memory → link_fault (type_tree of.now)
        (rows_of answers.now) ≡ told e) }
{
    let scheme = FlatNumbers::new(alloc, of)?;
    let homes = homes_of(alloc, of)?;
    let columns = columns_of(alloc, of)?;
    let judge = Judge {
        scheme: &scheme,
        answers: answers.as_slice(),
        homes: homes.as_slice(),
        columns: columns.as_slice(),
    };
    judge.all(alloc)
}
