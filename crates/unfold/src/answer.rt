// Unfolding a whole query.
ghost use Rattle.std.specs.Prelude.{◌≡◌, ◌≤◌, IfOk};
ghost use Rattle.nq_model.specs.Types.{TypeTree};
ghost use Rattle.nq_model.specs.Terms.{placed, term_tree};
ghost use Rattle.nq_model.specs.Typing.{IsAccepted};
ghost use Rattle.unfold.specs.Depths.{term_depth};
ghost use Rattle.unfold.specs.Environments.{walked};
ghost use Rattle.unfold.specs.Hereditary.{fuel};
ghost use Rattle.unfold.specs.Unfolded.{IsUnfolding};

use crate::built::{Built, depth};
use crate::counts::count_uses;
use crate::fuel::fuel;
use crate::walk::walk_query;
use nq_model::{Memory, Schema, Term};
use std::alloc::Global;

/// The deepest term that is answered, so that what recurses on it later needs no more stack than
/// that.
pub const DEEPEST: u64 = 2_000;

/// The plain term that the steps of unfolding reach, places included, of the same type.
///
/// Want of memory is also the answer where the term is deeper than `DEEPEST`, where one built on
/// the way is deeper than the limit for those, and where the walks would take more of the stack
/// than their room. Nothing is read from the schema: it says over which tables the term is typed.
pub fn unfold(alloc: Global, schema: &Schema, term: Term) -> Result<Term, Memory>
    requires { (type : TypeTree) × IsAccepted schema.now (term_tree term) type }
    ensures reached { IfOk result (λ t. IsUnfolding schema.now (placed term) (placed t)) }
    ensures shallow { IfOk result (λ t. term_depth (term_tree t) ≤ 2000) }
{
    unfold_by_rank(alloc, term)
}

pub(crate) fn unfold_by_rank(alloc: Global, term: Term) -> Result<Term, Memory>
    ensures exact { IfOk result (λ t. placed t ≡ walked (placed term)) }
    ensures shallow { IfOk result (λ t. term_depth (term_tree t) ≤ 2000) }
{
    let (rank, uses) = counted(alloc, &term)?;
    let done = walk_query(alloc, rank, uses, term)?;
    shallow(done)
}

// What a walk has to know of the term before it begins.
fn counted(alloc: Global, term: &Term) -> Result<(u64, Vec<u64>), Memory>
    ensures { IfOk result (λ counts. counts.0 ≡ fuel (term_tree term.now)) }
{
    let rank = fuel(term)?;
    let uses = count_uses(alloc, term)?;
    Ok((rank, uses))
}

// The term, where it is not deeper than what is answered.
fn shallow(done: Built<Term>) -> Result<Term, Memory>
    ensures exact { IfOk result (λ t. t ≡ done.term) }
    ensures shallow { IfOk result (λ t. term_depth (term_tree t) ≤ 2000) }
{
    let Built { term, deep: _deep } = done;
    refuse_deeper(&term)?;
    Ok(term)
}

fn refuse_deeper(term: &Term) -> Result<(), Memory>
    ensures { IfOk result (λ _. term_depth (term_tree term.now) ≤ 2000) }
{
    if depth(term)? > DEEPEST {
        return Err(Memory);
    }
    Ok(())
}
