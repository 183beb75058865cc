// Whether a program has a type, and which.
ghost use Rattle.std.specs.Prelude.{◌≡◌, ℕ, IfOk, IfErr, IsErrAnd, MatchResult, [], Err};
ghost use Rattle.nq_model.specs.Types.{TypeTree, type_tree};
ghost use Rattle.nq_model.specs.Terms.{placed, term_tree};
ghost use Rattle.nq_model.specs.Typing.{HasType, IsAccepted};
ghost use Rattle.nq_model.specs.Judging.{program_judged, broken};
ghost use Rattle.nq_types.specs.Answers.{HasCause, IsIll};
ghost use Rattle.nq_types.specs.Steps.{Gives};

use crate::fault::CheckFault;
use crate::rules::body;
use crate::scope::Scope;
use crate::tables::Tables;
use crate::walk::check_term;
use nq_model::{Schema, Term, Ty};
use std::alloc::Global;

// The verdict on the program.
#[tactic(auto, using(crate::proofs::Outcomes::program_verdict))]
fn judge(alloc: Global, schema: &Schema, term: &Term) -> Result<Ty, CheckFault>
    ensures { Gives result (program_judged schema.now (placed term.now)) }
{
    let tables = Tables::new(alloc, schema)?;
    let ty = check_term(alloc, &tables, &Scope::Outermost, term)?;
    body(23, term.place, ty)
}

/// The type of a program over a schema, which is a plain bag and the only type that it has; or the
/// first broken typing rule and its place. `Memory` where there is too little memory.
///
/// After Cheney, Lindley and Wadler, "Query Shredding", SIGMOD 2014.
pub fn check(alloc: Global, schema: &Schema, term: &Term) -> Result<Ty, CheckFault>
    ensures ok { IfOk result (λ ty. IsAccepted schema.now (term_tree term.now) (type_tree ty)) }
    ensures only { IfOk result
        (λ ty. (a : TypeTree) → HasType schema.now [] (term_tree term.now) a → a ≡ type_tree ty) }
    ensures err { IfErr result (HasCause schema.now (placed term.now)) }

    // The other way round, but for want of memory.
    ensures accepted { (a : TypeTree) → IsAccepted schema.now (term_tree term.now) a
        → MatchResult result (λ ty. type_tree ty ≡ a) (λ e. e ≡ CheckFault.Memory) }
    ensures refused { (rule place : ℕ)
        → program_judged schema.now (placed term.now) ≡ Err (broken rule place)
        → IsErrAnd result (IsIll rule place) }
{
    judge(alloc, schema, term)
}
