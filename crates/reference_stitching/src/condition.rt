// What stitching asks of answers.
ghost use Rattle.std.specs.Prelude.{◌≡◌, IfOk, IsTrue};
ghost use Rattle.nq_model.specs.Types.{type_tree};
ghost use Rattle.nq_ir.specs.Parts.{element_types};
ghost use Rattle.stitcher.specs.Stitching.{rows_of, AreAnswersOf};

use nq_model::{Memory, Ty};
use shred_types::paths;
use sql_profile::{Answer, fits};
use std::alloc::Global;
use stitcher::IndexScheme;

/// Whether there is one answer for each path of the scheme's type, and each fits the columns of its
/// path.
pub fn are_answers<S: IndexScheme>(
    alloc: Global,
    scheme: &S,
    of: &Ty,
    answers: &[Answer],
) -> Result<bool, Memory>
    requires { (S.scheme scheme.now).elements ≡ element_types (type_tree of.now) }
    ensures { IfOk result (λ are. IsTrue are
        → AreAnswersOf (S.scheme scheme.now) (type_tree of.now) (rows_of answers.now)) }
{
    let paths = paths(alloc, of)?;
    if answers.len() != paths.len() {
        return Ok(false);
    }
    for path in 0..answers.len() {
        let columns = scheme.columns(alloc, path as u64)?;
        if fits(&answers[path], columns.as_slice()).is_err() {
            return Ok(false);
        }
    }
    Ok(true)
}
