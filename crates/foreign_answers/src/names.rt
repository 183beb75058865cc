// The names of the columns of an answer.
ghost use Rattle.std.specs.Prelude.{◌≡◌, ◌≤◌, IfOk};
ghost use Rattle.flatten.specs.Names.{answer_name};

use nq_model::{Label, Memory};
use std::alloc::Global;

/// The column of an answer with this place, from 0: `ot`, `on`, `c1`, `c2` and so on.
#[tactic(auto, unfolding(flatten::specs::Names::answer_name))]
pub(crate) fn answer_name(alloc: Global, place: usize) -> Result<Label, Memory>
    ensures { IfOk result (λ name. name ≡ answer_name place) }
{
    match place {
        0 => Label::from_str(alloc, "ot"),
        1 => Label::from_str(alloc, "on"),
        _ => element_name(alloc, place),
    }
}

#[tactic(auto, using(flatten::proofs::Apart::later_answer))]
fn element_name(alloc: Global, place: usize) -> Result<Label, Memory>
    requires { 2 ≤ place }
    ensures { IfOk result (λ name. name ≡ answer_name place) }
{
    let number = place - 1;
    let name = format!(in alloc; "c{number}")?;
    Label::from_str(alloc, name.as_str())
}
