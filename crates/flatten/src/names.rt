// The names in the text of a let form.
ghost use Rattle.std.specs.Prelude.{◌≡◌, ◌≤◌, IfOk};
ghost use Rattle.flatten.specs.Names.{with_name, let_alias, alias, outer_column, number_name, answer_name, one_name};

use nq_model::{Label, Memory};
use std::alloc::Global;

/// `q.k`, the WITH query of the let with the number k.
#[tactic(auto, unfolding(crate::specs::Names::with_name), using(crate::proofs::Apart::number_text_decimal))]
pub(crate) fn with_name(alloc: Global, number: u64) -> Result<Label, Memory>
    ensures { IfOk result (λ name. name ≡ with_name number) }
{
    let name = format!(in alloc; "q.{number}")?;
    Label::from_str(alloc, name.as_str())
}

/// `z`, where a WITH query is a source.
#[tactic(auto, unfolding(crate::specs::Names::let_alias))]
pub(crate) fn let_alias(alloc: Global) -> Result<Label, Memory>
    ensures { IfOk result (λ name. name ≡ let_alias) }
{
    Label::from_str(alloc, "z")
}

/// `xk`, the source of the generator k.
#[tactic(auto, unfolding(crate::specs::Names::alias), using(crate::proofs::Apart::number_text_decimal))]
pub(crate) fn alias(alloc: Global, number: u64) -> Result<Label, Memory>
    ensures { IfOk result (λ name. name ≡ alias number) }
{
    let name = format!(in alloc; "x{number}")?;
    Label::from_str(alloc, name.as_str())
}

/// `xk.c`, the column c of the generator k in a WITH query.
#[tactic(auto, unfolding(crate::specs::Names::outer_column), using(crate::proofs::Apart::number_text_decimal))]
pub(crate) fn outer_column(alloc: Global, number: u64, column: &str) -> Result<Label, Memory>
    ensures { IfOk result (λ name. name ≡ outer_column number column.now) }
{
    let name = format!(in alloc; "x{number}.{column}")?;
    Label::from_str(alloc, name.as_str())
}

/// `n`, the number of a row of a WITH query.
#[tactic(auto, unfolding(crate::specs::Names::number_name))]
pub(crate) fn number_name(alloc: Global) -> Result<Label, Memory>
    ensures { IfOk result (λ name. name ≡ number_name) }
{
    Label::from_str(alloc, "n")
}

/// The column of an answer with this place, from 0: `ot`, `on`, `c1`, `c2` and so on.
#[tactic(auto, unfolding(crate::specs::Names::answer_name))]
pub(crate) fn answer_name(alloc: Global, place: usize) -> Result<Label, Memory>
    ensures { IfOk result (λ name. name ≡ answer_name place) }
{
    if place >= 2 {
        return element_name(alloc, place);
    }
    if place == 1 {
        return Label::from_str(alloc, "on");
    }
    Label::from_str(alloc, "ot")
}

#[tactic(auto, using(crate::proofs::Apart::later_answer))]
fn element_name(alloc: Global, place: usize) -> Result<Label, Memory>
    requires { 2 ≤ place }
    ensures { IfOk result (λ name. name ≡ answer_name place) }
{
    let number = place - 1;
    let name = format!(in alloc; "c{number}")?;
    Label::from_str(alloc, name.as_str())
}

/// `one`, the only column in an emptiness test.
#[tactic(auto, unfolding(crate::specs::Names::one_name))]
pub(crate) fn one_name(alloc: Global) -> Result<Label, Memory>
    ensures { IfOk result (λ name. name ≡ one_name) }
{
    Label::from_str(alloc, "one")
}
