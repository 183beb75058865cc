// The columns of an answer as JSON.
ghost use Rattle.std.specs.Prelude.{◌≡◌, ◌≤◌, IfOk};
ghost use Rattle.nq_model.specs.SchemaTexts.{type_word};
ghost use Rattle.serde_json.specs.Data.{array};
ghost use Rattle.serde_json.specs.View.{items_of, view};
ghost use Rattle.query_json.specs.Names.{column_name};
ghost use Rattle.query_json.specs.QueryForms.{column_json, columns_from};

use nq_model::{ColumnType, Label, Memory};
use serde_json::{Value as Json, json};
use std::alloc::Global;

/// The name of the column of an answer with this place, from 0: `ot`, `on`, `c1`, `c2` and so on.
/// Fails only if memory runs out.
pub fn column_name(alloc: Global, place: usize) -> Result<Label, Memory>
    ensures { IfOk result (λ name. name ≡ column_name place) }
{
    match place {
        0 => Label::from_str(alloc, "ot"),
        1 => Label::from_str(alloc, "on"),
        _ => element_name(alloc, place),
    }
}

#[tactic(auto, using(crate::proofs::NameFacts::later_name))]
fn element_name(alloc: Global, place: usize) -> Result<Label, Memory>
    requires { 2 ≤ place }
    ensures { IfOk result (λ name. name ≡ column_name place) }
{
    let number = place - 1;
    let name = format!(in alloc; "c{number}")?;
    Label::from_str(alloc, name.as_str())
}

// The word of a base type.
fn type_word(ty: ColumnType) -> &'static str
    ensures { result.now ≡ type_word ty }
{
    match ty {
        ColumnType::Int => "int",
        ColumnType::Bool => "bool",
        ColumnType::Text => "text",
    }
}

fn column_json(alloc: Global, place: usize, ty: ColumnType) -> Result<Json, Memory>
    ensures { IfOk result (λ made. view made ≡ column_json place ty) }
{
    let name = column_name(alloc, place)?;
    let made = json!(in alloc; {"name": name.as_str(), "type": type_word(ty)})?;
    Ok(made)
}

/// The array of columns of these types.
pub(crate) fn columns_json(alloc: Global, columns: &[ColumnType]) -> Result<Json, Memory>
    ensures { IfOk result (λ made. view made ≡ array (items_of (columns_from 0 columns.now))) }
{
    let mut items = Vec::with_capacity(alloc, columns.len())?;
    for (place, ty) in columns.iter().enumerate() {
        items.push(column_json(alloc, place, *ty)?)?;
    }
    Ok(Json::from(items))
}
