// Types as JSON.
ghost use Rattle.std.specs.Prelude.{◌≡◌, IfOk};
ghost use Rattle.nq_model.specs.Types.{type_tree, field_types_of, fields_view};
ghost use Rattle.serde_json.specs.View.{view, members_view};
ghost use Rattle.query_json.specs.TypeForms.{single, type_json, fields_json};

use nq_model::{Label, Memory, Ty};
use serde_json::{Map, Value as Json, json};
use std::alloc::Global;

// An object with one member.
fn single(alloc: Global, key: &str, member: Json) -> Result<Json, Memory>
    ensures { IfOk result (λ made. view made ≡ single key.now (view member)) }
{
    let made = json!(in alloc; {key: member})?;
    Ok(made)
}

/// The JSON form of a type.
#[cycle(form)]
#[tactic(auto, using(nq_model::proofs::Terms::type_of_record))]
pub(crate) fn type_json(alloc: Global, of: &Ty) -> Result<Json, Memory>
    ensures { IfOk result (λ made. view made ≡ type_json (type_tree of.now)) }
{
    match of {
        Ty::Int => Ok(Json::try_from_str(alloc, "int")?),
        Ty::Bool => Ok(Json::try_from_str(alloc, "bool")?),
        Ty::Text => Ok(Json::try_from_str(alloc, "text")?),
        Ty::Rec(fields) => {
            let members = fields_json(alloc, fields.as_slice())?;
            single(alloc, "record", Json::from(members))
        }
        Ty::Bag(element) => single(alloc, "bag", type_json(alloc, element)?),
        Ty::Fun(taken, given) => {
            let taken = type_json(alloc, taken)?;
            let given = type_json(alloc, given)?;
            let both = json!(in alloc; [taken, given])?;
            single(alloc, "fun", both)
        }
    }
}

// The members of the object of a record type.
#[cycle(form)]
fn fields_json(alloc: Global, fields: &[(Label, Ty)]) -> Result<Map<String, Json>, Memory>
    ensures { IfOk result (λ map.
        members_view map.entries ≡ fields_json (field_types_of (fields_view fields.now))) }
{
    let mut map = Map::new(alloc);
    for done in 0..fields.len() {
        let field = &fields[fields.len() - 1 - done];
        let member = type_json(alloc, &field.1)?;
        let name = String::from_str(alloc, field.0.as_str())?;
        drop(map.insert(name, member)?);
    }
    Ok(map)
}
