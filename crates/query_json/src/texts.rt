// A query as JSON.
ghost use Rattle.std.specs.Prelude.{◌≡◌, ◌≤◌, All, IfOk, Some, length};
ghost use Rattle.std.specs.Str.{IsUtf8};
ghost use Rattle.nq_ir.specs.NormalForms.{element_type};
ghost use Rattle.nq_ir.specs.Paths.{paths};
ghost use Rattle.nq_model.specs.Types.{bag, type_tree};
ghost use Rattle.serde_json.specs.Data.{array, depth, string};
ghost use Rattle.serde_json.specs.Read.{max_depth, read};
ghost use Rattle.serde_json.specs.View.{items_of, view};
ghost use Rattle.shred_types.specs.Columns.{columns_at};
ghost use Rattle.shred_types.specs.Under.{steps_of};
ghost use Rattle.query_json.specs.QueryForms.{parent_json, query_json, query_json_text, text_json, texts_json};

use crate::columns::columns_json;
use crate::parents::{Parent, parents};
use crate::path_form::path_text;
use crate::type_form::type_json;
use nq_ir::Path;
use nq_json::write_line;
use nq_model::{List, Memory, Ty};
use serde_json::{Map, Value as Json, json, put};
use shred_types::{columns_at, path_laws, paths};
use std::alloc::Global;
use std::str;

fn parent_json(alloc: Global, parent: Option<Parent>) -> Result<Json, Memory>
    ensures { IfOk result (λ made. view made ≡ parent_json parent) }
{
    match parent {
        None => Ok(Json::Null),
        Some(Parent { text, column }) => {
            let made = json!(in alloc; {"text": text, "column": column})?;
            Ok(made)
        }
    }
}

// A text as a string.
fn sql_json(alloc: Global, sql: &[u8]) -> Result<Json, Memory>
    requires { IsUtf8 sql.now }
    ensures { IfOk result (λ made. view made ≡ string sql.now) }
{
    let Ok(text) = str::from_utf8(sql) else {
        unreachable!();
    };
    Ok(Json::try_from_str(alloc, text)?)
}

// What stands at a path of a type.
fn text_json(
    alloc: Global,
    of: &Ty,
    path: &Path,
    parent: Option<Parent>,
    sql: &[u8],
) -> Result<Json, Memory>
    requires { IsUtf8 sql.now }
    ensures { IfOk result (λ made. view made
        ≡ text_json (columns_at (type_tree of.now) path.now.steps) parent path.now.steps sql.now) }
{
    let types = columns_at(alloc, of, path)?;
    let columns = columns_json(alloc, types.as_slice())?;
    let parent = parent_json(alloc, parent)?;
    let path = path_text(alloc, path.steps.as_slice())?;
    let sql = sql_json(alloc, sql)?;
    let mut members = Map::new(alloc);
    put(&mut members, alloc, "columns", columns)?;
    put(&mut members, alloc, "parent", parent)?;
    put(&mut members, alloc, "path", Json::from(path))?;
    put(&mut members, alloc, "sql", sql)?;
    Ok(Json::from(members))
}

// One for each path of a type.
fn texts_json(
    alloc: Global,
    of: &Ty,
    paths: &[Path],
    parents: &[Option<Parent>],
    texts: &[List<u8>],
) -> Result<Json, Memory>
    requires paths { length paths.now ≡ length texts.now }
    requires parents { length parents.now ≡ length texts.now }
    requires utf8 { All IsUtf8 texts.now }
    ensures { IfOk result (λ made. view made ≡ array (items_of
        (texts_json (type_tree of.now) (steps_of paths.now) parents.now texts.now))) }
{
    let mut items = Vec::with_capacity(alloc, texts.len())?;
    for at in 0..texts.len() {
        let sql = texts[at].as_slice();
        items.push(text_json(alloc, of, &paths[at], parents[at], sql)?)?;
    }
    Ok(Json::from(items))
}

// The object of a query.
fn query_json(alloc: Global, of: &Ty, texts: &[List<u8>]) -> Result<Json, Memory>
    requires bag { type_tree of.now ≡ bag (element_type (type_tree of.now)) }
    requires counted { length texts.now ≡ length (paths (type_tree of.now)) }
    requires utf8 { All IsUtf8 texts.now }
    ensures { IfOk result (λ made. view made ≡ query_json (type_tree of.now) texts.now) }
{
    path_laws();
    let all = paths(alloc, of)?;
    let around = parents(alloc, of)?;
    let asked = texts_json(alloc, of, all.as_slice(), around.as_slice(), texts)?;
    let shape = type_json(alloc, of)?;
    let made = json!(in alloc; {"texts": asked, "type": shape})?;
    Ok(made)
}

/// What a program needs that runs the texts of a query elsewhere, as one line of JSON: the type of
/// the query, a bag type, and for each of its paths, in path order, the path, its text, the columns
/// of its answer with their types, and the text and the column where the tags of its bags stand in
/// the answer around. It is read back where it nests at most 127 deep. Fails only if memory runs
/// out.
pub fn write_query_json(alloc: Global, of: &Ty, texts: &[List<u8>]) -> Result<List<u8>, Memory>
    requires bag { type_tree of.now ≡ bag (element_type (type_tree of.now)) }
    requires counted { length texts.now ≡ length (paths (type_tree of.now)) }
    requires utf8 { All IsUtf8 texts.now }
    ensures text { IfOk result
        (λ text. text ≡ query_json_text (type_tree of.now) texts.now) }
    ensures utf8 { IfOk result (λ text. IsUtf8 text) }
    ensures reads_back { IfOk result
        (λ text. depth (query_json (type_tree of.now) texts.now) ≤ max_depth
        → read text ≡ Some (query_json (type_tree of.now) texts.now)) }
{
    let form = query_json(alloc, of, texts)?;
    let text = write_line(alloc, &form)?;
    Ok(text)
}
