// The lines of `show paths`.
ghost use Rattle.std.specs.Prelude.{◌≡◌, ◌++◌, IfOk, OnOk, drop};
ghost use Rattle.nq_model.specs.SchemaTexts.{type_word};
ghost use Rattle.nq_model.specs.Types.{type_tree};
ghost use Rattle.nq_ir.specs.Paths.{element_at};
ghost use Rattle.shred_types.specs.Columns.{element_columns};
ghost use Rattle.shred_types.specs.Under.{steps_of};
ghost use Rattle.command_line.specs.Paths.{step_text, path_text, columns_text, path_line, path_lines, paths_text};

use nq_ir::{Path, Step};
use nq_model::{ColumnType, List, Memory, Ty};
use shred_types::{columns_at, paths};
use std::alloc::Global;

/// A line for each path of a type, in path order: the path, and the types of the columns of its
/// answer.
#[tactic(auto, unfolding(crate::specs::Paths::paths_text))]
pub fn paths_text(alloc: Global, of: &Ty) -> Result<List<u8>, Memory>
    ensures { IfOk result (λ text. text ≡ paths_text (type_tree of.now)) }
{
    let all = paths(alloc, of)?;
    let mut text = List::new(alloc);
    put_lines(alloc, &mut text, of, &all)?;
    Ok(text)
}

// Puts the lines of paths.
#[tactic(auto, using(crate::proofs::Appended::put_one))]
fn put_lines(alloc: Global, text: &mut List<u8>, of: &Ty, paths: &List<Path>) -> Result<(), Memory>
    ensures { OnOk result (text.new
        ≡ text.old ++ path_lines (type_tree of.now) (steps_of paths.now)) }
{
    for at in 0..paths.len() {
        put_line(alloc, text, of, &paths.as_slice()[at])?;
    }
    Ok(())
}

// Puts the line of a path.
fn put_line(alloc: Global, text: &mut List<u8>, of: &Ty, path: &Path) -> Result<(), Memory>
    ensures { OnOk result (text.new ≡ text.old ++ path_line (type_tree of.now) path.now.steps) }
{
    put_path(text, path.steps.as_slice())?;
    text.extend_from_slice(b": int int |")?;
    put_element(alloc, text, of, path)?;
    text.push(b'\n')?;
    Ok(())
}

// Puts the types of the columns of the element at a path.
fn put_element(alloc: Global, text: &mut List<u8>, of: &Ty, path: &Path) -> Result<(), Memory>
    ensures { OnOk result (text.new
        ≡ text.old ++ columns_text
        (element_columns (element_at (type_tree of.now) path.now.steps))) }
{
    let columns = columns_at(alloc, of, path)?;
    put_columns(text, behind_index(columns.as_slice()))
}

/// Puts a path: `/`, and then its steps.
pub(crate) fn put_path(text: &mut List<u8>, steps: &[Step]) -> Result<(), Memory>
    ensures { OnOk result (text.new ≡ text.old ++ path_text steps.now) }
{
    text.push(b'/')?;
    for step in steps {
        put_step(text, step)?;
    }
    Ok(())
}

fn put_step(text: &mut List<u8>, step: &Step) -> Result<(), Memory>
    ensures { OnOk result (text.new ≡ text.old ++ step_text step.now) }
{
    match step {
        Step::Down => text.extend_from_slice(b"[]"),
        Step::Field(label) => {
            text.push(b'.')?;
            text.extend_from_slice(label.as_str().as_bytes())
        }
    }
}

// The columns behind the two of the outer index.
fn behind_index(columns: &[ColumnType]) -> &[ColumnType]
    ensures { result.now ≡ drop 2 columns.now }
{
    match columns {
        [_, _, element @ ..] => element,
        _ => &[],
    }
}

// Puts the types of columns.
fn put_columns(text: &mut List<u8>, columns: &[ColumnType]) -> Result<(), Memory>
    ensures { OnOk result (text.new ≡ text.old ++ columns_text columns.now) }
{
    for ty in columns {
        text.push(b' ')?;
        text.extend_from_slice(type_word(*ty).as_bytes())?;
    }
    Ok(())
}

// The word of a base type.
fn type_word(ty: ColumnType) -> &'static str
    ensures { result.now ≡ type_word ty }
{
    match ty {
        ColumnType::Int => "int",
        ColumnType::Bool => "bool",
        ColumnType::Text => "text",
    }
}
