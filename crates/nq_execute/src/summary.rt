// The summary of a value: how many elements it has at each level, and how long its text is.
ghost use Rattle.std.specs.Prelude.{◌≡◌, ◌++◌, IfOk, OnOk, flat_map, length, map, string_bytes};
ghost use Rattle.nq_model.specs.Canonical.{canonical_text};
ghost use Rattle.nq_model.specs.Meaning.{value_under};
ghost use Rattle.nq_model.specs.Types.{type_tree};
ghost use Rattle.nq_model.specs.Values.{nested, bag_of, fields_of, fields_view, rec_of};
ghost use Rattle.shred_types.specs.Under.{steps_of};
ghost use Rattle.nq_execute.specs.Summaries.{elements_at, level_line, level_lines, summary_of};

use canon::{sort_deep, write};
use nq_ir::{Path, Step};
use nq_model::{Label, List, Memory, Ty, Value};
use shred_types::paths;
use std::alloc::Global;

// How many elements the bags have to which a path leads from a value, all together.
#[cycle(count)]
#[tactic(auto, using(crate::proofs::Summaries::value_rules))]
fn count_at(path: &[Step], value: &Value) -> Result<u64, Memory>
    ensures { IfOk result (λ count. count ≡ length (elements_at path.now (nested value.now))) }
{
    match value {
        Value::Int(_) | Value::Bool(_) | Value::Text(_) => Ok(0),
        Value::Rec(fields) => count_in_record(path, fields.as_slice()),
        Value::Bag(elements) => count_in_bag(path, elements.as_slice()),
    }
}

// The same from a record.
#[cycle(count)]
fn count_in_record(path: &[Step], fields: &[(Label, Value)]) -> Result<u64, Memory>
    ensures { IfOk result (λ count.
        count ≡ length (elements_at path.now (rec_of (fields_view fields.now)))) }
{
    match path.split_first() {
        None | Some((Step::Down, _)) => Ok(0),
        Some((Step::Field(label), rest)) => count_under(label.as_str(), rest, fields),
    }
}

// The same from a bag.
#[cycle(count)]
#[tactic(auto, using(crate::proofs::Summaries::bag_rules))]
fn count_in_bag(path: &[Step], elements: &[Value]) -> Result<u64, Memory>
    ensures { IfOk result (λ count.
        count ≡ length (elements_at path.now (bag_of (map nested elements.now)))) }
{
    match path.split_first() {
        None => Ok(elements.len() as u64),
        Some((Step::Down, rest)) => count_inside(rest, elements),
        Some((Step::Field(_), _)) => Ok(0),
    }
}

// The same from each of these elements.
#[cycle(count)]
fn count_inside(path: &[Step], elements: &[Value]) -> Result<u64, Memory>
    ensures { IfOk result (λ count.
        count ≡ length (flat_map (elements_at path.now) (map nested elements.now))) }
{
    let mut count: u64 = 0;
    for element in elements {
        let more = count_at(path, element)?;
        count = count.checked_add(more).ok_or(Memory)?;
    }
    Ok(count)
}

// The same from the field with a label.
#[cycle(count)]
fn count_under(label: &str, path: &[Step], fields: &[(Label, Value)]) -> Result<u64, Memory>
    ensures { IfOk result (λ count. count ≡ length
        (elements_at path.now (value_under label.now (fields_of (fields_view fields.now))))) }
{
    for field in fields {
        if field.0.as_str() == label {
            return count_at(path, &field.1);
        }
    }
    Ok(0)
}

// Puts the line of a level.
fn put_level(text: &mut String, level: u64, count: u64) -> Result<(), Memory>
    ensures { OnOk result
        (string_bytes text.new ≡ string_bytes text.old ++ level_line level count) }
{
    write!(text, "level {level} {count}\n")?;
    Ok(())
}

// Puts a line for each path.
fn put_levels(text: &mut String, paths: &[Path], value: &Value) -> Result<(), Memory>
    ensures { OnOk result (string_bytes text.new
        ≡ string_bytes text.old ++ level_lines 1 (steps_of paths.now) (nested value.now)) }
{
    for (at, path) in paths.iter().enumerate() {
        let count = count_at(path.steps.as_slice(), value)?;
        put_level(text, at as u64 + 1, count)?;
    }
    Ok(())
}

// How long the canonical text of a value is.
fn text_length(alloc: Global, value: Value) -> Result<u64, Memory>
    ensures { IfOk result (λ bytes. bytes ≡ length (canonical_text (nested value))) }
{
    let sorted = sort_deep(alloc, value)?;
    let text = write(alloc, &sorted)?;
    Ok(text.len() as u64)
}

/// The summary of a value of this type.
#[tactic(auto, unfolding(crate::specs::Summaries::summary_of))]
pub fn summarise(alloc: Global, of: &Ty, value: Value) -> Result<List<u8>, Memory>
    ensures { IfOk result (λ text. text ≡ summary_of (type_tree of.now) (nested value)) }
{
    let paths = paths(alloc, of)?;
    let mut text = String::new(alloc);
    write!(text, "texts {}\n", paths.len())?;
    put_levels(&mut text, paths.as_slice(), &value)?;
    let bytes = text_length(alloc, value)?;
    write!(text, "bytes {bytes}\n")?;
    Ok(List::from_vec(text.into_bytes()))
}
