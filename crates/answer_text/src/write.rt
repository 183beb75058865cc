// The canonical texts of the values of parts.
ghost use Rattle.std.specs.Prelude.{◌≡◌, ◌++◌, OnOk, string_bytes};
ghost use Rattle.nq_model.specs.Canonical.{written};
ghost use Rattle.nq_model.specs.Values.{rec};
ghost use Rattle.rows.specs.Places.{row_at};
ghost use Rattle.answer_text.specs.Parts.{value_in, fields_in, bag_in};

use crate::heading::Heading;
use crate::part::Part;
use crate::read::{cell_at, index_at};
use canon::{write_cell, write_separator};
use nq_model::Memory;
use rows::Rows;

// The text of the value of a part in a row.
#[cycle(write)]
#[tactic(auto, using(crate::proofs::PartValues::part_values))]
fn write_part(text: &mut String, part: &Part, rows: &Rows, row: usize) -> Result<(), Memory>
    ensures { OnOk result (string_bytes text.new
        ≡ string_bytes text.old ++ written (value_in part.now (row_at rows.now row))) }
{
    match part {
        Part::Cell(column) => write_cell(text, &cell_at(rows, row, *column)),
        Part::Record(fields) => write_fields(text, fields.as_slice(), rows, row),
        Part::Bag(column, groups, element) => {
            let places = groups.places_under(index_at(rows, row, *column));
            write_bag(text, element, &groups.rows, places)
        }
    }
}

// The text of the record of fields in a row.
#[cycle(write)]
#[tactic(auto, using(crate::proofs::PartValues::part_values))]
fn write_fields(
    text: &mut String,
    fields: &[(Heading, Part)],
    rows: &Rows,
    row: usize,
) -> Result<(), Memory>
    ensures { OnOk result (string_bytes text.new
        ≡ string_bytes text.old ++ written (rec (fields_in fields.now (row_at rows.now row)))) }
{
    text.push_str("(")?;
    for (i, (heading, part)) in fields.iter().enumerate() {
        heading.write(text, i)?;
        write_part(text, part, rows, row)?;
    }
    text.push_str(")")?;
    Ok(())
}

/// The text of the bag of the elements that the rows at these places are, in their order.
#[cycle(write)]
#[tactic(auto, using(crate::proofs::PartValues::part_values))]
pub(crate) fn write_bag(
    text: &mut String,
    element: &Part,
    rows: &Rows,
    places: &[u32],
) -> Result<(), Memory>
    ensures { OnOk result (string_bytes text.new
        ≡ string_bytes text.old ++ written (bag_in element.now rows.now places.now)) }
{
    text.push_str("{")?;
    for i in 0..places.len() {
        write_separator(text, i)?;
        write_part(text, element, rows, places[i] as usize)?;
    }
    text.push_str("}")?;
    Ok(())
}
