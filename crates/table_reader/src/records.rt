// The records of a text, read one at a time.
ghost use Rattle.std.specs.Prelude.{◌≡◌, ◌<◌, ℕ, List, [], length, IfOk, slice_index_or};
ghost use Rattle.csv.specs.Records.{fields_of};
ghost use Rattle.table_reader.specs.Records.{Record, HasRead, ReadsOne};

use csv::{ByteRecord, Reader, ReaderBuilder};
use nq_model::Memory;
use std::alloc::Global;

// A reader at the beginning of a text, whose records may differ in length.
pub(crate) fn reader_of<'a>(alloc: Global, text: &'a [u8]) -> Reader<&'a [u8]>
    ensures { HasRead text.now result [] }
{
    ReaderBuilder::new()
        .has_headers(false)
        .flexible(true)
        .from_reader(alloc, text)
}

// Whether there is one more record, which then stands in `fields` in place of the last one. Reading
// from memory fails only for want of memory.
pub(crate) fn read_next(reader: &mut Reader<&[u8]>, fields: &mut ByteRecord) -> Result<bool, Memory>
    ensures { IfOk result (λ found. (text : List ℕ) (given : List Record)
        → HasRead text reader.old given
        → ReadsOne found (fields_of fields.new) text reader.new given) }
{
    let Ok(found) = reader.read_byte_record(fields) else {
        return Err(Memory);
    };
    Ok(found)
}

// The field at a place.
#[tactic(auto, using(crate::proofs::CellFacts::cell_rules))]
pub(crate) fn field_at(fields: &ByteRecord, at: usize) -> &[u8]
    requires { at < length (fields_of fields.now) }
    ensures { result.now ≡ slice_index_or (fields_of fields.now) at [] }
{
    let Some(field) = fields.get(at) else {
        unreachable!()
    };
    field
}
