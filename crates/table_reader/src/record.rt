// One record of a text.
ghost use Rattle.std.specs.Prelude.{◌≡◌, IfOk, option_map, slice_get};
ghost use Rattle.csv.specs.Records.{fields_of};
ghost use Rattle.table_reader.specs.Records.{records_of};

use crate::records::{read_next, reader_of};
use csv::ByteRecord;
use nq_model::Memory;
use std::alloc::Global;

/// The record of a text with this number, counted from 0, so that the header is 0 and a row has its
/// own number; `None` if the text has no such record. Fails only if memory runs out.
pub fn record_at(alloc: Global, text: &[u8], number: u64) -> Result<Option<ByteRecord>, Memory>
    ensures { IfOk result (λ found.
        slice_get (records_of text.now) number ≡ option_map fields_of found) }
{
    let mut reader = reader_of(alloc, text);
    let mut fields = ByteRecord::new(alloc);
    for _at in 0..number {
        if !read_next(&mut reader, &mut fields)? {
            return Ok(None);
        }
    }
    if read_next(&mut reader, &mut fields)? {
        Ok(Some(fields))
    } else {
        Ok(None)
    }
}
