// Reads schema texts.
ghost use Rattle.std.specs.Prelude.{◌≡◌, ℕ, IfOk, IfErr, IsErrAnd, MatchResult};
ghost use Rattle.nq_model.specs.SchemaTexts.{Fault, HasFault, Spells};
ghost use Rattle.nq_model.specs.Tables.{IsProperSchema};
ghost use Rattle.nq_model.specs.declared.table.Schema.{Schema as SchemaValue};
ghost use Rattle.schema_reader.specs.Answers.{HasCause, IsFault, Reads};

use crate::fault::SchemaFault;
use crate::shapes::schema_of;
use crate::written::read_tables;
use nq_model::Schema;
use std::alloc::Global;
use std::str;

fn read(alloc: Global, text: &[u8]) -> Result<Schema, SchemaFault>
    ensures { Reads result text.now }
{
    if let Err(error) = str::from_utf8(text) {
        return Err(SchemaFault::NotUtf8 {
            place: error.valid_up_to() as u64,
        });
    }
    let tables = read_tables(alloc, text)?;
    schema_of(alloc, tables.as_slice())
}

/// The schema that a text spells, or the text's one fault with its place. `Memory` where there is
/// too little memory.
pub fn read_schema(alloc: Global, text: &[u8]) -> Result<Schema, SchemaFault>
    ensures ok { IfOk result (λ schema. IsProperSchema schema × Spells text.now schema) }
    ensures err { IfErr result (HasCause text.now) }

    // The other way round, but for want of memory.
    ensures spelled { (schema : SchemaValue) → Spells text.now schema
        → MatchResult result (λ found. found ≡ schema) (λ e. e ≡ SchemaFault.Memory) }
    ensures faulty { (f : Fault) (place : ℕ) → HasFault text.now f place
        → IsErrAnd result (IsFault f place) }
{
    read(alloc, text)
}
