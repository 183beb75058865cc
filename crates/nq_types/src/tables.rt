// The tables of a schema, found by name.
ghost use Rattle.std.specs.Prelude.{◌≡◌, IfOk, option_copied};
ghost use Rattle.nq_model.specs.Tables.{table_type};
ghost use Rattle.nq_model.specs.Types.{type_tree};
ghost use Rattle.nq_model.specs.Typing.{shape_named};
ghost use Rattle.nq_types.specs.Indexes.{TellsPlaces};

use nq_model::{ColumnType, Label, List, Memory, Schema, TableShape, Ty, boxed, in_label_order};
use std::alloc::Global;
use std::collections::BTreeMap;

// A schema, and the places of its tables by name.
#[derive(Drop)]
pub(crate) struct Tables<'a> {
    schema: &'a Schema,
    places: BTreeMap<String, usize>,
    ghost indexed: { TellsPlaces 0 schema.now.tables places },
}

// The places of tables by name.
fn places_of(alloc: Global, shapes: &[TableShape]) -> Result<BTreeMap<String, usize>, Memory>
    ensures { IfOk result (TellsPlaces 0 shapes.now) }
{
    let mut places = BTreeMap::new(alloc);
    let mut place = shapes.len();
    while place > 0 {
        place -= 1;
        let name = String::from_str(alloc, shapes[place].name.as_str())?;
        places.insert(name, place)?;
    }
    Ok(places)
}

impl<'a> Tables<'a> {
    pub(crate) fn new(alloc: Global, schema: &'a Schema) -> Result<Tables<'a>, Memory>
        ensures { IfOk result (λ tables. tables.schema.now ≡ schema.now) }
    {
        let places = places_of(alloc, schema.tables.as_slice())?;
        Ok(Tables { schema, places })
    }

    // The first table of that name.
    pub(crate) fn named(&self, name: &str) -> Option<&TableShape>
        ensures { option_copied result ≡ shape_named name.now self.now.schema.now.tables }
    {
        match self.places.get(name) {
            Some(place) => self.schema.tables.get(*place),
            None => None,
        }
    }
}

// The type of a table with these columns: a bag of records.
#[tactic(auto, using(nq_model::proofs::Terms::type_of_record))]
pub(crate) fn table_type(alloc: Global, columns: &[(Label, ColumnType)]) -> Result<Ty, Memory>
    ensures { IfOk result (λ ty. type_tree ty ≡ table_type columns.now) }
{
    let mut fields = List::with_capacity(alloc, columns.len())?;
    for column in columns {
        fields.push((column.0.copy(alloc)?, Ty::of_base(column.1)))?;
    }
    let row = Ty::Rec(in_label_order(fields)?);
    Ok(Ty::Bag(boxed(alloc, row)?))
}
