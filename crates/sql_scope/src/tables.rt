// The tables of a schema and the WITH queries so far, by name.
ghost use Rattle.std.specs.Prelude.{◌≡◌, ◌∷◌, IfOk, option_copied};
ghost use Rattle.sql_profile.specs.Scope.{found, shapes_of_schema};

use crate::names::{Columns, Names};
use nq_model::{ColumnType, Label, Memory, TableShape};
use std::alloc::Global;
use std::marker::Model;

// The tables, and the WITH queries so far, under names of their own. Contracts see the WITH
// queries, the newest first, and then the tables.
#[derive(Drop)]
pub(crate) struct Tables<'a> {
    tables: Names<'a, Columns<'a>>,
    withs: Names<'a, Columns<'a>>,
}

impl<'a> Model for Tables<'a> {
    ghost use Rattle.std.specs.Prelude.{◌≡◌, ◌++◌, ℕ, List};
    ghost use Rattle.sql_profile.specs.Scope.{Shapes, found};
    ghost use Rattle.sql_scope.specs.Names.{before};

    ghost Value = { Shapes };

    ghost view = { λ t. before t.withs t.tables };

    ghost invariant = { λ t. (name : List ℕ)
        → found name (before t.withs t.tables) ≡ found name (t.withs ++ t.tables) };
}

// The columns of a table.
fn columns_of<'a>(alloc: Global, columns: &'a [(Label, ColumnType)]) -> Result<Columns<'a>, Memory>
    ensures { IfOk result (λ made. made ≡ columns.now) }
{
    let mut made = Names::with_capacity(alloc, columns.len())?;
    for column in columns {
        made = made.with(&column.0, column.1)?;
    }
    Ok(made)
}

// The tables of a schema.
fn tables_of<'a>(alloc: Global, shapes: &'a [TableShape]) -> Result<Names<'a, Columns<'a>>, Memory>
    ensures { IfOk result (λ made. made ≡ shapes_of_schema shapes.now) }
{
    let mut made = Names::with_capacity(alloc, shapes.len())?;
    for shape in shapes {
        made = made.with(&shape.name, columns_of(alloc, shape.columns.as_slice())?)?;
    }
    Ok(made)
}

impl<'a> Tables<'a> {
    // The tables of a schema, with room for so many WITH queries.
    pub(crate) fn new(
        alloc: Global,
        shapes: &'a [TableShape],
        withs: usize,
    ) -> Result<Tables<'a>, Memory>
        ensures { IfOk result (λ made. made ≡ shapes_of_schema shapes.now) }
    {
        Ok(Tables {
            tables: tables_of(alloc, shapes)?,
            withs: Names::with_capacity(alloc, withs)?,
        })
    }

    // The columns of the newest WITH query of this name, or else of the table of this name.
    pub(crate) fn find(&self, name: &Label) -> Option<&Columns<'a>>
        ensures { option_copied result ≡ found name.now self.now }
    {
        match self.withs.get(name) {
            Some(columns) => Some(columns),
            None => self.tables.get(name),
        }
    }

    // These and one WITH query more, of a new name.
    pub(crate) fn with(self, name: &'a Label, columns: Columns<'a>) -> Result<Tables<'a>, Memory>
        requires { found name.now self ≡ None }
        ensures { IfOk result (λ more. more ≡ (name.now, columns.entry) ∷ self.entry) }
    {
        let Tables { tables, withs } = self;
        Ok(Tables {
            tables,
            withs: withs.with(name, columns)?,
        })
    }
}
