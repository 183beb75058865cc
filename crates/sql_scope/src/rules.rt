// The rules of expressions, each at the types of its parts.
ghost use Rattle.std.specs.Prelude.{◌≡◌};
ghost use Rattle.nq_model.specs.Operators.{binary_type, unary_type};
ghost use Rattle.nq_model.specs.declared.table.ColumnType.TheVariants.{Bool as truth, Int as number};
ghost use Rattle.sql_profile.specs.Scope.{choose_type, column_type, found, or_broken, wants};
ghost use Rattle.sql_scope.specs.Steps.{Gives, aliases_in};

use crate::aliases::Scope;
use crate::base::{binary_type, unary_type};
use crate::fault::ScopeFault;
use nq_model::{Binary, ColumnType, Label, Unary};

pub(crate) fn column(
    scope: &Scope<'_, '_, '_>,
    place: u64,
    alias: &Label,
    name: &Label,
) -> Result<ColumnType, ScopeFault>
    ensures { Gives result (column_type place (found alias.now (aliases_in scope.now)) name.now) }
{
    match scope.find(alias) {
        Some(columns) => match columns.get(name) {
            Some(ty) => Ok(*ty),
            None => Err(ScopeFault::Broken { rule: 4, place }),
        },
        None => Err(ScopeFault::Broken { rule: 3, place }),
    }
}

pub(crate) fn unary(op: Unary, place: u64, of: ColumnType) -> Result<ColumnType, ScopeFault>
    ensures { Gives result (or_broken 5 place (unary_type op of)) }
{
    match unary_type(op, of) {
        Some(given) => Ok(given),
        None => Err(ScopeFault::Broken { rule: 5, place }),
    }
}

pub(crate) fn binary(
    op: Binary,
    place: u64,
    left: ColumnType,
    right: ColumnType,
) -> Result<ColumnType, ScopeFault>
    ensures { Gives result (or_broken 5 place (binary_type op left right)) }
{
    match binary_type(op, left, right) {
        Some(given) => Ok(given),
        None => Err(ScopeFault::Broken { rule: 5, place }),
    }
}

pub(crate) fn choice(
    place: u64,
    test: ColumnType,
    yes: ColumnType,
    no: ColumnType,
) -> Result<ColumnType, ScopeFault>
    ensures { Gives result (choose_type place test yes no) }
{
    if test == ColumnType::Bool && yes == no {
        Ok(yes)
    } else {
        Err(ScopeFault::Broken { rule: 6, place })
    }
}

pub(crate) fn summed(place: u64, given: ColumnType) -> Result<ColumnType, ScopeFault>
    ensures { Gives result (wants number given 10 place) }
{
    match given {
        ColumnType::Int => Ok(ColumnType::Int),
        ColumnType::Bool | ColumnType::Text => Err(ScopeFault::Broken { rule: 10, place }),
    }
}

pub(crate) fn condition(place: u64, given: ColumnType) -> Result<ColumnType, ScopeFault>
    ensures { Gives result (wants truth given 6 place) }
{
    match given {
        ColumnType::Bool => Ok(ColumnType::Bool),
        ColumnType::Int | ColumnType::Text => Err(ScopeFault::Broken { rule: 6, place }),
    }
}
