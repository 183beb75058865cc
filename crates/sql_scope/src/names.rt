// Values under names, the first of a name found by an ordered map, so that no choice of names makes
// the look-ups slow.
ghost use Rattle.std.specs.Prelude.{◌≡◌, ◌++◌, [], ◌∷◌, IfOk, map, option_copied};
ghost use Rattle.nq_model.specs.Tables.{types_of};
ghost use Rattle.sql_profile.specs.Scope.{found, same_types};

use nq_model::{ColumnType, Label, List, Memory};
use std::alloc::Global;
use std::collections::BTreeMap;
use std::marker::Model;

// A list of values under names, which contracts see as the list of its pairs.
#[derive(Drop)]
pub(crate) struct Names<'a, V> {
    listed: List<(&'a Label, V)>,
    // The place of the first under each name.
    firsts: BTreeMap<&'a str, usize>,
}

// Columns, each with its type.
pub(crate) type Columns<'a> = Names<'a, ColumnType>;

impl<'a, V> Model for Names<'a, V> {
    ghost use Rattle.std.specs.Prelude.{◌≡◌, ℕ, List};
    ghost use Rattle.std.specs.BTreeMap.{get_by};
    ghost use Rattle.std.specs.Cmp.Lexicographic.{slice_cmp};
    ghost use Rattle.std.specs.Ordering.{nat_cmp};
    ghost use Rattle.sql_scope.specs.Names.{named, place_of};

    ghost Value = { List (List ℕ × V) };

    ghost view = { λ names. named names.listed };

    ghost invariant = { λ names. (name : List ℕ) → get_by
        (λ k. slice_cmp nat_cmp name k.now) names.firsts ≡ place_of name (named names.listed) };
}

impl<'a, V: Drop> Names<'a, V> {
    // No names, with room for so many.
    pub(crate) fn with_capacity(alloc: Global, names: usize) -> Result<Names<'a, V>, Memory>
        ensures { IfOk result (λ made. made ≡ []) }
    {
        Ok(Names {
            listed: List::with_capacity(alloc, names)?,
            firsts: BTreeMap::new(alloc),
        })
    }

    // These and one more behind them.
    pub(crate) fn with(self, name: &'a Label, value: V) -> Result<Names<'a, V>, Memory>
        ensures { IfOk result (λ longer. longer ≡ self.entry ++ (name.now, value) ∷ []) }
    {
        let Names {
            mut listed,
            mut firsts,
        } = self;
        if !firsts.contains_key(name.as_str()) {
            firsts.insert(name.as_str(), listed.len())?;
        }
        listed.push((name, value))?;
        Ok(Names { listed, firsts })
    }
}

impl<'a, V> Names<'a, V> {
    // What stands first under a name.
    pub(crate) fn get(&self, name: &Label) -> Option<&V>
        ensures { option_copied result ≡ found name.now self.now }
    {
        match self.firsts.get(name.as_str()) {
            Some(place) => Some(&self.listed.as_slice()[*place].1),
            None => None,
        }
    }
}

impl<'a> Names<'a, ColumnType> {
    // The types of the columns.
    pub(crate) fn types(&self, alloc: Global) -> Result<List<ColumnType>, Memory>
        ensures { IfOk result (λ types. types ≡ types_of self.now) }
    {
        let columns = self.listed.as_slice();
        let mut types = List::with_capacity(alloc, columns.len())?;
        for column in columns {
            types.push(column.1)?;
        }
        Ok(types)
    }

    // The columns, under names of their own.
    pub(crate) fn copy(&self, alloc: Global) -> Result<List<(Label, ColumnType)>, Memory>
        ensures { IfOk result (λ copy. copy ≡ self.now) }
    {
        let columns = self.listed.as_slice();
        let mut copy = List::with_capacity(alloc, columns.len())?;
        for column in columns {
            copy.push((column.0.copy(alloc)?, column.1))?;
        }
        Ok(copy)
    }

    // Whether there are as many columns of the same types in order.
    pub(crate) fn same_types(&self, others: &Names<'_, ColumnType>) -> bool
        ensures { result ≡ same_types (types_of self.now) (types_of others.now) }
    {
        same_types(self.listed.as_slice(), others.listed.as_slice())
    }
}

fn same_types(some: &[(&Label, ColumnType)], others: &[(&Label, ColumnType)]) -> bool
    ensures { result ≡ same_types (map (λ c. c.1) some.now) (map (λ c. c.1) others.now) }
{
    for place in 0..some.len().min(others.len()) {
        if some[place].1 != others[place].1 {
            return false;
        }
    }
    some.len() == others.len()
}
