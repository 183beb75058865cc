// Laws of traced values and of traced meanings, each on a function that does nothing.
ghost use Rattle.std.specs.Prelude.{◌≡◌, ◌↔◌, List};
ghost use Rattle.std.specs.Cmp.Lexicographic.{slice_cmp};
ghost use Rattle.std.specs.Ordering.{ordering_then};
ghost use Rattle.nq_model.specs.Canonical.{value_cmp};
ghost use Rattle.nq_model.specs.Values.{Nested, Same};
ghost use Rattle.traced_meaning.specs.Laws.{
  ErasesToMeaning,
  FormsHaveTraces,
  NumberedSchemasAreProper,
  NumberedTablesFit,
};
ghost use Rattle.traced_meaning.specs.TracedValues.{
  RowName,
  name_cmp,
  element_of,
  rows_value,
  names_in,
};

/// What the coding of elements keeps. The names of rows are read back from it. Two elements are
/// the same where their values are and the names of their rows are equal, in order. Elements are
/// compared by their values, and then by the names of their rows, a prefix before the longer.
pub fn element_laws()
    ensures names { (names : List RowName) → names_in (rows_value names) ≡ names }
    ensures same { (v w : Nested) (names others : List RowName)
        → Same (element_of v (rows_value names)) (element_of w (rows_value others))
        ↔ (Same v w × (names ≡ others)) }
    ensures order { (v w : Nested) (names others : List RowName)
        → value_cmp (element_of v (rows_value names)) (element_of w (rows_value others))
        ≡ ordering_then (value_cmp v w) (slice_cmp name_cmp names others) }
{}

/// The traced meaning without its rows is the meaning, as a list. The normal form of a closed,
/// plain and proper term of bag type has its traced meaning, over the tables with the numbers of
/// their rows in a column more, which are tables of the schema with that column.
pub fn trace_laws()
    ensures erases { ErasesToMeaning }
    ensures forms { FormsHaveTraces }
    ensures proper { NumberedSchemasAreProper }
    ensures fit { NumberedTablesFit }
{}
