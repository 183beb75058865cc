// Laws of the canonical form and of its text, and of rows in order, each on a function that does
// nothing.
ghost use Rattle.std.specs.Prelude.{◌≡◌, ◌++◌, ◌↔◌, List, ℕ};
ghost use Rattle.nq_model.specs.Bags.{Reordered};
ghost use Rattle.nq_model.specs.Types.{TypeTree};
ghost use Rattle.nq_model.specs.Values.{Nested, Same};
ghost use Rattle.nq_model.specs.Canonical.{canonical, written, canonical_text};
ghost use Rattle.nq_model.specs.ValueTypes.{IsOfType};
ghost use Rattle.nq_model.specs.declared.table.Cell.{Cell};
ghost use Rattle.canon.specs.RowTexts.{rows_text, sorted_rows};
ghost use Rattle.canon.specs.Sorted.{IsSortedDeep};
ghost use Rattle.canon.specs.Texts.{Ends};

/// The canonical form is sorted at every depth, keeps the value's types, and is all there is to
/// sort: a value that is sorted at every depth is its own canonical form.
pub fn form_laws()
    ensures sorted { (v : Nested) → IsSortedDeep (canonical v) }
    ensures settled { (v : Nested) → IsSortedDeep v → canonical v ≡ v }
    ensures typed { (t : TypeTree) (v : Nested) → IsOfType t v → IsOfType t (canonical v) }
{}

/// Texts of values of one type tell their values, and where they end in a longer text. So the
/// canonical texts of two values of one type are equal exactly where the values are the same nested
/// multiset.
pub fn text_laws()
    ensures told { (t : TypeTree) (v w : Nested) (x y : List ℕ) → IsOfType t v → IsOfType t w
        → Ends x → Ends y
        → written v ++ x ≡ written w ++ y → (v ≡ w) × (x ≡ y) }
    ensures same { (t : TypeTree) (v w : Nested) → IsOfType t v → IsOfType t w
        → (canonical_text v ≡ canonical_text w) ↔ Same v w }
{}

/// Rows in order are the same rows, and rows that are the same in any order have one order and one
/// text.
pub fn row_laws()
    ensures kept { (rows : List (List Cell)) → Reordered rows (sorted_rows rows) }
    ensures one { (rows others : List (List Cell)) → Reordered rows others
        → sorted_rows rows ≡ sorted_rows others }
    ensures text { (rows others : List (List Cell)) → Reordered rows others
        → rows_text rows ≡ rows_text others }
{}
