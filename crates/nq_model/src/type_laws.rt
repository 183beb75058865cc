// Laws of the typing rules and of the judging order, each on a function that does nothing.
ghost use Rattle.std.specs.Prelude.{◌≡◌, ◌↔◌, ℕ, true, List, Some, Ok, Err, map, Decides};
ghost use Rattle.std.specs.List.{AllByRecursion as Each};
ghost use Rattle.nq_model.specs.Bags.{Reordered};
ghost use Rattle.nq_model.specs.Orders.{AreDistinct};
ghost use Rattle.nq_model.specs.Types.{TypeTree, is_plain, is_well_formed, type_eq};
ghost use Rattle.nq_model.specs.Terms.{TermTree, rec, PlacedTerm, bare, term_fields_of};
ghost use Rattle.nq_model.specs.Tables.{IsProperSchema};
ghost use Rattle.nq_model.specs.Typing.{HasType, IsAccepted};
ghost use Rattle.nq_model.specs.TypeOf.{type_of};
ghost use Rattle.nq_model.specs.Judging.{BrokenRule, judged, program_judged};
ghost use Rattle.nq_model.specs.Proper.{IsOrdered, IsProperTerm, IsClosed};
ghost use Rattle.nq_model.specs.declared.table.Schema.{Schema};

/// A term has at most one type, which is computed; it is well formed where the types of the
/// variables are, and its labels stand in byte order where those of the variables' types do. The
/// order of a record's fields does not matter.
pub fn typing_laws()
    ensures one { (schema : Schema) (context : List TypeTree) (t : TermTree) (a b : TypeTree)
        → HasType schema context t a → HasType schema context t b → a ≡ b }
    ensures computed { (schema : Schema) (context : List TypeTree) (t : TermTree) (a : TypeTree)
        → (type_of schema context t ≡ Some a) ↔ HasType schema context t a }
    ensures well_formed { (schema : Schema) (context : List TypeTree) (t : TermTree) (a : TypeTree)
        → Each (λ b. is_well_formed b ≡ true) context → HasType schema context t a
        → is_well_formed a ≡ true }
    ensures ordered { (schema : Schema) (context : List TypeTree) (t : TermTree) (a : TypeTree)
        → IsProperSchema schema → IsProperTerm t → Each IsOrdered context
        → HasType schema context t a → IsOrdered a }
    ensures any_order { (schema : Schema) (context : List TypeTree)
        (fs gs : List (List ℕ × TermTree)) (a : TypeTree)
        → Reordered fs gs → AreDistinct (map (λ f. f.0) gs)
        → HasType schema context (rec (term_fields_of gs)) a
        → HasType schema context (rec (term_fields_of fs)) a }
    ensures plain_is_well_formed { (a : TypeTree) → is_plain a ≡ true → is_well_formed a ≡ true }
    ensures equal { (a b : TypeTree) → Decides (type_eq a b) (a ≡ b) }
{}

/// The walk in judging order gives the type of a term exactly where the term has one. Over a whole
/// program it gives the type exactly where the program is accepted, and a broken rule exactly where
/// it is not; in a closed program no variable is without a binder.
pub fn judging_laws()
    ensures typed { (schema : Schema) (context : List TypeTree) (p : PlacedTerm) (a : TypeTree)
        → (judged schema context p ≡ Ok a) ↔ HasType schema context (bare p) a }
    ensures accepted { (schema : Schema) (p : PlacedTerm) (a : TypeTree)
        → (program_judged schema p ≡ Ok a) ↔ IsAccepted schema (bare p) a }
    ensures refused { (schema : Schema) (p : PlacedTerm)
        → ((e : BrokenRule) × (program_judged schema p ≡ Err e))
        ↔ ((a : TypeTree) → IsAccepted schema (bare p) a → ⊥) }
    ensures bound { (schema : Schema) (p : PlacedTerm) (e : BrokenRule)
        → IsClosed (bare p) → program_judged schema p ≡ Err e → e.rule ≡ 1 → ⊥ }
{}
