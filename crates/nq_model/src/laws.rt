// Laws of the definitions, each on a function that does nothing.
ghost use Rattle.std.specs.Prelude.{◌≡◌, List, Decides, count_by};
ghost use Rattle.nq_model.specs.Bags.{Matched};
ghost use Rattle.std.specs.declared.cmp.Ordering.TheVariants.{Equal};
ghost use Rattle.std.specs.Cmp.{IsTotalOrder};
ghost use Rattle.nq_model.specs.Canonical.{value_cmp, canonical};
ghost use Rattle.nq_model.specs.Values.{Nested, Elements, bag, bag_of, elements, Same, same};

/// To be the same nested multiset is what counting decides, an equivalence, and a congruence for
/// bags.
pub fn sameness_laws()
    ensures counting_decides { (v w : Nested) → Decides (same v w) (Same v w) }
    ensures reflexive { (v : Nested) → Same v v }
    ensures symmetric { (v w : Nested) → Same v w → Same w v }
    ensures transitive { (u v w : Nested) → Same u v → Same v w → Same u w }
    ensures congruent { (vs ws : List Nested) → Matched Same vs ws → Same (bag_of vs) (bag_of ws) }
    ensures counted { (u : Nested) (vs ws : Elements) → Same (bag vs) (bag ws)
        → count_by (same u) (elements vs) ≡ count_by (same u) (elements ws) }
{}

/// The canonical order is a strict total order, and the canonical form of a value is the same
/// nested multiset, which sameness determines.
pub fn canonical_laws()
    ensures total { IsTotalOrder value_cmp }
    ensures ties { (v w : Nested) → value_cmp v w ≡ Equal → v ≡ w }
    ensures same { (v : Nested) → Same v (canonical v) }
    ensures determined { (v w : Nested) → Same v w → canonical v ≡ canonical w }
    ensures determines { (v w : Nested) → canonical v ≡ canonical w → Same v w }
{}
