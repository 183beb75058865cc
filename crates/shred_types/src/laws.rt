// Laws of paths, on a function that does nothing.
ghost use Rattle.std.specs.Prelude.{◌≡◌, ◌↔◌, true, List, length, map, Contains};
ghost use Rattle.nq_model.specs.Proper.{IsOrdered};
ghost use Rattle.nq_model.specs.Types.{TypeTree, bag};
ghost use Rattle.nq_ir.specs.Paths.{paths, element_at};
ghost use Rattle.nq_ir.specs.declared.path.Step.{Step};
ghost use Rattle.shred_types.specs.Bags.{has_bag};
ghost use Rattle.nq_ir.specs.Parts.{bags, element_types};

/// A type has as many paths as bag constructors, and the elements at its paths have the element
/// types of its bags, in pre-order. It has a bag exactly at its paths.
pub fn path_laws()
    ensures counted { (a : TypeTree) → length (paths a) ≡ bags a }
    ensures typed { (a : TypeTree) → IsOrdered a
        → map (element_at (bag a)) (paths (bag a)) ≡ element_types (bag a) }
    ensures found { (a : TypeTree) (path : List Step) → IsOrdered a
        → (has_bag a path ≡ true) ↔ Contains (paths a) path }
{}
