// Laws of shifting, substituting and unfolding, each on a function that does nothing.
ghost use Rattle.std.specs.Prelude.{◌≡◌, ℕ, option_map};
ghost use Rattle.nq_model.specs.Terms.{PlacedTerm, TermTree, bare};
ghost use Rattle.nq_model.specs.Substitution.{shift, subst, shift_tree, subst_tree};
ghost use Rattle.nq_model.specs.Unfolding.{step, step_tree, Steps, Unfolds, TreeUnfolds, Around};

/// Dropping places commutes with shifting and with substituting.
pub fn substitution_laws()
    ensures shifting { (d c : ℕ) (t : PlacedTerm) → bare (shift d c t) ≡ shift_tree d c (bare t) }
    ensures substituting { (c : ℕ) (s t : PlacedTerm)
        → bare (subst c s t) ≡ subst_tree c (bare s) (bare t) }
{}

/// A term unfolds to one term at most; a step of a part is a step of the whole where the parts
/// before it have none; and dropping places commutes with steps.
pub fn unfolding_laws()
    ensures determined { (t u v : PlacedTerm) → Unfolds t u → Unfolds t v → u ≡ v }
    ensures parts { (f : PlacedTerm → PlacedTerm) (t u : PlacedTerm) → Around f → Steps t u
        → Steps (f t) (f u) }
    ensures unplaced_step { (t : PlacedTerm) → option_map bare (step t) ≡ step_tree (bare t) }
    ensures unplaced { (t u : PlacedTerm) → Unfolds t u → TreeUnfolds (bare t) (bare u) }
    ensures unplaced_determined { (t u v : TermTree) → TreeUnfolds t u → TreeUnfolds t v → u ≡ v }
{}
