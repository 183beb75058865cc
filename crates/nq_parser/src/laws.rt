// Laws of what a query text spells, on a function that does nothing.
ghost use Rattle.std.specs.Prelude.{◌≡◌, ℕ, List, [], ◌⊎◌};
ghost use Rattle.nq_model.specs.Proper.{IsProperTerm, IsClosed};
ghost use Rattle.nq_model.specs.Terms.{PlacedTerm, bare};
ghost use Rattle.nq_model.specs.QueryGrammar.{First, IsProgram, Syntax, Within};
ghost use Rattle.nq_model.specs.QueryScope.{term_of, wrongs};
ghost use Rattle.nq_model.specs.QueryTexts.{Fault, HasFault, HasTokens, Spells};
ghost use Rattle.nq_model.specs.QueryTokens.{Token};

/// At each depth a text either spells one term or has one fault at one place. The term is proper
/// and closed. What a text spells by the grammar of the first edition alone it spells.
pub fn query_laws()
    ensures some { (depth : ℕ) (text : List ℕ)
        → ((t : PlacedTerm) × Spells depth text t)
        ⊎ ((f : Fault) × (place : ℕ) × HasFault depth text f place) }
    ensures not_both { (depth : ℕ) (text : List ℕ) (t : PlacedTerm) (f : Fault) (place : ℕ)
        → Spells depth text t → HasFault depth text f place → ⊥ }
    ensures one_term { (depth : ℕ) (text : List ℕ) (t u : PlacedTerm) → Spells depth text t
        → Spells depth text u → t ≡ u }
    ensures one_fault { (depth : ℕ) (text : List ℕ) (f g : Fault) (place other : ℕ)
        → HasFault depth text f place → HasFault depth text g other
        → (f ≡ g) × (place ≡ other) }
    ensures proper { (depth : ℕ) (text : List ℕ) (t : PlacedTerm) → Spells depth text t
        → IsProperTerm (bare t) }
    ensures closed { (depth : ℕ) (text : List ℕ) (t : PlacedTerm) → Spells depth text t
        → IsClosed (bare t) }
    ensures keeps_first { (depth : ℕ) (text : List ℕ) (tokens : List Token) (tree : Syntax)
        → HasTokens text tokens → IsProgram First tokens tree
        → Within depth tree → wrongs tree [] ≡ [] → Spells depth text (term_of tree []) }
{}
