// The labels of a record so far, and the binders of a variable.
ghost use Rattle.std.specs.Prelude.{◌≡◌, List, [], ◌∷◌, ℕ, IfOk, OnOk, not, reverse};
ghost use Rattle.nq_model.specs.QueryScope.{among};
ghost use Rattle.query_syntax.specs.Lowering.{Gives, new_label, index_of, TellsNames};

use crate::fault::SyntaxFault;
use crate::syntax::FieldName;
use nq_model::{Label, Memory};
use std::alloc::Global;
use std::collections::BTreeSet;

// Adds a label, and says whether it is new.
fn add(alloc: Global, labels: &mut BTreeSet<String>, label: &str) -> Result<bool, Memory>
    ensures new { (names : List (List ℕ)) → TellsNames names labels.old → IfOk result
        (λ new. new ≡ not (among label.now names)) }
    ensures tells { (names : List (List ℕ)) → TellsNames names labels.old → IfOk result
        (λ new. TellsNames (label.now ∷ names) labels.new) }
{
    let name = String::from_str(alloc, label)?;
    Ok(labels.insert(name)?)
}

/// The labels of a record so far, of which this is the only one.
pub fn only(alloc: Global, label: &str) -> Result<BTreeSet<String>, Memory>
    ensures { IfOk result (TellsNames (label.now ∷ [])) }
{
    let mut labels = BTreeSet::new(alloc);
    let _new = add(alloc, &mut labels, label)?;
    Ok(labels)
}

/// Adds the label of a field: `TwiceLabel` at one that is there already; `Memory` where there is
/// too little memory.
pub fn put(
    alloc: Global,
    labels: &mut BTreeSet<String>,
    name: &FieldName,
) -> Result<(), SyntaxFault>
    ensures gives { (names : List (List ℕ)) → TellsNames names labels.old
        → Gives (λ u. tt) result (new_label (among name.now.label names) name.now.place) }
    ensures tells { (names : List (List ℕ)) → TellsNames names labels.old
        → OnOk result (TellsNames (name.now.label ∷ names) labels.new) }
{
    if add(alloc, labels, name.label.as_str())? {
        Ok(())
    } else {
        Err(SyntaxFault::TwiceLabel { place: name.place })
    }
}

/// How many binders stand inside the innermost one of this name, if there is one. The outermost
/// stands first.
pub fn index_of(scope: &[Label], name: &str) -> Option<usize>
    ensures { result ≡ index_of name.now (reverse scope.now) }
{
    let mut found = None;
    for binder in scope {
        if name == binder.as_str() {
            found = Some(0);
        } else if let Some(index) = found {
            found = Some(index + 1);
        }
    }
    found
}
