// Laws of traced forms, on a function that does nothing.
ghost use Rattle.std.specs.Prelude.{◌≡◌};
ghost use Rattle.nq_model.specs.Values.{Nested, Same};
ghost use Rattle.nq_ir.specs.Trees.{FormTree};
ghost use Rattle.lineage.specs.Decoding.{form_decoded};
ghost use Rattle.lineage.specs.Laws.{TracedFormsTell, TracesAreTold};
ghost use Rattle.lineage.specs.ListedTables.{ByTag};
ghost use Rattle.lineage.specs.TracedTexts.{traced_text};

use traced_meaning::trace_laws;

/// What the traced form of a form means, over tables with numbers, is decoded to the form's traced
/// meaning. So where the form is the normal form of a term, whatever is the same nested multiset
/// has the text of the term's traced meaning. Values that are the same are decoded to traced values
/// that are, and two traced values that are the same, rows included, have one text.
pub fn lineage_laws()
    ensures forms { TracedFormsTell }
    ensures traces { TracesAreTold }
    ensures same { (tables : ByTag) (form : FormTree) (v w : Nested) → Same v w
        → Same (form_decoded tables form v) (form_decoded tables form w) }
    ensures text { (v w : Nested) → Same v w → traced_text v ≡ traced_text w }
{
    trace_laws();
}
