// Laws of what is written of values and of rows, on a function that does nothing.
ghost use Rattle.std.specs.Prelude.{◌≡◌, List};
ghost use Rattle.nq_model.specs.Bags.{Reordered};
ghost use Rattle.nq_model.specs.Types.{TypeTree};
ghost use Rattle.nq_model.specs.Values.{Nested, Same};
ghost use Rattle.nq_model.specs.declared.table.Cell.{Cell};
ghost use Rattle.nq_execute.specs.Plans.{RowWriting, Writing, row_text_by, text_by, trace_text_by};
ghost use Rattle.nq_execute.specs.declared.plan.TraceWriting.{TraceWriting};

use canon::row_laws;

/// One text is written of values that are the same nested multiset, in each way of writing, one of
/// traced values that are, and one of rows that are the same in any order.
pub fn writing_laws()
    ensures same { (writing : Writing) (type : TypeTree) (v w : Nested) → Same v w
        → text_by writing type v ≡ text_by writing type w }
    ensures traces { (writing : TraceWriting) (v w : Nested) → Same v w
        → trace_text_by writing v ≡ trace_text_by writing w }
    ensures rows { (writing : RowWriting) (rows others : List (List Cell)) → Reordered rows others
        → row_text_by writing rows ≡ row_text_by writing others }
{
    row_laws();
}
