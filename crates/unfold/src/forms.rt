// Done terms of each form, over done parts.
//
// None of these calls a walk, and none is inlined into one, so that the space for what they build
// is given back before a walk goes deeper.
ghost use Rattle.std.specs.Prelude.{◌≡◌, IfOk};
ghost use Rattle.nq_model.specs.Types.{type_tree};
ghost use Rattle.nq_model.specs.Terms.{placed, placed_fields, at, PlacedNode};
ghost use Rattle.unfold.specs.Shapes.{one_node, two_node};

use crate::built::{Built, grown};
use crate::shapes::{One, Two};
use nq_model::{Label, List, Memory, Node, Term, Ty, boxed};
use std::alloc::Global;

/// A done part in its box.
pub(crate) type Part = Built<Box<Term>>;

#[inline(never)]
pub(crate) fn one(place: u64, shape: One, of: Part) -> Result<Built<Term>, Memory>
    ensures { IfOk result (λ b. placed b.term ≡ at place (one_node shape (placed of.term.value))) }
{
    let deep = of.deep;
    let node = shape.over(of.term);
    grown(deep, Term { place, node })
}

#[inline(never)]
pub(crate) fn two(place: u64, shape: Two, left: Part, right: Part) -> Result<Built<Term>, Memory>
    ensures { IfOk result (λ b.
        placed b.term ≡ at place
        (two_node shape (placed left.term.value) (placed right.term.value))) }
{
    let deep = left.deep.max(right.deep);
    let node = shape.over(left.term, right.term);
    grown(deep, Term { place, node })
}

#[inline(never)]
pub(crate) fn choice(place: u64, test: Part, yes: Part, no: Part) -> Result<Built<Term>, Memory>
    ensures { IfOk result (λ b.
        placed b.term ≡ at place
        (PlacedNode.choose (placed test.term.value) (placed yes.term.value)
        (placed no.term.value))) }
{
    let deep = test.deep.max(yes.deep).max(no.deep);
    let node = Node::If {
        test: test.term,
        yes: yes.term,
        no: no.term,
    };
    grown(deep, Term { place, node })
}

#[inline(never)]
pub(crate) fn function(place: u64, taken: Ty, body: Part) -> Result<Built<Term>, Memory>
    ensures { IfOk result (λ b.
        placed b.term ≡ at place (PlacedNode.fun (type_tree taken) (placed body.term.value))) }
{
    let deep = body.deep;
    let node = Node::Fun {
        taken,
        body: body.term,
    };
    grown(deep, Term { place, node })
}

#[inline(never)]
pub(crate) fn with_fields(
    place: u64,
    fields: Built<List<(Label, Term)>>,
) -> Result<Built<Term>, Memory>
    ensures { IfOk result (λ b.
        placed b.term ≡ at place (PlacedNode.rec (placed_fields fields.term))) }
{
    let deep = fields.deep;
    let node = Node::Rec(fields.term);
    grown(deep, Term { place, node })
}

/// A choice between two done terms, of which the test is at most `deep` deep.
#[inline(never)]
pub(crate) fn chosen(
    alloc: Global,
    place: u64,
    deep: u64,
    test: Box<Term>,
    yes: Built<Term>,
    no: Built<Term>,
) -> Result<Built<Term>, Memory>
    ensures { IfOk result (λ b.
        placed b.term ≡ at place
        (PlacedNode.choose (placed test.value) (placed yes.term) (placed no.term))) }
{
    let deep = deep.max(yes.deep).max(no.deep);
    let yes = boxed(alloc, yes.term)?;
    let no = boxed(alloc, no.term)?;
    grown(
        deep,
        Term {
            place,
            node: Node::If { test, yes, no },
        },
    )
}

/// An application that is not contracted.
#[inline(never)]
pub(crate) fn applied(
    alloc: Global,
    place: u64,
    func: Built<Term>,
    arg: Built<Term>,
) -> Result<Built<Term>, Memory>
    ensures { IfOk result (λ b.
        placed b.term ≡ at place (PlacedNode.apply (placed func.term) (placed arg.term))) }
{
    let deep = func.deep.max(arg.deep);
    let func = boxed(alloc, func.term)?;
    let arg = boxed(alloc, arg.term)?;
    grown(
        deep,
        Term {
            place,
            node: Node::Apply { func, arg },
        },
    )
}

/// A field that is not contracted.
#[inline(never)]
pub(crate) fn of_field(
    alloc: Global,
    place: u64,
    of: Built<Term>,
    label: Label,
) -> Result<Built<Term>, Memory>
    ensures { IfOk result (λ b.
        placed b.term ≡ at place (PlacedNode.field (placed of.term) label)) }
{
    let deep = of.deep;
    let of = boxed(alloc, of.term)?;
    grown(
        deep,
        Term {
            place,
            node: Node::Field { of, label },
        },
    )
}
