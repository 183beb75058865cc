// Substitution that contracts what it makes contractible.
//
// After Watkins, Cervesato, Pfenning and Walker, "A Concurrent Logical Framework", CMU-CS-02-101,
// 2002.
ghost use Rattle.std.specs.Prelude.{◌≡◌, ◌+◌, map, IfOk};
ghost use Rattle.nq_model.specs.Types.{type_tree};
ghost use Rattle.nq_model.specs.Terms.{placed, at, PlacedNode};
ghost use Rattle.nq_model.specs.Substitution.{fields_with_places};
ghost use Rattle.unfold.specs.Hereditary.{substitute, apply_by, apply_at, field_by};
ghost use Rattle.unfold.specs.Shapes.{one_node, two_node, inside};
ghost use Rattle.unfold.specs.Slots.{Puts};

use crate::built::{Built, leaf, one_more, opened};
use crate::field::field;
use crate::forms::{Part, applied, choice, chosen, function, one, two, with_fields};
use crate::shapes::{One, Two};
use crate::slot::{Slot, put};
use crate::stack::{APPLY, APPLY_BRANCHES, ARGUMENT, SUBSTITUTE, further};
use crate::uses::uses;
use nq_model::{Label, List, Memory, Node, Term, Ty, boxed};
use std::alloc::Global;

/// What the slot holds in place of the variable `from`, in a done term. `rank` bounds how deep
/// arrows nest in the value's type, and `room` is how many bytes the stack may still grow.
#[cycle(hereditary)]
pub(crate) fn substitute(
    alloc: Global,
    rank: u64,
    room: u64,
    from: u64,
    by: &mut Slot,
    term: Term,
) -> Result<Built<Term>, Memory>
    ensures { IfOk result (λ b. Puts by.old by.new
        (λ s. placed b.term ≡ substitute (apply_at rank) from s (placed term))) }
{
    let room = further(room, SUBSTITUTE)?;
    substitute_node(alloc, rank, room, from, by, term)
}

#[cycle(hereditary)]
fn substitute_node(
    alloc: Global,
    rank: u64,
    room: u64,
    from: u64,
    by: &mut Slot,
    term: Term,
) -> Result<Built<Term>, Memory>
    ensures { IfOk result (λ b. Puts by.old by.new
        (λ s. placed b.term ≡ substitute (apply_at rank) from s (placed term))) }
{
    let Term { place, node } = term;
    match node {
        Node::Var(k) => put(alloc, place, k, from, by),
        Node::Int(_) | Node::Bool(_) | Node::Text(_) | Node::Table(_) | Node::Nil(_) => {
            Ok(leaf(Term { place, node }))
        }
        Node::Unary { op, of } => {
            substitute_one(alloc, rank, room, from, by, place, One::Unary(op), of)
        }
        Node::Binary { op, left, right } => {
            substitute_two(
                alloc,
                rank,
                room,
                from,
                by,
                place,
                Two::Binary(op),
                left,
                right,
            )
        }
        Node::If { test, yes, no } => {
            substitute_choice(alloc, rank, room, from, by, place, test, yes, no)
        }
        Node::Fun { taken, body } => {
            substitute_function(alloc, rank, room, from, by, place, taken, body)
        }
        Node::Apply { func, arg } => {
            substitute_apply(alloc, rank, room, from, by, place, func, arg)
        }
        Node::Rec(fields) => {
            let fields = substitute_fields(alloc, rank, room, from, by, fields)?;
            with_fields(place, fields)
        }
        Node::Field { of, label } => {
            substitute_field(alloc, rank, room, from, by, place, of, label)
        }
        Node::Empty(of) => substitute_one(alloc, rank, room, from, by, place, One::Empty, of),
        Node::Count(of) => substitute_one(alloc, rank, room, from, by, place, One::Count, of),
        Node::Sum(of) => substitute_one(alloc, rank, room, from, by, place, One::Sum, of),
        Node::Single(of) => substitute_one(alloc, rank, room, from, by, place, One::Single, of),
        Node::Union { left, right } => {
            substitute_two(alloc, rank, room, from, by, place, Two::Union, left, right)
        }
        Node::For { source, body } => {
            substitute_two(alloc, rank, room, from, by, place, Two::For, source, body)
        }
        Node::Guard { test, body } => {
            substitute_two(alloc, rank, room, from, by, place, Two::Guard, test, body)
        }
        Node::Bind { value, body } => {
            substitute_two(alloc, rank, room, from, by, place, Two::Bind, value, body)
        }
    }
}

// The parts that follow have frames of their own, so that those of `substitute` stay small.

#[cycle(hereditary)]
#[inline(never)]
fn substitute_one(
    alloc: Global,
    rank: u64,
    room: u64,
    from: u64,
    by: &mut Slot,
    place: u64,
    shape: One,
    of: Box<Term>,
) -> Result<Built<Term>, Memory>
    ensures { IfOk result (λ b. Puts by.old by.new
        (λ s. placed b.term ≡ at place
        (one_node shape (substitute (apply_at rank) from s (placed of.value))))) }
{
    let of = substitute_box(alloc, rank, room, from, by, of)?;
    one(place, shape, of)
}

#[cycle(hereditary)]
#[inline(never)]
fn substitute_two(
    alloc: Global,
    rank: u64,
    room: u64,
    from: u64,
    by: &mut Slot,
    place: u64,
    shape: Two,
    left: Box<Term>,
    right: Box<Term>,
) -> Result<Built<Term>, Memory>
    ensures { IfOk result (λ b. Puts by.old by.new
        (λ s. placed b.term ≡ at place
        (two_node shape (substitute (apply_at rank) from s (placed left.value))
        (substitute (apply_at rank) (inside shape from) s (placed right.value))))) }
{
    let inner = shape.inside(from)?;
    let left = substitute_box(alloc, rank, room, from, by, left)?;
    let right = substitute_box(alloc, rank, room, inner, by, right)?;
    two(place, shape, left, right)
}

#[cycle(hereditary)]
#[inline(never)]
fn substitute_choice(
    alloc: Global,
    rank: u64,
    room: u64,
    from: u64,
    by: &mut Slot,
    place: u64,
    test: Box<Term>,
    yes: Box<Term>,
    no: Box<Term>,
) -> Result<Built<Term>, Memory>
    ensures { IfOk result (λ b. Puts by.old by.new
        (λ s. placed b.term ≡ at place
        (PlacedNode.choose (substitute (apply_at rank) from s (placed test.value))
        (substitute (apply_at rank) from s (placed yes.value))
        (substitute (apply_at rank) from s (placed no.value))))) }
{
    let test = substitute_box(alloc, rank, room, from, by, test)?;
    let yes = substitute_box(alloc, rank, room, from, by, yes)?;
    let no = substitute_box(alloc, rank, room, from, by, no)?;
    choice(place, test, yes, no)
}

#[cycle(hereditary)]
#[inline(never)]
fn substitute_function(
    alloc: Global,
    rank: u64,
    room: u64,
    from: u64,
    by: &mut Slot,
    place: u64,
    taken: Ty,
    body: Box<Term>,
) -> Result<Built<Term>, Memory>
    ensures { IfOk result (λ b. Puts by.old by.new
        (λ s. placed b.term ≡ at place
        (PlacedNode.fun (type_tree taken)
        (substitute (apply_at rank) (from + 1) s (placed body.value))))) }
{
    let body = substitute_box(alloc, rank, room, one_more(from)?, by, body)?;
    function(place, taken, body)
}

#[cycle(hereditary)]
#[inline(never)]
fn substitute_apply(
    alloc: Global,
    rank: u64,
    room: u64,
    from: u64,
    by: &mut Slot,
    place: u64,
    func: Box<Term>,
    arg: Box<Term>,
) -> Result<Built<Term>, Memory>
    ensures { IfOk result (λ b. Puts by.old by.new
        (λ s. placed b.term ≡ apply_at rank place
        (substitute (apply_at rank) from s (placed func.value))
        (substitute (apply_at rank) from s (placed arg.value)))) }
{
    let room = further(room, ARGUMENT)?;
    let func = substitute(alloc, rank, room, from, by, Box::into_inner(func))?;
    let arg = substitute(alloc, rank, room, from, by, Box::into_inner(arg))?;
    apply(alloc, rank, room, place, func, arg)
}

#[cycle(hereditary)]
#[inline(never)]
fn substitute_field(
    alloc: Global,
    rank: u64,
    room: u64,
    from: u64,
    by: &mut Slot,
    place: u64,
    of: Box<Term>,
    label: Label,
) -> Result<Built<Term>, Memory>
    ensures { IfOk result (λ b. Puts by.old by.new
        (λ s. placed b.term ≡ field_by place label
        (substitute (apply_at rank) from s (placed of.value)))) }
{
    let of = substitute(alloc, rank, room, from, by, Box::into_inner(of))?;
    field(alloc, room, place, label, of)
}

#[cycle(hereditary)]
#[inline(never)]
fn substitute_box(
    alloc: Global,
    rank: u64,
    room: u64,
    from: u64,
    by: &mut Slot,
    term: Box<Term>,
) -> Result<Part, Memory>
    ensures { IfOk result (λ b. Puts by.old by.new
        (λ s. placed b.term.value ≡ substitute (apply_at rank) from s (placed term.value))) }
{
    let done = substitute(alloc, rank, room, from, by, Box::into_inner(term))?;
    let term = boxed(alloc, done.term)?;
    Ok(Built {
        term,
        deep: done.deep,
    })
}

#[cycle(hereditary)]
#[inline(never)]
fn substitute_fields(
    alloc: Global,
    rank: u64,
    room: u64,
    from: u64,
    by: &mut Slot,
    fields: List<(Label, Term)>,
) -> Result<Built<List<(Label, Term)>>, Memory>
    ensures { IfOk result (λ b. Puts by.old by.new
        (λ s. fields_with_places b.term ≡ map
        (λ f. (f.0, substitute (apply_at rank) from s f.1)) (fields_with_places fields))) }
{
    let mut all = List::new(alloc);
    let mut deep: u64 = 0;
    let mut rest = fields;
    while let Some(last) = rest.pop() {
        let (label, term) = last;
        let done = substitute(alloc, rank, room, from, by, term)?;
        deep = deep.max(done.deep);
        all.push((label, done.term))?;
    }
    let mut turned = all.into_vec();
    turned.reverse();
    Ok(Built {
        term: List::from_vec(turned),
        deep,
    })
}

/// What becomes of an application of done parts.
#[cycle(hereditary)]
pub(crate) fn apply(
    alloc: Global,
    rank: u64,
    room: u64,
    place: u64,
    func: Built<Term>,
    arg: Built<Term>,
) -> Result<Built<Term>, Memory>
    ensures { IfOk result (λ b.
        placed b.term ≡ apply_at rank place (placed func.term) (placed arg.term)) }
{
    if rank == 0 {
        applied(alloc, place, func, arg)
    } else {
        apply_above(alloc, rank - 1, room, place, func, arg)
    }
}

// The same, where what the body of the function applies may be applied at `rank`.
#[cycle(hereditary)]
#[inline(never)]
fn apply_above(
    alloc: Global,
    rank: u64,
    room: u64,
    place: u64,
    func: Built<Term>,
    arg: Built<Term>,
) -> Result<Built<Term>, Memory>
    ensures { IfOk result (λ b.
        placed b.term ≡ apply_by (substitute (apply_at rank) 0) place (placed func.term)
        (placed arg.term)) }
{
    let room = further(room, APPLY)?;
    apply_node(alloc, rank, room, place, func, arg)
}

#[cycle(hereditary)]
fn apply_node(
    alloc: Global,
    rank: u64,
    room: u64,
    place: u64,
    func: Built<Term>,
    arg: Built<Term>,
) -> Result<Built<Term>, Memory>
    ensures { IfOk result (λ b.
        placed b.term ≡ apply_by (substitute (apply_at rank) 0) place (placed func.term)
        (placed arg.term)) }
{
    let Built { term, deep } = func;
    let Term { place: own, node } = term;
    match node {
        Node::Fun {
            taken: _taken,
            body,
        } => put_in(alloc, rank, room, Box::into_inner(body), arg),
        Node::If { test, yes, no } => {
            apply_branches(alloc, rank, room, place, deep, test, yes, no, arg)
        }
        other => applied(
            alloc,
            place,
            Built {
                term: Term {
                    place: own,
                    node: other,
                },
                deep,
            },
            arg,
        ),
    }
}

// A body with the argument in place of its innermost variable.
#[cycle(hereditary)]
fn put_in(
    alloc: Global,
    rank: u64,
    room: u64,
    body: Term,
    arg: Built<Term>,
) -> Result<Built<Term>, Memory>
    ensures { IfOk result (λ b.
        placed b.term ≡ substitute (apply_at rank) 0 (placed arg.term) (placed body)) }
{
    let left = uses(&body, 0);
    let mut slot = Slot {
        value: Some(arg),
        left,
    };
    substitute(alloc, rank, room, 0, &mut slot, body)
}

// A choice between the applications of two done functions, where the choice was `deep` deep.
#[cycle(hereditary)]
#[inline(never)]
fn apply_branches(
    alloc: Global,
    rank: u64,
    room: u64,
    place: u64,
    deep: u64,
    test: Box<Term>,
    yes: Box<Term>,
    no: Box<Term>,
    arg: Built<Term>,
) -> Result<Built<Term>, Memory>
    ensures { IfOk result (λ b.
        placed b.term ≡ at place
        (PlacedNode.choose (placed test.value)
        (apply_by (substitute (apply_at rank) 0) place (placed yes.value) (placed arg.term))
        (apply_by (substitute (apply_at rank) 0) place (placed no.value) (placed arg.term)))) }
{
    let room = further(room, APPLY_BRANCHES)?;
    apply_two(alloc, rank, room, place, deep, test, yes, no, arg)
}

// The argument is copied for the first of the two.
#[cycle(hereditary)]
fn apply_two(
    alloc: Global,
    rank: u64,
    room: u64,
    place: u64,
    deep: u64,
    test: Box<Term>,
    yes: Box<Term>,
    no: Box<Term>,
    arg: Built<Term>,
) -> Result<Built<Term>, Memory>
    ensures { IfOk result (λ b.
        placed b.term ≡ at place
        (PlacedNode.choose (placed test.value)
        (apply_by (substitute (apply_at rank) 0) place (placed yes.value) (placed arg.term))
        (apply_by (substitute (apply_at rank) 0) place (placed no.value) (placed arg.term)))) }
{
    let again = arg.copy(alloc)?;
    apply_each(alloc, rank, room, place, deep, test, yes, again, no, arg)
}

// The same, to an argument each.
#[cycle(hereditary)]
fn apply_each(
    alloc: Global,
    rank: u64,
    room: u64,
    place: u64,
    deep: u64,
    test: Box<Term>,
    yes: Box<Term>,
    again: Built<Term>,
    no: Box<Term>,
    arg: Built<Term>,
) -> Result<Built<Term>, Memory>
    ensures { IfOk result (λ b.
        placed b.term ≡ at place
        (PlacedNode.choose (placed test.value)
        (apply_by (substitute (apply_at rank) 0) place (placed yes.value) (placed again.term))
        (apply_by (substitute (apply_at rank) 0) place (placed no.value) (placed arg.term)))) }
{
    let yes = opened(yes, deep);
    let yes = apply_above(alloc, rank, room, place, yes, again)?;
    let no = opened(no, deep);
    let no = apply_above(alloc, rank, room, place, no, arg)?;
    chosen(alloc, place, deep, test, yes, no)
}
