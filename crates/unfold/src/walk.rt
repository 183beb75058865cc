// The walk over a whole query, in one pass.
//
// None of its calls goes into a term that was built on the way, but for applications of done
// functions.
ghost use Rattle.std.specs.Prelude.{◌≡◌, ◌+◌, [], ◌∷◌, map, IfOk};
ghost use Rattle.nq_model.specs.Terms.{placed, placed_fields, at, PlacedNode};
ghost use Rattle.nq_model.specs.Substitution.{fields_with_places};
ghost use Rattle.unfold.specs.Environments.{stays, given, walk_in, walk_each, taken_by};
ghost use Rattle.unfold.specs.Hereditary.{apply_at, field_by};
ghost use Rattle.unfold.specs.Shapes.{one_node, two_node};
ghost use Rattle.unfold.specs.Slots.{Holds};
ghost use Rattle.unfold.specs.Scopes.{Keeps};

use crate::built::{Built, leaf, one_more};
use crate::field::{field, find};
use crate::forms::{Part, choice, function, one, two, with_fields};
use crate::scope::{Binder, Scope};
use crate::shapes::{One, Two};
use crate::slot::Slot;
use crate::stack::{ARGUMENT, BIND, ROOM, WALK, further};
use crate::substitute::apply;
use nq_model::{Label, List, Memory, Node, Term, boxed};
use std::alloc::Global;

/// What a closed query becomes. `rank` bounds how deep arrows nest in the types of its parts.
pub(crate) fn walk_query(
    alloc: Global,
    rank: u64,
    uses: Vec<u64>,
    term: Term,
) -> Result<Built<Term>, Memory>
    ensures { IfOk result (λ b. placed b.term ≡ walk_in rank 0 [] (placed term)) }
{
    let mut scope = Scope {
        binders: Vec::new(alloc),
        uses,
    };
    walk(alloc, rank, ROOM, 0, &mut scope, term)
}

// What a part becomes under `level` binders that stay. `room` is how many bytes the stack may still
// grow.
#[cycle(walk)]
fn walk(
    alloc: Global,
    rank: u64,
    room: u64,
    level: u64,
    scope: &mut Scope,
    term: Term,
) -> Result<Built<Term>, Memory>
    ensures { IfOk result (λ b. Keeps scope.old scope.new
        (λ es. placed b.term ≡ walk_in rank level es (placed term))) }
{
    let room = further(room, WALK)?;
    walk_node(alloc, rank, room, level, scope, term)
}

#[cycle(walk)]
fn walk_node(
    alloc: Global,
    rank: u64,
    room: u64,
    level: u64,
    scope: &mut Scope,
    term: Term,
) -> Result<Built<Term>, Memory>
    ensures { IfOk result (λ b. Keeps scope.old scope.new
        (λ es. placed b.term ≡ walk_in rank level es (placed term))) }
{
    let Term { place, node } = term;
    match node {
        Node::Var(k) => scope.look_up(alloc, level, place, k),
        Node::Int(_) | Node::Bool(_) | Node::Text(_) | Node::Table(_) | Node::Nil(_) => {
            Ok(leaf(Term { place, node }))
        }
        Node::Unary { op, of } => {
            walk_one(alloc, rank, room, level, scope, place, One::Unary(op), of)
        }
        Node::Binary { op, left, right } => {
            walk_two(
                alloc,
                rank,
                room,
                level,
                scope,
                place,
                Two::Binary(op),
                left,
                right,
            )
        }
        Node::If { test, yes, no } => {
            walk_choice(alloc, rank, room, level, scope, place, test, yes, no)
        }
        Node::Fun { taken, body } => {
            let body = walk_under(alloc, rank, room, level, scope, body)?;
            function(place, taken, body)
        }
        Node::Apply { func, arg } => {
            walk_apply(alloc, rank, room, level, scope, place, func, arg)
        }
        Node::Rec(fields) => {
            let fields = walk_fields(alloc, rank, room, level, scope, fields)?;
            with_fields(place, fields)
        }
        Node::Field { of, label } => {
            walk_field(alloc, rank, room, level, scope, place, of, label)
        }
        Node::Empty(of) => walk_one(alloc, rank, room, level, scope, place, One::Empty, of),
        Node::Count(of) => walk_one(alloc, rank, room, level, scope, place, One::Count, of),
        Node::Sum(of) => walk_one(alloc, rank, room, level, scope, place, One::Sum, of),
        Node::Single(of) => walk_one(alloc, rank, room, level, scope, place, One::Single, of),
        Node::Union { left, right } => {
            walk_two(
                alloc,
                rank,
                room,
                level,
                scope,
                place,
                Two::Union,
                left,
                right,
            )
        }
        Node::For { source, body } => {
            walk_for(alloc, rank, room, level, scope, place, source, body)
        }
        Node::Guard { test, body } => {
            walk_two(
                alloc,
                rank,
                room,
                level,
                scope,
                place,
                Two::Guard,
                test,
                body,
            )
        }
        Node::Bind { value, body } => walk_given(alloc, rank, room, level, scope, value, body),
    }
}

// The parts that follow have frames of their own, so that those of a walk stay small.

#[cycle(walk)]
#[inline(never)]
fn walk_box(
    alloc: Global,
    rank: u64,
    room: u64,
    level: u64,
    scope: &mut Scope,
    term: Box<Term>,
) -> Result<Part, Memory>
    ensures { IfOk result (λ b. Keeps scope.old scope.new
        (λ es. placed b.term.value ≡ walk_in rank level es (placed term.value))) }
{
    let done = walk(alloc, rank, room, level, scope, Box::into_inner(term))?;
    let term = boxed(alloc, done.term)?;
    Ok(Built {
        term,
        deep: done.deep,
    })
}

#[cycle(walk)]
#[inline(never)]
fn walk_one(
    alloc: Global,
    rank: u64,
    room: u64,
    level: u64,
    scope: &mut Scope,
    place: u64,
    shape: One,
    of: Box<Term>,
) -> Result<Built<Term>, Memory>
    ensures { IfOk result (λ b. Keeps scope.old scope.new
        (λ es. placed b.term ≡ at place
        (one_node shape (walk_in rank level es (placed of.value))))) }
{
    let of = walk_box(alloc, rank, room, level, scope, of)?;
    one(place, shape, of)
}

// Two parts under the same binders.
#[cycle(walk)]
#[inline(never)]
fn walk_two(
    alloc: Global,
    rank: u64,
    room: u64,
    level: u64,
    scope: &mut Scope,
    place: u64,
    shape: Two,
    left: Box<Term>,
    right: Box<Term>,
) -> Result<Built<Term>, Memory>
    ensures { IfOk result (λ b. Keeps scope.old scope.new
        (λ es. placed b.term ≡ at place
        (two_node shape (walk_in rank level es (placed left.value))
        (walk_in rank level es (placed right.value))))) }
{
    let left = walk_box(alloc, rank, room, level, scope, left)?;
    let right = walk_box(alloc, rank, room, level, scope, right)?;
    two(place, shape, left, right)
}

#[cycle(walk)]
#[inline(never)]
fn walk_choice(
    alloc: Global,
    rank: u64,
    room: u64,
    level: u64,
    scope: &mut Scope,
    place: u64,
    test: Box<Term>,
    yes: Box<Term>,
    no: Box<Term>,
) -> Result<Built<Term>, Memory>
    ensures { IfOk result (λ b. Keeps scope.old scope.new
        (λ es. placed b.term ≡ at place
        (PlacedNode.choose (walk_in rank level es (placed test.value))
        (walk_in rank level es (placed yes.value)) (walk_in rank level es (placed no.value))))) }
{
    let test = walk_box(alloc, rank, room, level, scope, test)?;
    let yes = walk_box(alloc, rank, room, level, scope, yes)?;
    let no = walk_box(alloc, rank, room, level, scope, no)?;
    choice(place, test, yes, no)
}

#[cycle(walk)]
#[inline(never)]
fn walk_for(
    alloc: Global,
    rank: u64,
    room: u64,
    level: u64,
    scope: &mut Scope,
    place: u64,
    source: Box<Term>,
    body: Box<Term>,
) -> Result<Built<Term>, Memory>
    ensures { IfOk result (λ b. Keeps scope.old scope.new
        (λ es. placed b.term ≡ at place
        (PlacedNode.for (walk_in rank level es (placed source.value))
        (walk_in rank (level + 1) (stays level ∷ es) (placed body.value))))) }
{
    let source = walk_box(alloc, rank, room, level, scope, source)?;
    let body = walk_under(alloc, rank, room, level, scope, body)?;
    two(place, Two::For, source, body)
}

// The body of a binder that stays.
#[cycle(walk)]
#[inline(never)]
fn walk_under(
    alloc: Global,
    rank: u64,
    room: u64,
    level: u64,
    scope: &mut Scope,
    body: Box<Term>,
) -> Result<Part, Memory>
    ensures { IfOk result (λ b. Keeps scope.old scope.new
        (λ es. placed b.term.value
        ≡ walk_in rank (level + 1) (stays level ∷ es) (placed body.value))) }
{
    scope.enter(Binder::Stays(level))?;
    let inner = one_more(level)?;
    let done = walk(alloc, rank, room, inner, scope, Box::into_inner(body))?;
    scope.leave();
    let term = boxed(alloc, done.term)?;
    Ok(Built {
        term,
        deep: done.deep,
    })
}

// A body, with what a value becomes in place of its innermost variable.
#[cycle(walk)]
#[inline(never)]
fn walk_given(
    alloc: Global,
    rank: u64,
    room: u64,
    level: u64,
    scope: &mut Scope,
    value: Box<Term>,
    body: Box<Term>,
) -> Result<Built<Term>, Memory>
    ensures { IfOk result (λ b. Keeps scope.old scope.new
        (λ es. placed b.term ≡ walk_in rank level
        (given level (walk_in rank level es (placed value.value)) ∷ es) (placed body.value))) }
{
    let slot = walk_value(alloc, rank, room, level, scope, value)?;
    scope.enter(Binder::Given(level, slot))?;
    let done = walk(alloc, rank, room, level, scope, Box::into_inner(body))?;
    scope.leave();
    Ok(done)
}

// A value that is put in for a variable. One that is not used is not walked.
#[cycle(walk)]
#[inline(never)]
fn walk_value(
    alloc: Global,
    rank: u64,
    room: u64,
    level: u64,
    scope: &mut Scope,
    value: Box<Term>,
) -> Result<Slot, Memory>
    ensures { IfOk result (λ slot. Keeps scope.old scope.new
        (λ es. Holds slot (walk_in rank level es (placed value.value)))) }
{
    let left = scope.next_uses();
    if left == 0 {
        return Ok(Slot { value: None, left });
    }
    let room = further(room, BIND)?;
    let value = walk(alloc, rank, room, level, scope, Box::into_inner(value))?;
    Ok(Slot {
        value: Some(value),
        left,
    })
}

#[cycle(walk)]
#[inline(never)]
fn walk_apply(
    alloc: Global,
    rank: u64,
    room: u64,
    level: u64,
    scope: &mut Scope,
    place: u64,
    func: Box<Term>,
    arg: Box<Term>,
) -> Result<Built<Term>, Memory>
    ensures { IfOk result (λ b. Keeps scope.old scope.new
        (λ es. placed b.term ≡ taken_by
        (λ t. walk_in rank level (given level (walk_in rank level es (placed arg.value)) ∷ es) t)
        (apply_at rank place (walk_in rank level es (placed func.value))
        (walk_in rank level es (placed arg.value))) (placed func.value))) }
{
    let Term { place: own, node } = Box::into_inner(func);
    match node {
        Node::Fun {
            taken: _taken,
            body,
        } => walk_given(alloc, rank, room, level, scope, arg, body),
        other => {
            let func = Term {
                place: own,
                node: other,
            };
            walk_parts(alloc, rank, room, level, scope, place, func, arg)
        }
    }
}

#[cycle(walk)]
#[inline(never)]
fn walk_parts(
    alloc: Global,
    rank: u64,
    room: u64,
    level: u64,
    scope: &mut Scope,
    place: u64,
    func: Term,
    arg: Box<Term>,
) -> Result<Built<Term>, Memory>
    ensures { IfOk result (λ b. Keeps scope.old scope.new
        (λ es. placed b.term ≡ apply_at rank place (walk_in rank level es (placed func))
        (walk_in rank level es (placed arg.value)))) }
{
    let room = further(room, ARGUMENT)?;
    walk_both(alloc, rank, room, level, scope, place, func, arg)
}

#[cycle(walk)]
fn walk_both(
    alloc: Global,
    rank: u64,
    room: u64,
    level: u64,
    scope: &mut Scope,
    place: u64,
    func: Term,
    arg: Box<Term>,
) -> Result<Built<Term>, Memory>
    ensures { IfOk result (λ b. Keeps scope.old scope.new
        (λ es. placed b.term ≡ apply_at rank place (walk_in rank level es (placed func))
        (walk_in rank level es (placed arg.value)))) }
{
    let func = walk(alloc, rank, room, level, scope, func)?;
    let arg = walk(alloc, rank, room, level, scope, Box::into_inner(arg))?;
    apply(alloc, rank, room, place, func, arg)
}

#[cycle(walk)]
#[inline(never)]
fn walk_field(
    alloc: Global,
    rank: u64,
    room: u64,
    level: u64,
    scope: &mut Scope,
    place: u64,
    of: Box<Term>,
    label: Label,
) -> Result<Built<Term>, Memory>
    ensures { IfOk result (λ b. Keeps scope.old scope.new
        (λ es. placed b.term ≡ field_by place label (walk_in rank level es (placed of.value)))) }
{
    let Term { place: own, node } = Box::into_inner(of);
    match node {
        Node::Rec(fields) => {
            walk_picked(alloc, rank, room, level, scope, place, own, fields, label)
        }
        other => {
            let of = Term {
                place: own,
                node: other,
            };
            walk_whole(alloc, rank, room, level, scope, place, of, label)
        }
    }
}

// A field of a record that is written out. The other fields are not walked.
#[cycle(walk)]
#[inline(never)]
fn walk_picked(
    alloc: Global,
    rank: u64,
    room: u64,
    level: u64,
    scope: &mut Scope,
    place: u64,
    own: u64,
    fields: List<(Label, Term)>,
    label: Label,
) -> Result<Built<Term>, Memory>
    ensures { IfOk result (λ b. Keeps scope.old scope.new
        (λ es. placed b.term ≡ field_by place label
        (at own (PlacedNode.rec (walk_each rank level es (placed_fields fields)))))) }
{
    match find(fields.as_slice(), &label) {
        Some(at) => {
            let mut fields = fields.into_vec();
            let taken = fields.remove(at);
            let (_, found) = taken;
            walk(alloc, rank, room, level, scope, found)
        }
        None => {
            let of = Term {
                place: own,
                node: Node::Rec(fields),
            };
            walk_whole(alloc, rank, room, level, scope, place, of, label)
        }
    }
}

#[cycle(walk)]
#[inline(never)]
fn walk_whole(
    alloc: Global,
    rank: u64,
    room: u64,
    level: u64,
    scope: &mut Scope,
    place: u64,
    of: Term,
    label: Label,
) -> Result<Built<Term>, Memory>
    ensures { IfOk result (λ b. Keeps scope.old scope.new
        (λ es. placed b.term ≡ field_by place label (walk_in rank level es (placed of)))) }
{
    let of = walk(alloc, rank, room, level, scope, of)?;
    field(alloc, room, place, label, of)
}

#[cycle(walk)]
#[inline(never)]
fn walk_fields(
    alloc: Global,
    rank: u64,
    room: u64,
    level: u64,
    scope: &mut Scope,
    fields: List<(Label, Term)>,
) -> Result<Built<List<(Label, Term)>>, Memory>
    ensures { IfOk result (λ b. Keeps scope.old scope.new
        (λ es. fields_with_places b.term ≡ map
        (λ f. (f.0, walk_in rank level es f.1)) (fields_with_places fields))) }
{
    let mut all = List::new(alloc);
    let mut deep: u64 = 0;
    let mut rest = fields;
    while let Some(last) = rest.pop() {
        let (label, term) = last;
        let done = walk(alloc, rank, room, level, scope, term)?;
        deep = deep.max(done.deep);
        all.push((label, done.term))?;
    }
    let mut turned = all.into_vec();
    turned.reverse();
    Ok(Built {
        term: List::from_vec(turned),
        deep,
    })
}
