// Names of a syntax tree become indexes.
ghost use Rattle.std.specs.Prelude.{◌≡◌, Ok, OnOk, reverse, ◌∷◌};
ghost use Rattle.nq_model.specs.QueryGrammar.{Syntax as Written};
ghost use Rattle.nq_model.specs.QueryScope.{operator_node};
ghost use Rattle.nq_model.specs.Terms.{PlacedNode, at, placed, placed_node};
ghost use Rattle.query_syntax.specs.Lowering.{Gives, Lowered, bound, index_of, lowered, fields_lowered, places_view};
ghost use Rattle.query_syntax.specs.Trees.{aggregate_view, fields as record_fields, named, syntax_view};
ghost use Rattle.query_syntax.specs.Symbols.{operator_view};

use crate::fault::SyntaxFault;
use crate::lower_labels;
use crate::lower_type::lower_type;
use crate::symbol::Operator;
use crate::syntax::{Aggregate, FieldName, Syntax};
use lexical::unquoted;
use nq_model::{Label, List, Node, Term, boxed};
use std::alloc::Global;

/// The term of a syntax tree, in which the index of a variable is how many binders stand inside its
/// own. `Unbound` or `TwiceLabel` at the first variable in the text that has no binder, or label
/// that stands earlier in the same record or record type; `Memory` where there is too little
/// memory, or the tree is one that no text spells: a literal whose quotes are not in twos so that
/// no UTF-8 is left.
///
/// After de Bruijn, "Lambda calculus notation with nameless dummies", Indagationes Mathematicae
/// 1972.
#[tactic(auto, using(crate::proofs::Lowering::whole_walk))]
pub fn lower(alloc: Global, syntax: Syntax) -> Result<Term, SyntaxFault>
    ensures { Lowered result (syntax_view syntax) }
{
    let mut scope = List::new(alloc);
    lower_under(alloc, syntax, &mut scope)
}

// The term under these binders, the outermost first.
#[cycle(lower)]
fn lower_under(alloc: Global, syntax: Syntax, scope: &mut List<Label>) -> Result<Term, SyntaxFault>
    ensures gives { Gives placed result (lowered (syntax_view syntax) (reverse scope.old)) }
    ensures scope { OnOk result (scope.new ≡ scope.old) }
{
    match syntax {
        Syntax::Number { place, number } => Ok(term(place, Node::Int(number.value as i64))),
        Syntax::Literal { place, spelled } => {
            let text = unquoted(alloc, spelled.as_str())?;
            Ok(term(place, Node::Text(text)))
        }
        Syntax::Truth { place, truth } => Ok(term(place, Node::Bool(truth))),
        Syntax::Var { place, name } => variable(place, name.as_str(), scope.as_slice()),
        Syntax::Table { place, name, .. } => Ok(term(place, Node::Table(name))),
        Syntax::Aggregated {
            aggregate,
            place,
            of,
            ..
        } => {
            let of = lower_box(alloc, of, scope)?;
            Ok(term(place, asked(aggregate, of)))
        }
        Syntax::Paren { inner, .. } => lower_under(alloc, Box::into_inner(inner), scope),
        Syntax::NoFields { opening, .. } => Ok(term(opening, Node::Rec(List::new(alloc)))),
        Syntax::Rec {
            first_name,
            first,
            others,
            ..
        } => {
            let place = first_name.before;
            let first = lower_under(alloc, Box::into_inner(first), scope)?;
            let fields = lower_fields(alloc, others, first_name, first, scope)?;
            Ok(term(place, Node::Rec(fields)))
        }
        Syntax::Bag {
            opening,
            element,
            ..
        } => {
            let element = lower_box(alloc, element, scope)?;
            Ok(term(opening, Node::Single(element)))
        }
        Syntax::Nil {
            opening,
            element,
            ..
        } => {
            let element = lower_type(alloc, element)?;
            Ok(term(opening, Node::Nil(element)))
        }
        Syntax::For {
            place,
            variable,
            source,
            body,
            ..
        } => {
            let source = lower_box(alloc, source, scope)?;
            let body = lower_inside(alloc, variable.name, body, scope)?;
            Ok(term(place, Node::For { source, body }))
        }
        Syntax::Where {
            place,
            test,
            body,
            ..
        } => {
            let test = lower_box(alloc, test, scope)?;
            let body = lower_box(alloc, body, scope)?;
            Ok(term(place, Node::Guard { test, body }))
        }
        Syntax::If {
            place,
            test,
            yes,
            no,
            ..
        } => {
            let test = lower_box(alloc, test, scope)?;
            let yes = lower_box(alloc, yes, scope)?;
            let no = lower_box(alloc, no, scope)?;
            Ok(term(place, Node::If { test, yes, no }))
        }
        Syntax::Fun {
            place,
            variable,
            taken,
            body,
            ..
        } => {
            let taken = lower_type(alloc, taken)?;
            let body = lower_inside(alloc, variable.name, body, scope)?;
            Ok(term(place, Node::Fun { taken, body }))
        }
        Syntax::Let {
            place,
            variable,
            value,
            body,
            ..
        } => {
            let value = lower_box(alloc, value, scope)?;
            let body = lower_inside(alloc, variable.name, body, scope)?;
            Ok(term(place, Node::Bind { value, body }))
        }
        Syntax::Prefix { place, op, of } => {
            let of = lower_box(alloc, of, scope)?;
            Ok(term(place, Node::Unary { op, of }))
        }
        Syntax::Infix {
            left,
            place,
            op,
            right,
        } => {
            let left = lower_box(alloc, left, scope)?;
            let right = lower_box(alloc, right, scope)?;
            Ok(term(place, operation(op, left, right)))
        }
        Syntax::Apply {
            func,
            opening,
            arg,
            ..
        } => {
            let func = lower_box(alloc, func, scope)?;
            let arg = lower_box(alloc, arg, scope)?;
            Ok(term(opening, Node::Apply { func, arg }))
        }
        Syntax::Field { of, dot, label, .. } => {
            let of = lower_box(alloc, of, scope)?;
            Ok(term(dot, Node::Field { of, label }))
        }
    }
}

#[cycle(lower)]
fn lower_box(
    alloc: Global,
    syntax: Box<Syntax>,
    scope: &mut List<Label>,
) -> Result<Box<Term>, SyntaxFault>
    ensures gives { Gives (λ t.
        placed t.value) result (lowered (syntax_view syntax.value) (reverse scope.old)) }
    ensures scope { OnOk result (scope.new ≡ scope.old) }
{
    let term = lower_under(alloc, Box::into_inner(syntax), scope)?;
    let term = boxed(alloc, term)?;
    Ok(term)
}

// The term under one binder more, inside the others.
#[cycle(lower)]
#[tactic(auto, using(crate::proofs::LoweringNames::reverse_one_more))]
fn lower_inside(
    alloc: Global,
    name: Label,
    syntax: Box<Syntax>,
    scope: &mut List<Label>,
) -> Result<Box<Term>, SyntaxFault>
    ensures gives { Gives (λ t.
        placed t.value) result (lowered (syntax_view syntax.value) (name ∷ reverse scope.old)) }
    ensures scope { OnOk result (scope.new ≡ scope.old) }
{
    scope.push(name)?;
    let term = lower_box(alloc, syntax, scope)?;
    scope.pop();
    Ok(term)
}

// The fields of a record, in the order of the text, whatever the expression of the first was.
#[cycle(lower)]
fn lower_fields(
    alloc: Global,
    others: List<(FieldName, Syntax)>,
    first_name: FieldName,
    first: Term,
    scope: &mut List<Label>,
) -> Result<List<(Label, Term)>, SyntaxFault>
    ensures gives { (syntax : Written) → lowered syntax (reverse scope.old) ≡ Ok (placed first)
        → Gives places_view result
        (fields_lowered (record_fields first_name syntax (named others)) (reverse scope.old)) }
    ensures scope { OnOk result (scope.new ≡ scope.old) }
{
    let mut labels = lower_labels::only(alloc, first_name.label.as_str())?;
    let mut lowered = List::new(alloc);
    lowered.push((first_name.label, first))?;
    for (name, syntax) in others.into_vec() {
        lower_labels::put(alloc, &mut labels, &name)?;
        let term = lower_under(alloc, syntax, scope)?;
        lowered.push((name.label, term))?;
    }
    Ok(lowered)
}

fn term(place: u64, node: Node) -> Term
    ensures { placed result ≡ at place (placed_node node) }
{
    Term { place, node }
}

fn asked(aggregate: Aggregate, of: Box<Term>) -> Node
    ensures { placed_node result
        ≡ PlacedNode.aggregate (aggregate_view aggregate) (placed of.value) }
{
    match aggregate {
        Aggregate::Emptiness => Node::Empty(of),
        Aggregate::Count => Node::Count(of),
        Aggregate::Sum => Node::Sum(of),
    }
}

fn variable(place: u64, name: &str, scope: &[Label]) -> Result<Term, SyntaxFault>
    ensures { Gives placed result (bound place (index_of name.now (reverse scope.now))) }
{
    match lower_labels::index_of(scope, name) {
        Some(index) => Ok(term(place, Node::Var(index as u64))),
        None => Err(SyntaxFault::Unbound { place }),
    }
}

fn operation(op: Operator, left: Box<Term>, right: Box<Term>) -> Node
    ensures { placed_node result
        ≡ operator_node (operator_view op) (placed left.value) (placed right.value) }
{
    match op {
        Operator::Union => Node::Union { left, right },
        Operator::Of(op) => Node::Binary { op, left, right },
    }
}
