// The typing rules, each at the types of a node's parts.
ghost use Rattle.std.specs.Prelude.{◌≡◌, OnOk, IfErr, true, option_map};
ghost use Rattle.nq_model.specs.Types.{type_tree, is_well_formed, are_well_formed, field_types_of, fields_view};
ghost use Rattle.nq_model.specs.Typing.{aggregate_type};
ghost use Rattle.nq_model.specs.TypeOf.{unary_given, binary_given, choice_given, application_given, field_given, aggregate_given, bag_given, union_given, body_given, guard_given, parameter_given, element_of};
ghost use Rattle.nq_model.specs.Terms.{Emptiness, Count, Sum};
ghost use Rattle.nq_model.specs.Judging.{by_rule, unary_rule, binary_rule};
ghost use Rattle.nq_types.specs.Steps.{Gives, Faults};

use crate::base::{base_of, binary_type, unary_type};
use crate::fault::CheckFault;
use crate::fields::field_type;
use nq_model::{Binary, Label, Ty, Unary, boxed};
use std::alloc::Global;

// The number of the rule of an operator with one operand.
fn unary_rule(op: Unary) -> u8
    ensures { result ≡ unary_rule op }
{
    match op {
        Unary::Minus => 6,
        Unary::Not => 7,
    }
}

// The number of the rule of an operator with two operands.
fn binary_rule(op: Binary) -> u8
    ensures { result ≡ binary_rule op }
{
    match op {
        Binary::Add | Binary::Sub | Binary::Mul => 8,
        Binary::Eq | Binary::Ne | Binary::Lt | Binary::Le | Binary::Gt | Binary::Ge => 9,
        Binary::And | Binary::Or => 10,
    }
}

pub(crate) fn unary(op: Unary, place: u64, of: &Ty) -> Result<Ty, CheckFault>
    ensures { Gives result (by_rule (unary_rule op) place (unary_given op (type_tree of.now))) }
{
    let given = match base_of(of) {
        Some(base) => unary_type(op, base),
        None => None,
    };
    match given {
        Some(base) => Ok(Ty::of_base(base)),
        None => Err(CheckFault::Ill {
            rule: unary_rule(op),
            place,
        }),
    }
}

// What an operator gives on operands of these types, if they are base types that it takes.
fn operated(op: Binary, left: &Ty, right: &Ty) -> Option<Ty>
    ensures { option_map type_tree result
        ≡ binary_given op (type_tree left.now) (type_tree right.now) }
{
    match (base_of(left), base_of(right)) {
        (Some(left), Some(right)) => match binary_type(op, left, right) {
            Some(base) => Some(Ty::of_base(base)),
            None => None,
        },
        _ => None,
    }
}

pub(crate) fn binary(op: Binary, place: u64, left: &Ty, right: &Ty) -> Result<Ty, CheckFault>
    ensures { Gives result (by_rule (binary_rule op) place
        (binary_given op (type_tree left.now) (type_tree right.now))) }
{
    match operated(op, left, right) {
        Some(given) => Ok(given),
        None => Err(CheckFault::Ill {
            rule: binary_rule(op),
            place,
        }),
    }
}

pub(crate) fn choice(place: u64, test: &Ty, yes: Ty, no: &Ty) -> Result<Ty, CheckFault>
    ensures { Gives result (by_rule 11 place
        (choice_given (type_tree test.now) (type_tree yes) (type_tree no.now))) }
{
    if test.same(&Ty::Bool) && yes.same(no) {
        Ok(yes)
    } else {
        Err(CheckFault::Ill { rule: 11, place })
    }
}

pub(crate) fn parameter(place: u64, taken: &Ty) -> Result<(), CheckFault>
    ensures ok { OnOk result (is_well_formed (type_tree taken.now) ≡ true) }
    ensures err { IfErr result (Faults (by_rule 12 place (parameter_given (type_tree taken.now)))) }
{
    if is_well_formed(taken) {
        Ok(())
    } else {
        Err(CheckFault::Ill { rule: 12, place })
    }
}

pub(crate) fn application(place: u64, func: Ty, arg: &Ty) -> Result<Ty, CheckFault>
    ensures { Gives result (by_rule 13 place
        (application_given (type_tree func) (type_tree arg.now))) }
{
    match func {
        Ty::Fun(taken, given) => {
            if taken.same(arg) {
                Ok(Box::into_inner(given))
            } else {
                Err(CheckFault::Ill { rule: 13, place })
            }
        }
        _ => Err(CheckFault::Ill { rule: 13, place }),
    }
}

pub(crate) fn field(alloc: Global, place: u64, of: &Ty, label: &Label) -> Result<Ty, CheckFault>
    ensures { Gives result (by_rule 15 place (field_given label.now (type_tree of.now))) }
{
    if let Ty::Rec(fields) = of {
        if let Some(ty) = field_type(fields.as_slice(), label.as_str()) {
            return Ok(ty.copy(alloc)?);
        }
    }
    Err(CheckFault::Ill { rule: 15, place })
}

pub(crate) fn emptiness(place: u64, of: &Ty) -> Result<Ty, CheckFault>
    ensures { Gives result (by_rule 16 place (aggregate_given Emptiness (type_tree of.now))) }
{
    match of {
        Ty::Bag(_) => Ok(Ty::Bool),
        _ => Err(CheckFault::Ill { rule: 16, place }),
    }
}

pub(crate) fn count(place: u64, of: &Ty) -> Result<Ty, CheckFault>
    ensures { Gives result (by_rule 24 place (aggregate_given Count (type_tree of.now))) }
{
    match of {
        Ty::Bag(_) => Ok(Ty::Int),
        _ => Err(CheckFault::Ill { rule: 24, place }),
    }
}

pub(crate) fn sum(place: u64, of: &Ty) -> Result<Ty, CheckFault>
    ensures { Gives result (by_rule 25 place (aggregate_given Sum (type_tree of.now))) }
{
    match of {
        Ty::Bag(element) => sum_over(place, element),
        _ => Err(CheckFault::Ill { rule: 25, place }),
    }
}

// The type of a sum over a bag of elements of this type.
fn sum_over(place: u64, element: &Ty) -> Result<Ty, CheckFault>
    ensures { Gives result (by_rule 25 place (aggregate_type Sum (type_tree element.now))) }
{
    match element {
        Ty::Int => Ok(Ty::Int),
        _ => Err(CheckFault::Ill { rule: 25, place }),
    }
}

pub(crate) fn single(alloc: Global, place: u64, element: Ty) -> Result<Ty, CheckFault>
    ensures { Gives result (by_rule 17 place (bag_given (type_tree element))) }
{
    if element.is_plain() {
        Ok(Ty::Bag(boxed(alloc, element)?))
    } else {
        Err(CheckFault::Ill { rule: 17, place })
    }
}

pub(crate) fn nil(alloc: Global, place: u64, element: &Ty) -> Result<Ty, CheckFault>
    ensures { Gives result (by_rule 18 place (bag_given (type_tree element.now))) }
{
    if element.is_plain() {
        Ok(Ty::Bag(boxed(alloc, element.copy(alloc)?)?))
    } else {
        Err(CheckFault::Ill { rule: 18, place })
    }
}

pub(crate) fn union(place: u64, left: Ty, right: &Ty) -> Result<Ty, CheckFault>
    ensures { Gives result (by_rule 19 place (union_given (type_tree left) (type_tree right.now))) }
{
    if left.same(right) {
        body(19, place, left)
    } else {
        Err(CheckFault::Ill { rule: 19, place })
    }
}

// The element type of a bag that a comprehension goes over.
pub(crate) fn source(place: u64, bag: Ty) -> Result<Ty, CheckFault>
    ensures { Gives result (by_rule 20 place (element_of (type_tree bag))) }
{
    match bag {
        Ty::Bag(element) => Ok(Box::into_inner(element)),
        _ => Err(CheckFault::Ill { rule: 20, place }),
    }
}

// The type itself, which has to be a bag.
pub(crate) fn body(rule: u8, place: u64, ty: Ty) -> Result<Ty, CheckFault>
    ensures { Gives result (by_rule rule place (body_given (type_tree ty))) }
{
    match ty {
        Ty::Bag(element) => Ok(Ty::Bag(element)),
        _ => Err(CheckFault::Ill { rule, place }),
    }
}

pub(crate) fn guard(place: u64, test: &Ty, ty: Ty) -> Result<Ty, CheckFault>
    ensures { Gives result (by_rule 21 place (guard_given (type_tree test.now) (type_tree ty))) }
{
    if test.same(&Ty::Bool) {
        body(21, place, ty)
    } else {
        Err(CheckFault::Ill { rule: 21, place })
    }
}

// Whether the element of each bag in the type is plain.
#[cycle(formed)]
pub(crate) fn is_well_formed(ty: &Ty) -> bool
    ensures { result ≡ is_well_formed (type_tree ty.now) }
{
    match ty {
        Ty::Int | Ty::Bool | Ty::Text => true,
        Ty::Rec(fields) => are_well_formed(fields.as_slice()),
        Ty::Bag(element) => element.is_plain(),
        Ty::Fun(taken, given) => is_well_formed(taken) && is_well_formed(given),
    }
}

#[cycle(formed)]
fn are_well_formed(fields: &[(Label, Ty)]) -> bool
    ensures { result ≡ are_well_formed (field_types_of (fields_view fields.now)) }
{
    for field in fields {
        if !is_well_formed(&field.1) {
            return false;
        }
    }
    true
}
