// Types.
ghost use Rattle.std.specs.Prelude.{◌≡◌, IfOk};
ghost use Rattle.nq_model.specs.Tables.{base_type};
ghost use Rattle.nq_model.specs.Types.{type_tree, is_plain, are_plain, type_eq, field_types_eq, field_types_of, fields_view};

use crate::list::List;
use crate::memory::{Memory, boxed};
use crate::table::ColumnType;
use crate::text::Label;
use std::alloc::Global;

/// A type of the nested relational calculus with functions. The labels of a record differ and stand
/// in byte order.
///
/// After Cheney, Lindley and Wadler, "Query Shredding", SIGMOD 2014.
#[derive(Drop)]
pub enum Ty {
    Int,
    Bool,
    Text,
    Rec(List<(Label, Ty)>),
    Bag(Box<Ty>),
    Fun(Box<Ty>, Box<Ty>),
}

impl Ty {
    /// The type that a base type is.
    pub fn of_base(base: ColumnType) -> Ty
        ensures { type_tree result ≡ base_type base }
    {
        match base {
            ColumnType::Int => Ty::Int,
            ColumnType::Bool => Ty::Bool,
            ColumnType::Text => Ty::Text,
        }
    }

    /// Whether no function stands in the type.
    #[cycle(plain)]
    pub fn is_plain(&self) -> bool
        ensures { result ≡ is_plain (type_tree self.now) }
    {
        match self {
            Ty::Int | Ty::Bool | Ty::Text => true,
            Ty::Rec(fields) => fields_plain(fields.as_slice()),
            Ty::Bag(element) => element.is_plain(),
            Ty::Fun(_, _) => false,
        }
    }

    /// Whether the two are one type. Records are, where they have the same labels with the same
    /// types.
    #[cycle(same)]
    #[tactic(auto, using(crate::proofs::Terms::type_of_record))]
    pub fn same(&self, other: &Ty) -> bool
        ensures { result ≡ type_eq (type_tree self.now) (type_tree other.now) }
    {
        match (self, other) {
            (Ty::Int, Ty::Int) => true,
            (Ty::Bool, Ty::Bool) => true,
            (Ty::Text, Ty::Text) => true,
            (Ty::Rec(left), Ty::Rec(right)) => same_fields(left.as_slice(), right.as_slice()),
            (Ty::Bag(left), Ty::Bag(right)) => left.same(right),
            (Ty::Fun(taken, given), Ty::Fun(other_taken, other_given)) => {
                taken.same(other_taken) && given.same(other_given)
            }
            _ => false,
        }
    }

    /// A copy of the type.
    #[cycle(copy)]
    #[tactic(auto, using(crate::proofs::Terms::type_of_record))]
    pub fn copy(&self, alloc: Global) -> Result<Ty, Memory>
        ensures { IfOk result (λ copy. type_tree copy ≡ type_tree self.now) }
    {
        match self {
            Ty::Int => Ok(Ty::Int),
            Ty::Bool => Ok(Ty::Bool),
            Ty::Text => Ok(Ty::Text),
            Ty::Rec(fields) => Ok(Ty::Rec(copy_fields(alloc, fields.as_slice())?)),
            Ty::Bag(element) => Ok(Ty::Bag(boxed(alloc, element.copy(alloc)?)?)),
            Ty::Fun(taken, given) => Ok(Ty::Fun(
                boxed(alloc, taken.copy(alloc)?)?,
                boxed(alloc, given.copy(alloc)?)?,
            )),
        }
    }
}

#[cycle(plain)]
fn fields_plain(fields: &[(Label, Ty)]) -> bool
    ensures { result ≡ are_plain (field_types_of (fields_view fields.now)) }
{
    for field in fields {
        if !field.1.is_plain() {
            return false;
        }
    }
    true
}

#[cycle(same)]
fn same_fields(left: &[(Label, Ty)], right: &[(Label, Ty)]) -> bool
    ensures { result ≡ field_types_eq (field_types_of (fields_view left.now))
        (field_types_of (fields_view right.now)) }
{
    if left.len() != right.len() {
        return false;
    }
    for i in 0..left.len() {
        if left[i].0.as_str() != right[i].0.as_str() || !left[i].1.same(&right[i].1) {
            return false;
        }
    }
    true
}

#[cycle(copy)]
fn copy_fields(alloc: Global, fields: &[(Label, Ty)]) -> Result<List<(Label, Ty)>, Memory>
    ensures { IfOk result (λ copies. fields_view copies ≡ fields_view fields.now) }
{
    let mut copies = List::with_capacity(alloc, fields.len())?;
    for field in fields {
        copies.push((field.0.copy(alloc)?, field.1.copy(alloc)?))?;
    }
    Ok(copies)
}
