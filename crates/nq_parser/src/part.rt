// Parts that were read whole, with how deep they are.
ghost use Rattle.std.specs.Prelude.{◌≡◌, suc, IfOk};
ghost use Rattle.nq_model.specs.QueryGrammar.{depth as depth_of, deepest, fields_depth, fields_deepest, type_depth, type_fields_depth};
ghost use Rattle.query_syntax.specs.Trees.{syntax_view, type_view, fields as record_fields, named, type_fields, typed};

use nq_model::{List, Memory, boxed};
use query_syntax::{FieldName, Syntax, TypeSyntax};
use std::alloc::Global;

/// An expression, how deep it is, and how deep the deepest type in it is.
#[derive(Drop)]
pub struct Part {
    pub syntax: Box<Syntax>,
    pub depth: u64,
    pub types: u64,
    ghost measured: { depth ≡ depth_of (syntax_view syntax.value) },
    ghost types_measured: { types ≡ deepest (syntax_view syntax.value) },
}

/// A type, and how deep it is.
#[derive(Drop)]
pub struct TypePart {
    pub ty: TypeSyntax,
    pub depth: u64,
    ghost measured: { depth ≡ type_depth (type_view ty) },
}

/// The fields of a record that were read, and how deep their expressions and types are.
#[derive(Drop)]
pub struct Fields {
    pub first_name: FieldName,
    pub first: Box<Syntax>,
    pub others: List<(FieldName, Syntax)>,
    pub depth: u64,
    pub types: u64,
    ghost measured: { depth
        ≡ fields_depth (record_fields first_name (syntax_view first.value) (named others)) },
    ghost types_measured: { types
        ≡ fields_deepest (record_fields first_name (syntax_view first.value) (named others)) },
}

/// The fields of a record type that were read, and how deep their types are.
#[derive(Drop)]
pub struct TypeFields {
    pub first_name: FieldName,
    pub first: Box<TypeSyntax>,
    pub others: List<(FieldName, TypeSyntax)>,
    pub depth: u64,
    ghost measured: { depth
        ≡ type_fields_depth (type_fields first_name (type_view first.value) (typed others)) },
}

/// One more; no memory holds a tree that is too deep for a `u64`.
pub fn deeper(depth: u64) -> Result<u64, Memory>
    ensures { IfOk result (λ more. more ≡ suc depth) }
{
    match depth.checked_add(1) {
        Some(more) => Ok(more),
        None => Err(Memory),
    }
}

impl Part {
    /// The expression, which is as deep as the caller knows.
    pub fn new(alloc: Global, syntax: Syntax, depth: u64, types: u64) -> Result<Part, Memory>
        requires measured { depth ≡ depth_of (syntax_view syntax) }
        requires types_measured { types ≡ deepest (syntax_view syntax) }
        ensures { IfOk result (λ made. syntax_view made.syntax.value ≡ syntax_view syntax) }
    {
        let syntax = boxed(alloc, syntax)?;
        Ok(Part {
            syntax,
            depth,
            types,
        })
    }
}
