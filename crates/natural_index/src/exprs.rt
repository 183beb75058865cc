// The expressions of indexes and of elements.
ghost use Rattle.std.specs.Prelude.{◌≡◌, ◌++◌, [], IfOk, OnOk, map, pos};
ghost use Rattle.nq_ir.specs.Trees.{shape_tree, shapes_of, shapes_view};
ghost use Rattle.sql_profile.specs.Scope.{same_type};
ghost use Rattle.sql_profile.specs.Trees.{ExprTree, expr_tree};
ghost use Rattle.natural_keys.specs.Layouts.{filled, of_type};
ghost use Rattle.natural_index.specs.Trees.{index_exprs, key_expr, shape_exprs, shapes_exprs, zero_expr};

use flatten::{base_expr, column_expr};
use natural_keys::{KeyColumn, Layout};
use nq_ir::Shape;
use nq_model::{ColumnType, Label, List, Memory, Text};
use sql_profile::{Expr, ExprNode};
use std::alloc::Global;

/// A number. One above 2^63 - 1 stands in no text, and no form has so many comprehensions.
#[tactic(auto, using(flatten::proofs::Built::int_built))]
pub(crate) fn number(number: u64) -> Result<Expr, Memory>
    ensures { IfOk result (λ made. expr_tree made ≡ ExprTree.int (pos number)) }
{
    match i64::try_from(number) {
        Ok(number) => Ok(Expr {
            place: 0,
            node: ExprNode::Int(number),
        }),
        Err(_) => Err(Memory),
    }
}

/// 0, FALSE or the empty text.
#[tactic(auto, using(flatten::proofs::Built::int_built, flatten::proofs::Built::bool_built, flatten::proofs::Built::text_built))]
pub(crate) fn zero(alloc: Global, of: ColumnType) -> Result<Expr, Memory>
    ensures { IfOk result (λ made. expr_tree made ≡ zero_expr of) }
{
    let node = match of {
        ColumnType::Int => ExprNode::Int(0),
        ColumnType::Bool => ExprNode::Bool(false),
        ColumnType::Text => ExprNode::Text(Text::from_str(alloc, "")?),
    };
    Ok(Expr { place: 0, node })
}

/// A value of the type of each column.
pub(crate) fn zeros(alloc: Global, columns: &[ColumnType]) -> Result<List<Expr>, Memory>
    ensures { IfOk result (λ made. map expr_tree made ≡ map zero_expr columns.now) }
{
    let mut made = List::with_capacity(alloc, columns.len())?;
    for column in columns {
        made.push(zero(alloc, *column)?)?;
    }
    Ok(made)
}

// Whether two column types are one.
fn same_type(left: ColumnType, right: ColumnType) -> bool
    ensures { result ≡ same_type left right }
{
    match (left, right) {
        (ColumnType::Int, ColumnType::Int) => true,
        (ColumnType::Bool, ColumnType::Bool) => true,
        (ColumnType::Text, ColumnType::Text) => true,
        _ => false,
    }
}

// The key columns of one type.
fn key_exprs(alloc: Global, keys: &[KeyColumn], of: ColumnType) -> Result<List<Expr>, Memory>
    ensures { IfOk result (λ made. map expr_tree made ≡ map key_expr (of_type of keys.now)) }
{
    let mut made = List::new(alloc);
    for key in keys {
        if same_type(key.of, of) {
            made.push(column_expr(alloc, key.generator, &key.name)?)?;
        }
    }
    Ok(made)
}

/// The key columns of one type, and 0, FALSE or the empty text as often as they are fewer than a
/// number.
pub(crate) fn group(
    alloc: Global,
    keys: &[KeyColumn],
    of: ColumnType,
    count: u64,
) -> Result<List<Expr>, Memory>
    ensures { IfOk result (λ made.
        map expr_tree made ≡ filled count (map key_expr (of_type of keys.now)) (zero_expr of)) }
{
    let mut made = key_exprs(alloc, keys, of)?;
    let own = made.len() as u64;
    if own < count {
        for at in own..count {
            made.push(zero(alloc, of)?)?;
        }
    }
    Ok(made)
}

// Puts expressions at the end.
fn append(all: &mut List<Expr>, more: List<Expr>) -> Result<(), Memory>
    ensures { OnOk result (all.new ≡ all.old ++ more) }
{
    for expr in more.into_vec() {
        all.push(expr)?;
    }
    Ok(())
}

/// What an inner bag is named by: its comprehension's tag, and the key columns in scope there, by
/// the layout.
#[derive(Clone, Copy)]
pub(crate) struct Index<'a> {
    pub(crate) layout: Layout,
    pub(crate) tag: u64,
    pub(crate) keys: &'a [KeyColumn],
}

// Puts the expressions of an index at the end.
fn push_index(alloc: Global, all: &mut List<Expr>, index: &Index<'_>) -> Result<(), Memory>
    ensures { OnOk result (map expr_tree all.new
        ≡ map expr_tree all.old ++ index_exprs index.now.layout index.now.tag index.now.keys.now) }
{
    let layout = index.layout;
    all.push(number(index.tag)?)?;
    append(all, group(alloc, index.keys, ColumnType::Int, layout.ints)?)?;
    append(
        all,
        group(alloc, index.keys, ColumnType::Bool, layout.bools)?,
    )?;
    append(
        all,
        group(alloc, index.keys, ColumnType::Text, layout.texts)?,
    )
}

/// Puts the expressions of a shape at the end, those of the index for each inner bag.
#[cycle(shapes)]
#[tactic(auto, using(nq_ir::proofs::Forms::shape_plain, nq_ir::proofs::Forms::shape_rec, nq_ir::proofs::Forms::shape_index, crate::proofs::Pushed::plain_pushed))]
pub(crate) fn push_shape(
    alloc: Global,
    shape: &Shape,
    index: &Index<'_>,
    all: &mut List<Expr>,
) -> Result<(), Memory>
    ensures { OnOk result (map expr_tree all.new
        ≡ map expr_tree all.old
        ++ shape_exprs (index_exprs index.now.layout index.now.tag index.now.keys.now)
        (shape_tree shape.now)) }
{
    match shape {
        Shape::Plain(base) => all.push(base_expr(alloc, base)?),
        Shape::Rec(fields) => push_fields(alloc, fields.as_slice(), index, all),
        Shape::Index => push_index(alloc, all, index),
    }
}

#[cycle(shapes)]
fn push_fields(
    alloc: Global,
    fields: &[(Label, Shape)],
    index: &Index<'_>,
    all: &mut List<Expr>,
) -> Result<(), Memory>
    ensures { OnOk result (map expr_tree all.new
        ≡ map expr_tree all.old
        ++ shapes_exprs (index_exprs index.now.layout index.now.tag index.now.keys.now)
        (shapes_of (shapes_view fields.now))) }
{
    for field in fields {
        push_shape(alloc, &field.1, index, all)?;
    }
    Ok(())
}
