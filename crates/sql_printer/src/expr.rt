// Expressions.
ghost use Rattle.std.specs.Prelude.{◌≡◌, ◌++◌, OnOk, codes, string_bytes};
ghost use Rattle.sql_profile.specs.Printed.{before_operand, between_operands, printed_expr, printed_from, printed_keep, printed_keys};
ghost use Rattle.sql_profile.specs.Parts.{exprs_tree, picked_from, picked_keep};
ghost use Rattle.sql_profile.specs.Trees.{column, expr_tree, not_exists, query_tree, unary};
ghost use Rattle.sql_printer.specs.Chains.{openings, printed_links};

use crate::from::put_from;
use crate::literal::{put_lead, put_literal, put_name, put_truth};
use crate::query::{put_keep, put_query};
use nq_model::{Binary, Label, Memory, Unary};
use sql_profile::{Expr, ExprNode, Link, Picked, Query};

// The expression, with each operation in parentheses.
#[cycle(put)]
pub(crate) fn put_expr(text: &mut String, expr: &Expr) -> Result<(), Memory>
    ensures { OnOk result (string_bytes text.new
        ≡ string_bytes text.old ++ printed_expr (expr_tree expr.now)) }
{
    match &expr.node {
        ExprNode::Int(number) => Ok(write!(text, "{number}")?),
        ExprNode::Bool(truth) => put_truth(text, *truth),
        ExprNode::Text(literal) => put_literal(text, literal.as_str()),
        ExprNode::Column { alias, column } => put_column(text, alias, column),
        ExprNode::Unary { op, of } => put_unary(text, *op, of),
        ExprNode::Binary { op, left, right } => {
            text.push_str("(")?;
            put_part(text, left, between_operands(*op))?;
            put_part(text, right, ")")
        }
        ExprNode::Chain { op, first, more } => {
            put_openings(text, more.len())?;
            put_expr(text, first)?;
            put_links(text, *op, more.as_slice())
        }
        ExprNode::Choose { test, yes, no } => {
            text.push_str("CASE WHEN ")?;
            put_part(text, test, " THEN ")?;
            put_part(text, yes, " ELSE ")?;
            put_part(text, no, " END")
        }
        ExprNode::NotExists(query) => put_not_exists(text, query),
        ExprNode::Count(over) => {
            text.push_str("(SELECT COUNT(*)")?;
            put_picked(text, over)
        }
        ExprNode::Sum { over, value } => {
            text.push_str("(SELECT COALESCE(SUM(")?;
            put_part(text, value, "), 0)")?;
            put_picked(text, over)
        }
    }
}

// An expression, and what stands behind it.
#[cycle(put)]
fn put_part(text: &mut String, expr: &Expr, behind: &str) -> Result<(), Memory>
    ensures { OnOk result (string_bytes text.new
        ≡ string_bytes text.old ++ (printed_expr (expr_tree expr.now) ++ behind.now)) }
{
    put_expr(text, expr)?;
    text.push_str(behind)?;
    Ok(())
}

fn put_column(text: &mut String, alias: &Label, name: &Label) -> Result<(), Memory>
    ensures { OnOk result (string_bytes text.new
        ≡ string_bytes text.old ++ printed_expr (column alias.now name.now)) }
{
    put_name(text, alias)?;
    text.push_str(".")?;
    put_name(text, name)
}

#[cycle(put)]
fn put_unary(text: &mut String, op: Unary, of: &Expr) -> Result<(), Memory>
    ensures { OnOk result (string_bytes text.new
        ≡ string_bytes text.old ++ printed_expr (unary op (expr_tree of.now))) }
{
    text.push_str("(")?;
    text.push_str(before_operand(op))?;
    put_part(text, of, ")")
}

// The parentheses that a chain of so many links opens.
fn put_openings(text: &mut String, links: usize) -> Result<(), Memory>
    ensures { OnOk result (string_bytes text.new ≡ string_bytes text.old ++ openings links) }
{
    for _ in 0..links {
        text.push_str("(")?;
    }
    Ok(())
}

// What stands behind the first part of a chain.
#[cycle(put)]
fn put_links(text: &mut String, op: Binary, links: &[Link]) -> Result<(), Memory>
    ensures { OnOk result (string_bytes text.new
        ≡ string_bytes text.old ++ printed_links op links.now) }
{
    for link in links {
        text.push_str(between_operands(op))?;
        put_part(text, &link.right, ")")?;
    }
    Ok(())
}

#[cycle(put)]
fn put_not_exists(text: &mut String, query: &Query) -> Result<(), Memory>
    ensures { OnOk result (string_bytes text.new
        ≡ string_bytes text.old ++ printed_expr (not_exists (query_tree query.now))) }
{
    text.push_str("(NOT EXISTS (")?;
    put_query(text, query)?;
    text.push_str("))")?;
    Ok(())
}

// The sources and the condition of a scalar query, and its end.
#[cycle(put)]
fn put_picked(text: &mut String, over: &Picked) -> Result<(), Memory>
    ensures { OnOk result (string_bytes text.new
        ≡ string_bytes text.old ++ (printed_from (picked_from over.now)
        ++ (printed_keep (picked_keep over.now) ++ codes ")"))) }
{
    put_from(text, over.from.as_slice())?;
    put_keep(text, &over.keep)?;
    text.push_str(")")?;
    Ok(())
}

fn before_operand(op: Unary) -> &'static str
    ensures { result.now ≡ before_operand op }
{
    match op {
        Unary::Minus => "- ",
        Unary::Not => "NOT ",
    }
}

fn between_operands(op: Binary) -> &'static str
    ensures { result.now ≡ between_operands op }
{
    match op {
        Binary::Add => " + ",
        Binary::Sub => " - ",
        Binary::Mul => " * ",
        Binary::Eq => " = ",
        Binary::Ne => " <> ",
        Binary::Lt => " < ",
        Binary::Le => " <= ",
        Binary::Gt => " > ",
        Binary::Ge => " >= ",
        Binary::And => " AND ",
        Binary::Or => " OR ",
    }
}

// ORDER BY and the keys, if there are any.
#[cycle(put)]
pub(crate) fn put_keys(text: &mut String, keys: &[Expr]) -> Result<(), Memory>
    ensures { OnOk result (string_bytes text.new
        ≡ string_bytes text.old ++ printed_keys (exprs_tree keys.now)) }
{
    for (place, key) in keys.iter().enumerate() {
        put_lead(text, place, "ORDER BY ", ", ")?;
        put_expr(text, key)?;
    }
    Ok(())
}
