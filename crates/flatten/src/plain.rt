// Columns, base terms and conditions where no generator stands outside, as in texts without WITH.
ghost use Rattle.std.specs.Prelude.{◌≡◌, IfOk};
ghost use Rattle.nq_ir.specs.Trees.{base_tree, conds_tree};
ghost use Rattle.sql_profile.specs.Trees.{expr_tree};
ghost use Rattle.flatten.specs.Exprs.{base_expr, column_expr, conds_keep};
ghost use Rattle.flatten.specs.Emitted.{none_outer};
ghost use Rattle.flatten.specs.Views.{keep_tree};

use crate::expr::{column, expr, keep};
use crate::select::DEEPEST;
use nq_ir::Base;
use nq_model::{Label, Memory};
use sql_profile::Expr;
use std::alloc::Global;

/// A column of a generator, whose source is seen. Fails only if memory runs out.
pub fn column_expr(alloc: Global, number: u64, name: &Label) -> Result<Expr, Memory>
    ensures { IfOk result (λ made. expr_tree made ≡ column_expr none_outer number name.now) }
{
    column(alloc, false, number, name)
}

/// A base term as an expression, where the sources of all its generators are seen. Fails only if
/// memory runs out, as for an expression of more than 2,000 levels.
pub fn base_expr(alloc: Global, base: &Base) -> Result<Expr, Memory>
    ensures { IfOk result (λ made. expr_tree made ≡ base_expr none_outer (base_tree base.now)) }
{
    expr(alloc, &[], base, DEEPEST)
}

/// What stands behind WHERE where these conditions are to hold, joined from the left. Fails only if
/// memory runs out, as for an expression of more than 2,000 levels.
pub fn conds_keep(alloc: Global, conds: &[Base]) -> Result<Option<Expr>, Memory>
    ensures { IfOk result (λ made. keep_tree made ≡ conds_keep none_outer (conds_tree conds.now)) }
{
    keep(alloc, &[], conds, DEEPEST)
}
