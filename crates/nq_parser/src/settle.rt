// Forms that end before a token.
ghost use Rattle.std.specs.Prelude.{◌≡◌, IfOk, length, ◌+◌, OnSome};
ghost use Rattle.nq_model.specs.QueryGrammar.{Edition};
ghost use Rattle.nq_parser.specs.Forms.{part_view};
ghost use Rattle.nq_parser.specs.Machine.{after, shift};
ghost use Rattle.nq_parser.specs.Settling.{Taken, top_ends};
ghost use Rattle.nq_parser.specs.Stacks.{frames};
ghost use Rattle.query_syntax.specs.Symbols.{token_view};

use crate::form::Form;
use crate::join::joined;
use crate::levels::ends;
use crate::part::Part;
use crate::stack::Stack;
use nq_model::Memory;
use query_syntax::Token;
use std::alloc::Global;

// Whether the innermost form ends before the token.
fn top_ends(stack: &Stack, token: Token<'_>) -> bool
    ensures { result ≡ top_ends (frames stack.now.levels) (token_view token.entry) }
{
    match stack.top() {
        Some(form) => ends(form, token),
        None => false,
    }
}

// The innermost form, where it ends before the token.
fn take_ending(stack: &mut Stack, token: Token<'_>) -> Option<Form>
    ensures taken { Taken result (frames stack.old.levels) (frames stack.new.levels)
        (token_view token.entry) }
    ensures shorter { OnSome result (length stack.new.levels + 1 ≡ length stack.old.levels) }
{
    if top_ends(stack, token) {
        stack.pop()
    } else {
        None
    }
}

/// Joins the forms that end before the token with the expression.
pub fn settle(
    alloc: Global,
    stack: &mut Stack,
    first: Part,
    token: Token<'_>,
) -> Result<Part, Memory>
    ensures { (edition : Edition) → IfOk result
        (λ whole. after edition (frames stack.old.levels) (part_view first) (token_view token.entry)
        ≡ shift edition (frames stack.new.levels) (part_view whole) (token_view token.entry)) }
{
    let mut part = first;
    while let Some(form) = take_ending(stack, token) {
        part = joined(alloc, form, part)?;
    }
    Ok(part)
}
