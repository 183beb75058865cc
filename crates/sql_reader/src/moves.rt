// Positions behind a token.
ghost use Rattle.std.specs.Prelude.{◌≡◌, ◌∷◌, Some, IfOk};
ghost use Rattle.sql_profile.specs.Trees.{placed_node};
ghost use Rattle.sql_reader.specs.Parts.{leaf, named};
ghost use Rattle.sql_reader.specs.Stacks.{form_view, forms};
ghost use Rattle.sql_reader.specs.States.{Forms, Turns, Withs};
ghost use Rattle.sql_reader.specs.Steps.{Have, On, Want};
ghost use Rattle.sql_reader.specs.Views.{name_view};

use crate::form::Form;
use crate::lists::Name;
use crate::part;
use crate::stack::Stack;
use crate::state::Position;
use nq_model::{Label, Memory};
use sql_profile::ExprNode;
use std::alloc::Global;

/// An expression has to begin, inside one form more.
pub fn wants(stack: &mut Stack, form: Form) -> Result<Option<Position>, Memory>
    ensures { (b : Withs) → Turns result b (forms stack.new.levels)
        (Some (On b (form_view form ∷ forms stack.old.levels) Want)) }
{
    stack.push(form)?;
    Ok(Some(Position::Want))
}

/// An expression that has no parts was read.
pub fn leaf(alloc: Global, place: u64, node: ExprNode) -> Result<Option<Position>, Memory>
    ensures { (b : Withs) (k : Forms)
        → Turns result b k (Some (On b k (Have (leaf (placed_node node place))))) }
{
    let part = part::leaf(alloc, place, node)?;
    Ok(Some(Position::Have { part }))
}

/// A name at its place.
pub fn named(alloc: Global, place: u64, name: &str) -> Result<Name, Memory>
    ensures { IfOk result (λ made. name_view made ≡ named place name.now) }
{
    let label = Label::from_str(alloc, name)?;
    Ok(Name { place, label })
}
