// A whole expression.
ghost use Rattle.std.specs.Prelude.{◌≡◌, List, Some};
ghost use Rattle.nq_model.specs.QueryGrammar.{deepest, depth as depth_of};
ghost use Rattle.nq_parser.specs.Machine.{Frame, Have};
ghost use Rattle.nq_parser.specs.States.{Leads};
ghost use Rattle.query_syntax.specs.Trees.{syntax_view};

use crate::part::Part;
use crate::state::Position;
use nq_model::Memory;
use query_syntax::Syntax;
use std::alloc::Global;

/// An expression was read whole, which is as deep as the caller knows.
pub fn have(
    alloc: Global,
    syntax: Syntax,
    depth: u64,
    types: u64,
) -> Result<Option<Position>, Memory>
    requires measured { depth ≡ depth_of (syntax_view syntax) }
    requires types_measured { types ≡ deepest (syntax_view syntax) }
    ensures { (k : List Frame) → Leads result k (Some (Have (syntax_view syntax) k)) }
{
    let part = Part::new(alloc, syntax, depth, types)?;
    Ok(Some(Position::Have { part }))
}
