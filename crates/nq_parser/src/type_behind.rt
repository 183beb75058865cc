// A token behind a whole type.
ghost use Rattle.std.specs.Prelude.{◌≡◌, IfOk, List};
ghost use Rattle.nq_model.specs.QueryGrammar.{TBag, TParen, TRec};
ghost use Rattle.nq_model.specs.QueryTokens.{Closing, ClosingBag, Comma, Sign};
ghost use Rattle.nq_parser.specs.Forms.{around_view, type_head_view};
ghost use Rattle.nq_parser.specs.Machine.{Frame, after_around, after_type, put_type};
ghost use Rattle.nq_parser.specs.States.{Leads, Stands};
ghost use Rattle.query_syntax.specs.Symbols.{token_view};
ghost use Rattle.query_syntax.specs.Trees.{type_view};
ghost use Rattle.nq_parser.specs.TypeSettling.{end_view};
ghost use Rattle.nq_parser.specs.TypeStacks.{type_frames};

use crate::form::{Around, TypeForm, TypeHead};
use crate::have::have;
use crate::join::put_type;
use crate::part::{TypePart, deeper};
use crate::state::{Position, TypeState};
use crate::type_settle::{TypeEnd, settle_type};
use crate::wants::wants_type;
use nq_model::{Label, Memory, boxed};
use query_syntax::{Symbol, Syntax, Token, TypeSyntax};
use std::alloc::Global;

/// A token behind a type: function types end before it, and what stands around them goes on.
pub fn after_type(
    alloc: Global,
    part: TypePart,
    ty: TypeState,
    token: Token<'_>,
) -> Result<Option<Position>, Memory>
    ensures { (k : List Frame)
        → Leads result k (after_type (type_frames ty.forms.levels) (type_view part.ty)
        (around_view ty.around) k (token_view token.entry)) }
{
    let place = token.place;
    match token.symbol {
        Symbol::Arrow => {
            let form = TypeForm::Right {
                taken: part,
                arrow: place,
            };
            wants_type(ty, form)
        }
        Symbol::Closing => close(alloc, part, ty, place),
        Symbol::ClosingBag => close_bag(alloc, part, ty, place),
        Symbol::Comma => comma_behind(alloc, part, ty, place),
        _ => Ok(None),
    }
}

// A `)` behind a type.
fn close(
    alloc: Global,
    part: TypePart,
    ty: TypeState,
    closing: u64,
) -> Result<Option<Position>, Memory>
    ensures { (k : List Frame)
        → Leads result k (after_type (type_frames ty.forms.levels) (type_view part.ty)
        (around_view ty.around) k (Sign closing Closing)) }
{
    let mut ty = ty;
    let (part, end) = settle_type(alloc, &mut ty.forms, part)?;
    close_end(alloc, part, end, ty, closing)
}

fn close_end(
    alloc: Global,
    part: TypePart,
    end: TypeEnd,
    ty: TypeState,
    closing: u64,
) -> Result<Option<Position>, Memory>
    ensures { (k : List Frame)
        → Leads result k (after_type (end_view end (type_frames ty.forms.levels))
        (type_view part.ty) (around_view ty.around) k (Sign closing Closing)) }
{
    match end {
        TypeEnd::Paren { opening } => {
            let part = paren(alloc, opening, part, closing)?;
            Ok(Some(Position::HaveType { part, ty }))
        }
        TypeEnd::Field {
            head,
            place,
            label,
            mark,
        } => {
            let part = record(alloc, head, place, label, mark, part, closing)?;
            Ok(Some(Position::HaveType { part, ty }))
        }
        TypeEnd::Bag { .. } => Ok(None),
        TypeEnd::Whole => Ok(close_around(part, ty.around, closing)),
    }
}

// The `)` behind the type of a function's variable.
fn close_around(taken: TypePart, around: Around, closing: u64) -> Option<Position>
    ensures { (k : List Frame)
        → Stands result k (after_around (around_view around) (type_view taken.ty) k
        (Sign closing Closing)) }
{
    match around {
        Around::Fun {
            place,
            opening,
            variable,
            colon,
        } => {
            Some(Position::AtFunClose {
                place,
                opening,
                variable,
                colon,
                taken,
                closing,
            })
        }
        Around::Nil { .. } => None,
    }
}

fn paren(alloc: Global, opening: u64, inner: TypePart, closing: u64) -> Result<TypePart, Memory>
    ensures { IfOk result (λ whole.
        type_view whole.ty ≡ TParen opening (type_view inner.ty) closing) }
{
    let depth = deeper(inner.depth)?;
    let inner = boxed(alloc, inner.ty)?;
    let ty = TypeSyntax::Paren {
        opening,
        inner,
        closing,
    };
    Ok(TypePart { ty, depth })
}

fn record(
    alloc: Global,
    head: TypeHead,
    place: u64,
    label: Label,
    mark: u64,
    last: TypePart,
    closing: u64,
) -> Result<TypePart, Memory>
    ensures { IfOk result (λ whole.
        type_view whole.ty ≡ TRec
        (put_type (type_head_view head) place label mark (type_view last.ty)) closing) }
{
    let fields = put_type(alloc, head, place, label, mark, last)?;
    let depth = deeper(fields.depth)?;
    let ty = TypeSyntax::Rec {
        first_name: fields.first_name,
        first: fields.first,
        others: fields.others,
        closing,
    };
    Ok(TypePart { ty, depth })
}

// A `]` behind a type.
fn close_bag(
    alloc: Global,
    part: TypePart,
    ty: TypeState,
    closing: u64,
) -> Result<Option<Position>, Memory>
    ensures { (k : List Frame)
        → Leads result k (after_type (type_frames ty.forms.levels) (type_view part.ty)
        (around_view ty.around) k (Sign closing ClosingBag)) }
{
    let mut ty = ty;
    let (part, end) = settle_type(alloc, &mut ty.forms, part)?;
    close_bag_end(alloc, part, end, ty, closing)
}

fn close_bag_end(
    alloc: Global,
    part: TypePart,
    end: TypeEnd,
    ty: TypeState,
    closing: u64,
) -> Result<Option<Position>, Memory>
    ensures { (k : List Frame)
        → Leads result k (after_type (end_view end (type_frames ty.forms.levels))
        (type_view part.ty) (around_view ty.around) k (Sign closing ClosingBag)) }
{
    match end {
        TypeEnd::Bag { opening } => {
            let part = bag(alloc, opening, part, closing)?;
            Ok(Some(Position::HaveType { part, ty }))
        }
        TypeEnd::Paren { .. } | TypeEnd::Field { .. } => Ok(None),
        TypeEnd::Whole => close_nil(alloc, part, ty.around, closing),
    }
}

fn bag(alloc: Global, opening: u64, element: TypePart, closing: u64) -> Result<TypePart, Memory>
    ensures { IfOk result (λ whole.
        type_view whole.ty ≡ TBag opening (type_view element.ty) closing) }
{
    let depth = deeper(element.depth)?;
    let element = boxed(alloc, element.ty)?;
    let ty = TypeSyntax::Bag {
        opening,
        element,
        closing,
    };
    Ok(TypePart { ty, depth })
}

// The `]` of an empty bag.
fn close_nil(
    alloc: Global,
    element: TypePart,
    around: Around,
    closing: u64,
) -> Result<Option<Position>, Memory>
    ensures { (k : List Frame)
        → Leads result k (after_around (around_view around) (type_view element.ty) k
        (Sign closing ClosingBag)) }
{
    match around {
        Around::Nil { opening, colon } => {
            let types = element.depth;
            let syntax = Syntax::Nil {
                opening,
                colon,
                element: element.ty,
                closing,
            };
            have(alloc, syntax, 1, types)
        }
        Around::Fun { .. } => Ok(None),
    }
}

// A comma behind a type.
fn comma_behind(
    alloc: Global,
    part: TypePart,
    ty: TypeState,
    comma: u64,
) -> Result<Option<Position>, Memory>
    ensures { (k : List Frame)
        → Leads result k (after_type (type_frames ty.forms.levels) (type_view part.ty)
        (around_view ty.around) k (Sign comma Comma)) }
{
    let mut ty = ty;
    let (part, end) = settle_type(alloc, &mut ty.forms, part)?;
    comma_end(alloc, part, end, ty, comma)
}

#[tactic(auto, using(crate::proofs::TypeStepping::around_comma))]
fn comma_end(
    alloc: Global,
    part: TypePart,
    end: TypeEnd,
    ty: TypeState,
    comma: u64,
) -> Result<Option<Position>, Memory>
    ensures { (k : List Frame)
        → Leads result k (after_type (end_view end (type_frames ty.forms.levels))
        (type_view part.ty) (around_view ty.around) k (Sign comma Comma)) }
{
    match end {
        TypeEnd::Field {
            head,
            place,
            label,
            mark,
        } => {
            let fields = put_type(alloc, head, place, label, mark, part)?;
            Ok(Some(Position::AtTypeComma { fields, comma, ty }))
        }
        TypeEnd::Paren { .. } | TypeEnd::Bag { .. } | TypeEnd::Whole => Ok(None),
    }
}
