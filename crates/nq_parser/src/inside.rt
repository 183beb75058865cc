// A token that ends what stands between two tokens of a form.
ghost use Rattle.std.specs.Prelude.{◌≡◌, ◌∷◌, IfOk};
ghost use Rattle.nq_model.specs.QueryGrammar.{Aggregated, Apply, Bag, Edition as AnyEdition, Paren, Rec};
ghost use Rattle.nq_model.specs.QueryTokens.{Closing, ClosingBag, Comma, Semicolon, Sign, Word};
ghost use Rattle.nq_parser.specs.Editions.{edition_view};
ghost use Rattle.nq_parser.specs.Forms.{form_view, head_view, part_view};
ghost use Rattle.nq_parser.specs.Machine.{else_word, put_field, shift, then_word};
ghost use Rattle.nq_parser.specs.Stacks.{frames};
ghost use Rattle.nq_parser.specs.States.{Leads};
ghost use Rattle.nq_parser.specs.Words.{kind_view};
ghost use Rattle.query_syntax.specs.Trees.{aggregate_view};

use crate::edition::Edition;
use crate::form::{FieldHead, Form};
use crate::join::put_field;
use crate::part::{Part, deeper};
use crate::stack::Stack;
use crate::state::Position;
use crate::wants::wants;
use crate::words::{WordKind, kind_of};
use nq_model::{Label, Memory};
use query_syntax::{Aggregate, Syntax};
use std::alloc::Global;

/// A `)` behind the expression that the innermost form waited for.
pub fn close(
    alloc: Global,
    stack: &mut Stack,
    part: Part,
    closing: u64,
) -> Result<Option<Position>, Memory>
    ensures { (edition : AnyEdition)
        → Leads result (frames stack.new.levels)
        (shift edition (frames stack.old.levels) (part_view part) (Sign closing Closing)) }
{
    match stack.pop() {
        Some(form) => close_form(alloc, stack, form, part, closing),
        None => Ok(None),
    }
}

fn close_form(
    alloc: Global,
    stack: &mut Stack,
    form: Form,
    part: Part,
    closing: u64,
) -> Result<Option<Position>, Memory>
    ensures { (edition : AnyEdition)
        → Leads result (frames stack.new.levels)
        (shift edition (form_view form ∷ frames stack.old.levels) (part_view part)
        (Sign closing Closing)) }
{
    match form {
        Form::Source {
            place,
            opening,
            variable,
            from,
        } => wants(
            stack,
            Form::ForBody {
                place,
                opening,
                variable,
                from,
                source: part,
                closing,
            },
        ),
        Form::Test { place, opening } => wants(
            stack,
            Form::Guarded {
                place,
                opening,
                test: part,
                closing,
            },
        ),
        Form::Paren { opening } => {
            let part = paren(alloc, opening, part, closing)?;
            Ok(Some(Position::Have { part }))
        }
        Form::Aggregate {
            aggregate,
            place,
            opening,
        } => {
            let part = asked(alloc, aggregate, place, opening, part, closing)?;
            Ok(Some(Position::Have { part }))
        }
        Form::Argument { func, opening } => {
            let part = apply(alloc, func, opening, part, closing)?;
            Ok(Some(Position::Have { part }))
        }
        Form::Field {
            head,
            place,
            label,
            mark,
        } => {
            let part = record(alloc, head, place, label, mark, part, closing)?;
            Ok(Some(Position::Have { part }))
        }
        Form::Bag { .. }
        | Form::ForBody { .. }
        | Form::Guarded { .. }
        | Form::If { .. }
        | Form::Then { .. }
        | Form::Else { .. }
        | Form::FunBody { .. }
        | Form::LetValue { .. }
        | Form::LetBody { .. }
        | Form::Prefix { .. }
        | Form::Right { .. } => {
            drop(form);
            Ok(None)
        }
    }
}

fn paren(alloc: Global, opening: u64, inner: Part, closing: u64) -> Result<Part, Memory>
    ensures { IfOk result (λ whole. part_view whole ≡ Paren opening (part_view inner) closing) }
{
    let depth = deeper(inner.depth)?;
    let types = inner.types;
    let syntax = Syntax::Paren {
        opening,
        inner: inner.syntax,
        closing,
    };
    Part::new(alloc, syntax, depth, types)
}

fn asked(
    alloc: Global,
    aggregate: Aggregate,
    place: u64,
    opening: u64,
    of: Part,
    closing: u64,
) -> Result<Part, Memory>
    ensures { IfOk result (λ whole.
        part_view whole ≡ Aggregated (aggregate_view aggregate) place opening (part_view of)
        closing) }
{
    let depth = deeper(of.depth)?;
    let types = of.types;
    let syntax = Syntax::Aggregated {
        aggregate,
        place,
        opening,
        of: of.syntax,
        closing,
    };
    Part::new(alloc, syntax, depth, types)
}

fn apply(alloc: Global, func: Part, opening: u64, arg: Part, closing: u64) -> Result<Part, Memory>
    ensures { IfOk result (λ whole.
        part_view whole ≡ Apply (part_view func) opening (part_view arg) closing) }
{
    let depth = deeper(func.depth.max(arg.depth))?;
    let types = func.types.max(arg.types);
    let syntax = Syntax::Apply {
        func: func.syntax,
        opening,
        arg: arg.syntax,
        closing,
    };
    Part::new(alloc, syntax, depth, types)
}

fn record(
    alloc: Global,
    head: FieldHead,
    place: u64,
    label: Label,
    mark: u64,
    last: Part,
    closing: u64,
) -> Result<Part, Memory>
    ensures { IfOk result (λ whole.
        part_view whole ≡ Rec (put_field (head_view head) place label mark (part_view last))
        closing) }
{
    let fields = put_field(alloc, head, place, label, mark, last)?;
    let depth = deeper(fields.depth)?;
    let types = fields.types;
    let syntax = Syntax::Rec {
        first_name: fields.first_name,
        first: fields.first,
        others: fields.others,
        closing,
    };
    Part::new(alloc, syntax, depth, types)
}

/// A `]` behind the expression that the innermost form waited for.
pub fn close_bag(
    alloc: Global,
    stack: &mut Stack,
    part: Part,
    closing: u64,
) -> Result<Option<Position>, Memory>
    ensures { (edition : AnyEdition)
        → Leads result (frames stack.new.levels)
        (shift edition (frames stack.old.levels) (part_view part) (Sign closing ClosingBag)) }
{
    match stack.pop() {
        Some(form) => close_bag_form(alloc, stack, form, part, closing),
        None => Ok(None),
    }
}

fn close_bag_form(
    alloc: Global,
    stack: &mut Stack,
    form: Form,
    part: Part,
    closing: u64,
) -> Result<Option<Position>, Memory>
    ensures { (edition : AnyEdition)
        → Leads result (frames stack.new.levels)
        (shift edition (form_view form ∷ frames stack.old.levels) (part_view part)
        (Sign closing ClosingBag)) }
{
    match form {
        Form::Bag { opening } => {
            let part = bag(alloc, opening, part, closing)?;
            Ok(Some(Position::Have { part }))
        }
        Form::Paren { .. }
        | Form::Aggregate { .. }
        | Form::Source { .. }
        | Form::ForBody { .. }
        | Form::Test { .. }
        | Form::Guarded { .. }
        | Form::If { .. }
        | Form::Then { .. }
        | Form::Else { .. }
        | Form::FunBody { .. }
        | Form::LetValue { .. }
        | Form::LetBody { .. }
        | Form::Prefix { .. }
        | Form::Right { .. }
        | Form::Argument { .. }
        | Form::Field { .. } => {
            drop(form);
            Ok(None)
        }
    }
}

fn bag(alloc: Global, opening: u64, element: Part, closing: u64) -> Result<Part, Memory>
    ensures { IfOk result (λ whole. part_view whole ≡ Bag opening (part_view element) closing) }
{
    let depth = deeper(element.depth)?;
    let types = element.types;
    let syntax = Syntax::Bag {
        opening,
        element: element.syntax,
        closing,
    };
    Part::new(alloc, syntax, depth, types)
}

/// `then` or `else` behind the expression that the innermost form waited for.
pub fn word_behind(
    edition: Edition,
    stack: &mut Stack,
    part: Part,
    place: u64,
    word: &str,
) -> Result<Option<Position>, Memory>
    ensures { Leads result (frames stack.new.levels)
        (shift (edition_view edition) (frames stack.old.levels) (part_view part)
        (Word place word.now)) }
{
    match stack.pop() {
        Some(form) => word_form(edition, stack, form, part, place, word),
        None => Ok(None),
    }
}

fn word_form(
    edition: Edition,
    stack: &mut Stack,
    form: Form,
    part: Part,
    behind: u64,
    word: &str,
) -> Result<Option<Position>, Memory>
    ensures { Leads result (frames stack.new.levels)
        (shift (edition_view edition) (form_view form ∷ frames stack.old.levels) (part_view part)
        (Word behind word.now)) }
{
    match form {
        Form::If { place } => then_behind(stack, place, part, behind, kind_of(edition, word)),
        Form::Then {
            place,
            test,
            then_place,
        } => else_behind(
            stack,
            place,
            test,
            then_place,
            part,
            behind,
            kind_of(edition, word),
        ),
        Form::Paren { .. }
        | Form::Bag { .. }
        | Form::Aggregate { .. }
        | Form::Source { .. }
        | Form::ForBody { .. }
        | Form::Test { .. }
        | Form::Guarded { .. }
        | Form::Else { .. }
        | Form::FunBody { .. }
        | Form::LetValue { .. }
        | Form::LetBody { .. }
        | Form::Prefix { .. }
        | Form::Right { .. }
        | Form::Argument { .. }
        | Form::Field { .. } => {
            drop(form);
            Ok(None)
        }
    }
}

fn then_behind(
    stack: &mut Stack,
    place: u64,
    test: Part,
    then_place: u64,
    kind: WordKind,
) -> Result<Option<Position>, Memory>
    ensures { Leads result (frames stack.new.levels)
        (then_word (kind_view kind) place (part_view test) then_place (frames stack.old.levels)) }
{
    match kind {
        WordKind::Then => wants(
            stack,
            Form::Then {
                place,
                test,
                then_place,
            },
        ),
        WordKind::For
        | WordKind::Where
        | WordKind::If
        | WordKind::Else
        | WordKind::Fun
        | WordKind::Let
        | WordKind::Table
        | WordKind::Aggregate(_)
        | WordKind::Truth(_)
        | WordKind::Base(_)
        | WordKind::Name => Ok(None),
    }
}

fn else_behind(
    stack: &mut Stack,
    place: u64,
    test: Part,
    then_place: u64,
    yes: Part,
    else_place: u64,
    kind: WordKind,
) -> Result<Option<Position>, Memory>
    ensures { Leads result (frames stack.new.levels)
        (else_word (kind_view kind) place (part_view test) then_place (part_view yes) else_place
        (frames stack.old.levels)) }
{
    match kind {
        WordKind::Else => wants(
            stack,
            Form::Else {
                place,
                test,
                then_place,
                yes,
                else_place,
            },
        ),
        WordKind::For
        | WordKind::Where
        | WordKind::If
        | WordKind::Then
        | WordKind::Fun
        | WordKind::Let
        | WordKind::Table
        | WordKind::Aggregate(_)
        | WordKind::Truth(_)
        | WordKind::Base(_)
        | WordKind::Name => Ok(None),
    }
}

/// A `;` behind the expression that the innermost form waited for.
pub fn semicolon_behind(
    stack: &mut Stack,
    value: Part,
    semicolon: u64,
) -> Result<Option<Position>, Memory>
    ensures { (edition : AnyEdition)
        → Leads result (frames stack.new.levels)
        (shift edition (frames stack.old.levels) (part_view value) (Sign semicolon Semicolon)) }
{
    match stack.pop() {
        Some(form) => semicolon_form(stack, form, value, semicolon),
        None => Ok(None),
    }
}

fn semicolon_form(
    stack: &mut Stack,
    form: Form,
    value: Part,
    semicolon: u64,
) -> Result<Option<Position>, Memory>
    ensures { (edition : AnyEdition)
        → Leads result (frames stack.new.levels)
        (shift edition (form_view form ∷ frames stack.old.levels) (part_view value)
        (Sign semicolon Semicolon)) }
{
    match form {
        Form::LetValue {
            place,
            variable,
            assign,
        } => wants(
            stack,
            Form::LetBody {
                place,
                variable,
                assign,
                value,
                semicolon,
            },
        ),
        Form::Paren { .. }
        | Form::Bag { .. }
        | Form::Aggregate { .. }
        | Form::Source { .. }
        | Form::ForBody { .. }
        | Form::Test { .. }
        | Form::Guarded { .. }
        | Form::If { .. }
        | Form::Then { .. }
        | Form::Else { .. }
        | Form::FunBody { .. }
        | Form::LetBody { .. }
        | Form::Prefix { .. }
        | Form::Right { .. }
        | Form::Argument { .. }
        | Form::Field { .. } => {
            drop(form);
            Ok(None)
        }
    }
}

/// A comma behind the expression that the innermost form waited for.
pub fn comma_behind(
    alloc: Global,
    stack: &mut Stack,
    part: Part,
    comma: u64,
) -> Result<Option<Position>, Memory>
    ensures { (edition : AnyEdition)
        → Leads result (frames stack.new.levels)
        (shift edition (frames stack.old.levels) (part_view part) (Sign comma Comma)) }
{
    match stack.pop() {
        Some(form) => comma_form(alloc, stack, form, part, comma),
        None => Ok(None),
    }
}

fn comma_form(
    alloc: Global,
    stack: &mut Stack,
    form: Form,
    part: Part,
    comma: u64,
) -> Result<Option<Position>, Memory>
    ensures { (edition : AnyEdition)
        → Leads result (frames stack.new.levels)
        (shift edition (form_view form ∷ frames stack.old.levels) (part_view part)
        (Sign comma Comma)) }
{
    match form {
        Form::Field {
            head,
            place,
            label,
            mark,
        } => {
            let fields = put_field(alloc, head, place, label, mark, part)?;
            Ok(Some(Position::AtComma { fields, comma }))
        }
        Form::Paren { .. }
        | Form::Bag { .. }
        | Form::Aggregate { .. }
        | Form::Source { .. }
        | Form::ForBody { .. }
        | Form::Test { .. }
        | Form::Guarded { .. }
        | Form::If { .. }
        | Form::Then { .. }
        | Form::Else { .. }
        | Form::FunBody { .. }
        | Form::LetValue { .. }
        | Form::LetBody { .. }
        | Form::Prefix { .. }
        | Form::Right { .. }
        | Form::Argument { .. } => {
            drop(form);
            Ok(None)
        }
    }
}
