// What is shown of a query: its type, its normal form and its SQL texts.
ghost use Rattle.std.specs.Prelude.{◌≡◌, All, IfOk, Ok, length};
ghost use Rattle.std.specs.Str.{IsUtf8};
ghost use Rattle.nq_model.specs.Proper.{IsProperTerm};
ghost use Rattle.nq_model.specs.Tables.{IsProperSchema};
ghost use Rattle.nq_model.specs.Terms.{placed, term_tree};
ghost use Rattle.nq_model.specs.Types.{TypeTree, type_tree, bag};
ghost use Rattle.nq_model.specs.Typing.{IsAccepted};
ghost use Rattle.nq_ir.specs.NormalForms.{element_type};
ghost use Rattle.nq_ir.specs.Paths.{paths};
ghost use Rattle.nq_ir.specs.Trees.{form_tree};
ghost use Rattle.shred_types.specs.Under.{steps_of};
ghost use Rattle.command_line.specs.Words.{showing_view};
ghost use Rattle.nq_top.specs.Lines.{type_line};
ghost use Rattle.nq_top.specs.Reading.{PlainReading, type_read};
ghost use Rattle.nq_top.specs.Shown.{Shows, shown_form, form_line, shown_texts, texts_by};
ghost use Rattle.nq_top.specs.Steps.{IsQuery, typed_view};

use crate::texts::TypedQuery;
use command_line::{Showing, frames};
use database_scripts::ask_script;
use normal_printer::print_normal;
use normalise::normalise;
use nq_compile::{Compiled, compile};
use nq_ir::Normal;
use nq_model::{List, Memory, Schema, Term, Ty};
use nq_types::write_type;
use query_json::write_query_json;
use std::alloc::Global;
use unfold::unfold;

/// The line of a type.
pub fn type_line(alloc: Global, ty: &Ty) -> Result<List<u8>, Memory>
    ensures { IfOk result (λ text. text ≡ type_line (type_tree ty.now)) }
{
    let mut text = write_type(alloc, ty)?;
    text.push(b'\n')?;
    Ok(text)
}

// The normal form of a query.
fn normal_of(alloc: Global, schema: &Schema, term: Term) -> Result<Normal, Memory>
    requires schema { IsProperSchema schema.now }
    requires proper { IsProperTerm (term_tree term) }
    requires accepted { (element : TypeTree)
        × IsAccepted schema.now (term_tree term) (bag element) }
    ensures { IfOk result (λ normal. (plain : PlainReading) (type : TypeTree)
        → type_read schema.now (placed term) ≡ Ok type
        → form_tree normal ≡ shown_form plain schema.now (placed term) type) }
{
    let plain = unfold(alloc, schema, term)?;
    let normal = normalise(alloc, schema, &plain)?;
    Ok(normal)
}

/// The normal form of a query as a query text, and a newline.
pub fn normal_text(alloc: Global, schema: &Schema, query: TypedQuery) -> Result<List<u8>, Memory>
    requires { IsQuery schema.now (typed_view query) }
    ensures { IfOk result (λ text. (plain : PlainReading) →
        text ≡ form_line (shown_form plain schema.now (placed query.term) (type_tree query.ty))) }
{
    let normal = normal_of(alloc, schema, query.term)?;
    let mut text = print_normal(alloc, &normal)?;
    text.push(b'\n')?;
    Ok(text)
}

// What is written in a way of texts that were compiled.
fn texts_by(alloc: Global, showing: Showing<'_>, compiled: &Compiled) -> Result<List<u8>, Memory>
    requires bag { type_tree compiled.now.result
        ≡ bag (element_type (type_tree compiled.now.result)) }
    requires paths { steps_of compiled.now.paths ≡ paths (type_tree compiled.now.result) }
    requires counted { length compiled.now.texts
        ≡ length (paths (type_tree compiled.now.result)) }
    requires utf8 { All IsUtf8 compiled.now.texts }
    ensures { IfOk result (λ text. text ≡ texts_by (showing_view showing.entry)
        (type_tree compiled.now.result) compiled.now.texts) }
{
    match showing {
        Showing::Frames => frames(alloc, &compiled.paths, &compiled.texts),
        Showing::Json => write_query_json(alloc, &compiled.result, compiled.texts.as_slice()),
        Showing::Script(database, folder) => {
            let texts = compiled.texts.as_slice();
            ask_script(alloc, database, folder.as_bytes(), &compiled.result, texts)
        }
    }
}

/// What is written in a way of the SQL texts that shred a query.
pub fn shown_text(
    alloc: Global,
    schema: &Schema,
    query: TypedQuery,
    showing: Showing<'_>,
) -> Result<List<u8>, Memory>
    requires { IsQuery schema.now (typed_view query) }
    ensures { IfOk result (λ text. (plain : PlainReading) → Shows (showing_view showing.entry) text
        (shown_texts plain schema.now (placed query.term) (type_tree query.ty))) }
{
    let compiled = compile(alloc, schema, query.term)?;
    texts_by(alloc, showing, &compiled)
}
