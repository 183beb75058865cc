// What the inputs of a command come to.
ghost use Rattle.std.specs.Prelude.{◌≡◌, true, IfOk, IfSome, Some, List};
ghost use Rattle.command_line.specs.Commands.{aim_asks, asks_server};
ghost use Rattle.command_line.specs.Words.{aim_view, command_view, HasSize};
ghost use Rattle.sql_profile.specs.declared.server.Loaded.{Loaded as Held};
ghost use Rattle.traced_meaning.specs.NumberedTables.{HasNoNumbers};
ghost use Rattle.nq_top.specs.Judging.{aim_judged, draft_judged, judgement, held_for};
ghost use Rattle.nq_top.specs.Judging.{lineage_judged};
ghost use Rattle.nq_top.specs.Plans.{Question, draft_view, CanServeOver, IsSoundOver};
ghost use Rattle.nq_top.specs.Reading.{Reading};
ghost use Rattle.nq_top.specs.Steps.{InputCounts, GatherTells, CanServe, gathered_asks, IsQuery, typed_view};

use crate::explain::gather_explained;
use crate::inputs::{read_query, read_schema, read_sql};
use crate::natural::{natural_draft, natural_text};
use crate::plans::{Draft, generated_plan, plan_of, query_draft, sql_draft};
use crate::show::{normal_text, shown_text, type_line};
use crate::stitch::gather_stitched;
use crate::tables::{TABLES_LIMIT, TableTexts, gather_tables};
use crate::texts::TypedQuery;
use crate::traced::lineage_draft;
use command_line::{Aim, Command, InputRefusal, help_text, paths_text, topic_text, version_text};
use database_scripts::load_script;
use diagnostics::rule_text;
use lineage_compile::number_tables;
use nq_edge::Inputs;
use nq_execute::{Plan, TraceWriting, Writing};
use nq_model::{List, Schema};
use std::alloc::Global;

/// What accepted inputs come to.
#[derive(Drop)]
pub enum Gathered {
    /// What a server is asked.
    Plan(Plan),
    /// The text that is written.
    Text(List<u8>),
}

// Reads the tables of a draft, each before the next is fetched.
fn gather_draft<I: Inputs>(
    alloc: Global,
    inputs: &mut I,
    kind: TableTexts,
    folder: &str,
    schema: &Schema,
    draft: Draft,
) -> Result<Gathered, InputRefusal>
    requires { CanServeOver schema.now (draft_view draft) }
    ensures counts { InputCounts (I.faults inputs.old) (I.faults inputs.new) result }
    ensures servable { IfOk result CanServe }
    ensures asks { IfOk result (λ gathered. gathered_asks gathered ≡ true) }
    ensures tells { IfSome (I.held inputs.old) (λ files. (question : List Held → Question)
        → IsSoundOver schema.now (draft_view draft) question
        → GatherTells (draft_judged files kind folder.now schema.now (draft_view draft) question)
        (I.fetched inputs.old) (I.fetched inputs.new) result) }
{
    let shapes = schema.tables.as_slice();
    let tables = gather_tables(
        alloc,
        inputs,
        kind,
        folder,
        shapes,
        TABLES_LIMIT,
        List::new(alloc),
    )?;
    Ok(Gathered::Plan(plan_of(draft, tables)))
}

// Reads the tables for the lineage of a query, and numbers their rows.
fn gather_lineage<I: Inputs>(
    alloc: Global,
    inputs: &mut I,
    folder: &str,
    schema: &Schema,
    query: TypedQuery,
    writing: TraceWriting,
) -> Result<Gathered, InputRefusal>
    requires query { IsQuery schema.now (typed_view query) }
    requires free { HasNoNumbers schema.now }
    ensures counts { InputCounts (I.faults inputs.old) (I.faults inputs.new) result }
    ensures servable { IfOk result CanServe }
    ensures asks { IfOk result (λ gathered. gathered_asks gathered ≡ true) }
    ensures tells { IfSome (I.held inputs.old) (λ files. (reading : Reading) →
        GatherTells (lineage_judged writing reading.plain files folder.now schema.now
        (typed_view query))
        (I.fetched inputs.old) (I.fetched inputs.new) result) }
{
    let draft = lineage_draft(alloc, schema, query, writing)?;
    let shapes = schema.tables.as_slice();
    let tables = gather_tables(
        alloc,
        inputs,
        TableTexts::Csv,
        folder,
        shapes,
        TABLES_LIMIT,
        List::new(alloc),
    )?;
    let numbered = number_tables(alloc, tables.as_slice())?;
    Ok(Gathered::Plan(plan_of(draft, numbered)))
}

// What a query that was read comes to.
#[tactic(auto, using(crate::proofs::Steps::fetch_rules), unfolding(crate::specs::Judging::aim_judged))]
fn gather_aim<I: Inputs>(
    alloc: Global,
    inputs: &mut I,
    aim: Aim<'_>,
    schema: &Schema,
    query: TypedQuery,
) -> Result<Gathered, InputRefusal>
    requires query { IsQuery schema.now (typed_view query) }
    requires free { HasNoNumbers schema.now }
    ensures counts { InputCounts (I.faults inputs.old) (I.faults inputs.new) result }
    ensures servable { IfOk result CanServe }
    ensures asks { IfOk result (λ gathered.
        gathered_asks gathered ≡ aim_asks (aim_view aim.entry)) }
    ensures tells { IfSome (I.held inputs.old) (λ files. (reading : Reading) →
        GatherTells (aim_judged reading.plain files (aim_view aim.entry) schema.now
        (typed_view query))
        (I.fetched inputs.old) (I.fetched inputs.new) result) }
{
    match aim {
        Aim::Run(folder) => {
            let draft = query_draft(alloc, schema, query, Writing::Text)?;
            gather_draft(alloc, inputs, TableTexts::Csv, folder, schema, draft)
        }
        Aim::RunNatural(folder) => {
            let draft = natural_draft(alloc, schema, query)?;
            gather_draft(alloc, inputs, TableTexts::Csv, folder, schema, draft)
        }
        Aim::RunJson(folder) => {
            let draft = query_draft(alloc, schema, query, Writing::Json)?;
            gather_draft(alloc, inputs, TableTexts::Csv, folder, schema, draft)
        }
        Aim::RunJsonTables(folder) => {
            let draft = query_draft(alloc, schema, query, Writing::Json)?;
            gather_draft(alloc, inputs, TableTexts::Json, folder, schema, draft)
        }
        Aim::Lineage(writing, folder) => {
            gather_lineage(alloc, inputs, folder, schema, query, writing)
        }
        Aim::Stitch(folder) => {
            gather_stitched(alloc, inputs, folder, schema, query, Writing::Text)
        }
        Aim::StitchJson(folder) => {
            gather_stitched(alloc, inputs, folder, schema, query, Writing::Json)
        }
        Aim::Check => Ok(Gathered::Text(List::from_slice(alloc, b"ok\n")?)),
        Aim::ShowTypes => Ok(Gathered::Text(type_line(alloc, &query.ty)?)),
        Aim::ShowNormal => Ok(Gathered::Text(normal_text(alloc, schema, query)?)),
        Aim::ShowPaths => Ok(Gathered::Text(paths_text(alloc, &query.ty)?)),
        Aim::ShowNatural => Ok(Gathered::Text(natural_text(alloc, schema, query)?)),
        Aim::ShowTexts(showing) => {
            Ok(Gathered::Text(shown_text(alloc, schema, query, showing)?))
        }
    }
}

/// Reads the inputs of a command, each judged before the next: the schema, the query or SQL text
/// and, where a server is to be asked, the tables.
pub fn gather<I: Inputs>(
    alloc: Global,
    command: Command<'_>,
    inputs: &mut I,
) -> Result<Gathered, InputRefusal>
    requires { HasSize command }
    ensures counts { InputCounts (I.faults inputs.old) (I.faults inputs.new) result }
    ensures servable { IfOk result CanServe }
    ensures asks { IfOk result (λ gathered.
        gathered_asks gathered ≡ asks_server (Some (command_view command.entry))) }
    ensures tells { IfSome (held_for (Some (command_view command.entry)) (I.held inputs.old))
        (λ files. (reading : Reading)
        → GatherTells (judgement reading (Some (command_view command.entry)) files)
        (I.fetched inputs.old) (I.fetched inputs.new) result) }
{
    match command {
        Command::Help => Ok(Gathered::Text(help_text(alloc)?)),
        Command::HelpOn(topic) => Ok(Gathered::Text(topic_text(alloc, topic)?)),
        Command::Version => Ok(Gathered::Text(version_text(alloc)?)),
        Command::OfQuery(aim, schema, query) => {
            let schema = read_schema(alloc, inputs, schema)?;
            let query = read_query(alloc, inputs, &schema, query)?;
            gather_aim(alloc, inputs, aim, &schema, query)
        }
        Command::Answer(writing, schema, file, folder) => {
            let schema = read_schema(alloc, inputs, schema)?;
            let asked = read_sql(alloc, inputs, &schema, file)?;
            let draft = sql_draft(alloc, asked, writing)?;
            gather_draft(alloc, inputs, TableTexts::Csv, folder, &schema, draft)
        }
        Command::Generated(size) => Ok(Gathered::Plan(generated_plan(alloc, size)?)),
        Command::ShowLoad(database, schema) => {
            let schema = read_schema(alloc, inputs, schema)?;
            Ok(Gathered::Text(load_script(alloc, database, &schema)?))
        }
        Command::Explain(schema, subject) => gather_explained(alloc, inputs, schema, subject),
        Command::ExplainRule(rule) => Ok(Gathered::Text(rule_text(alloc, rule)?)),
    }
}
