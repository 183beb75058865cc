// Reads a text: a schema; a query, which is typed over a schema; an SQL text, which is scoped over
// one.
ghost use Rattle.std.specs.Prelude.{◌≡◌, ℕ, List, IfOk, Ok};
ghost use Rattle.nq_model.specs.Proper.{IsProperTerm};
ghost use Rattle.nq_compile.specs.Shreds.{IsScopedText};
ghost use Rattle.nq_model.specs.Tables.{Columns, IsProperSchema, types_of};
ghost use Rattle.nq_model.specs.Terms.{placed, bare};
ghost use Rattle.nq_model.specs.Types.{type_tree};
ghost use Rattle.sql_profile.specs.Scope.{IsWellScoped, judge, shapes_of_schema};
ghost use Rattle.traced_meaning.specs.NumberedTables.{HasNoNumbers};
ghost use Rattle.sql_profile.specs.Trees.{placed as placed_sql, sql_tree};
ghost use Rattle.nq_top.specs.Reading.{SchemaReading, QueryReading, SqlReading, schema_read, term_read, type_read, query_read, scoped_as, sql_read};
ghost use Rattle.nq_top.specs.Steps.{ReadSays, IsQuery, typed_view, sql_view, schema_refusal, query_refusal, sql_refusal};

use command_line::{InputRefusal, Refused};
use nq_model::{ColumnType, List, Schema, Term, Ty};
use nq_parser::{SyntaxFault, parse};
use nq_types::{CheckFault, check};
use schema_reader::{SchemaFault, read_schema, schema_laws};
use sql_profile::SqlText;
use sql_reader::{SqlFault, read_sql};
use sql_scope::{ScopeFault, scope};
use std::alloc::Global;

/// The greatest depth of a query, of a type in it, and of an SQL text.
pub const DEPTH: u64 = 200;

/// A query, with its type.
#[derive(Drop)]
pub struct TypedQuery {
    pub term: Term,
    pub ty: Ty,
}

/// An SQL text, with the types of its columns.
#[derive(Drop)]
pub struct SqlQuery {
    pub text: List<u8>,
    pub types: List<ColumnType>,
}

// The refusal for a fault of a schema text.
fn schema_refusal(fault: SchemaFault) -> InputRefusal
    ensures { result ≡ schema_refusal fault }
{
    match fault {
        SchemaFault::Memory => InputRefusal::Memory,
        SchemaFault::NotUtf8 { .. } => InputRefusal::Refused(Refused::Schema(fault)),
        SchemaFault::Syntax { .. } => InputRefusal::Refused(Refused::Schema(fault)),
        SchemaFault::TwiceTable { .. } => InputRefusal::Refused(Refused::Schema(fault)),
        SchemaFault::TwiceColumn { .. } => InputRefusal::Refused(Refused::Schema(fault)),
        SchemaFault::NoColumn { .. } => InputRefusal::Refused(Refused::Schema(fault)),
        SchemaFault::KeyColumn { .. } => InputRefusal::Refused(Refused::Schema(fault)),
        SchemaFault::OverLimit { .. } => InputRefusal::Refused(Refused::Schema(fault)),
    }
}

// The refusal for a fault of a query text.
fn query_refusal(fault: SyntaxFault) -> InputRefusal
    ensures { result ≡ query_refusal fault }
{
    match fault {
        SyntaxFault::Memory => InputRefusal::Memory,
        SyntaxFault::NotUtf8 { .. } => InputRefusal::Refused(Refused::Query(fault)),
        SyntaxFault::Token { .. } => InputRefusal::Refused(Refused::Query(fault)),
        SyntaxFault::Unexpected { .. } => InputRefusal::Refused(Refused::Query(fault)),
        SyntaxFault::IntRange { .. } => InputRefusal::Refused(Refused::Query(fault)),
        SyntaxFault::Deep { .. } => InputRefusal::Refused(Refused::Query(fault)),
        SyntaxFault::Unbound { .. } => InputRefusal::Refused(Refused::Query(fault)),
        SyntaxFault::TwiceLabel { .. } => InputRefusal::Refused(Refused::Query(fault)),
    }
}

// The refusal for a fault of an SQL text.
fn sql_refusal(fault: SqlFault) -> InputRefusal
    ensures { result ≡ sql_refusal fault }
{
    match fault {
        SqlFault::Memory => InputRefusal::Memory,
        SqlFault::NotUtf8 { .. } => InputRefusal::Refused(Refused::Sql(fault)),
        SqlFault::Token { .. } => InputRefusal::Refused(Refused::Sql(fault)),
        SqlFault::Unexpected { .. } => InputRefusal::Refused(Refused::Sql(fault)),
        SqlFault::IntRange { .. } => InputRefusal::Refused(Refused::Sql(fault)),
        SqlFault::Deep { .. } => InputRefusal::Refused(Refused::Sql(fault)),
    }
}

/// The schema that a text spells, or its fault.
pub fn schema_of(alloc: Global, text: &[u8]) -> Result<Schema, InputRefusal>
    ensures says { (reading : SchemaReading)
        → ReadSays (λ found. found) (schema_read reading text.now) result }
    ensures proper { IfOk result IsProperSchema }
    ensures free { IfOk result HasNoNumbers }
{
    schema_laws();
    match read_schema(alloc, text) {
        Ok(schema) => Ok(schema),
        Err(fault) => Err(schema_refusal(fault)),
    }
}

// The term that a query text spells, or its fault.
#[tactic(auto, using(crate::proofs::QueryReadings::query_rules))]
fn term_of(alloc: Global, text: &[u8]) -> Result<Term, InputRefusal>
    ensures says { (reading : QueryReading) → ReadSays placed (term_read reading text.now) result }
    ensures proper { IfOk result (λ term. IsProperTerm (bare (placed term))) }
{
    match parse(alloc, text, DEPTH) {
        Ok(term) => Ok(term),
        Err(fault) => Err(query_refusal(fault)),
    }
}

// The type of a term over a schema, or the first typing rule that it breaks.
#[tactic(auto, using(crate::proofs::QueryReadings::type_rules))]
fn type_of(alloc: Global, schema: &Schema, term: &Term) -> Result<Ty, InputRefusal>
    ensures says { ReadSays type_tree (type_read schema.now (placed term.now)) result }
{
    match check(alloc, schema, term) {
        Ok(ty) => Ok(ty),
        Err(CheckFault::Memory) => Err(InputRefusal::Memory),
        Err(CheckFault::Ill { rule, place }) => {
            Err(InputRefusal::Refused(Refused::IllTyped { rule, place }))
        }
    }
}

/// The query that a text spells over a schema, with its type; or its fault, or the first typing
/// rule that it breaks.
pub fn query_of(alloc: Global, schema: &Schema, text: &[u8]) -> Result<TypedQuery, InputRefusal>
    requires { IsProperSchema schema.now }
    ensures says { (reading : QueryReading)
        → ReadSays typed_view (query_read reading schema.now text.now) result }
    ensures query { IfOk result (λ query. IsQuery schema.now (typed_view query)) }
{
    let term = term_of(alloc, text)?;
    let ty = type_of(alloc, schema, &term)?;
    Ok(TypedQuery { term, ty })
}

// The types of the columns of an SQL tree over a schema, or the first rule of scope that it breaks.
#[tactic(auto, using(crate::proofs::SqlReadings::scope_rules))]
fn scoped_columns(
    alloc: Global,
    schema: &Schema,
    tree: &SqlText,
) -> Result<List<ColumnType>, InputRefusal>
    ensures says { (text : List ℕ) → ReadSays (λ types. (text, types))
        (scoped_as text (judge (shapes_of_schema schema.now.tables) (placed_sql tree.now))) result }
    ensures scoped { IfOk result (λ types. (columns : Columns)
        × IsWellScoped (shapes_of_schema schema.now.tables) (sql_tree tree.now) columns
        × (types ≡ types_of columns)) }
{
    match scope(alloc, schema, tree) {
        Ok(types) => Ok(types),
        Err(ScopeFault::Memory) => Err(InputRefusal::Memory),
        Err(ScopeFault::Broken { rule, place }) => {
            Err(InputRefusal::Refused(Refused::IllScoped { rule, place }))
        }
    }
}

// The types of the columns of an SQL text over a schema; or its fault, or the first rule of scope
// that it breaks.
fn columns_of(alloc: Global, schema: &Schema, text: &[u8]) -> Result<List<ColumnType>, InputRefusal>
    ensures says { (reading : SqlReading)
        → ReadSays (λ types. (text.now, types)) (sql_read reading schema.now text.now) result }
    ensures scoped { IfOk result (λ types. IsScopedText schema.now types text.now) }
{
    match read_sql(alloc, text, DEPTH) {
        Ok(tree) => {
            let columns = scoped_columns(alloc, schema, &tree);
            drop(tree);
            columns
        }
        Err(fault) => Err(sql_refusal(fault)),
    }
}

/// An SQL text over a schema, with the types of its columns; or its fault, or the first rule of
/// scope that it breaks.
pub fn sql_of(alloc: Global, schema: &Schema, text: List<u8>) -> Result<SqlQuery, InputRefusal>
    requires { IsProperSchema schema.now }
    ensures says { (reading : SqlReading)
        → ReadSays sql_view (sql_read reading schema.now text) result }
    ensures scoped { IfOk result (λ asked. IsScopedText schema.now asked.types asked.text) }
{
    let types = columns_of(alloc, schema, text.as_slice())?;
    Ok(SqlQuery { text, types })
}
