// A query text, read, typed over the tables of an organisation, and unfolded.
ghost use Rattle.std.specs.Prelude.{[], IfOk};
ghost use Rattle.nq_model.specs.Proper.{IsClosed, IsPlainTerm, IsProperTerm};
ghost use Rattle.nq_model.specs.Tables.{IsProperSchema};
ghost use Rattle.nq_model.specs.Terms.{term_tree};
ghost use Rattle.nq_model.specs.Types.{TypeTree, bag};
ghost use Rattle.nq_model.specs.Typing.{HasType};

use nq_model::{Memory, Schema, Term};
use nq_parser::parse;
use nq_types::check;
use schema_reader::read_schema;
use std::alloc::Global;
use unfold::unfold;

// The tables of an organisation.
const ORG: &[u8] = b"table departments (name: text);
table employees (dept: text, name: text, salary: int);
table tasks (employee: text, task: text);
table contacts (dept: text, name: text, client: bool);";

/// The schema of the organisation.
pub fn org(alloc: Global) -> Result<Schema, Memory>
    ensures { IfOk result IsProperSchema }
{
    match read_schema(alloc, ORG) {
        Ok(schema) => Ok(schema),
        Err(_) => Err(Memory),
    }
}

/// The plain term of a query text. One that is refused is an error like want of memory.
pub fn plain(alloc: Global, schema: &Schema, text: &str) -> Result<Term, Memory>
    ensures proper { IfOk result (λ t. IsPlainTerm (term_tree t) × IsProperTerm (term_tree t) × IsClosed (term_tree t)) }
    ensures typed { IfOk result (λ t. (element : TypeTree) × HasType schema.now [] (term_tree t) (bag element)) }
{
    let term = match parse(alloc, text.as_bytes(), 200) {
        Ok(term) => term,
        Err(_) => return Err(Memory),
    };
    match check(alloc, schema, &term) {
        Ok(_type) => unfold(alloc, schema, term),
        Err(_) => Err(Memory),
    }
}
