// Servers are asked texts that may be asked, and what they answer is shown.
ghost use Rattle.std.specs.Prelude.{◌≡◌};
ghost use Rattle.sql_profile.specs.Scope.{shapes_of, shapes_of_schema};

use nq_model::{CellRef, Memory, Schema};
use rows::Rows;
use sql_profile::{Answer, ServerFault, SqlServer, ask_text};
use sql_reader::read_sql;
use sql_scope::scope;
use std::alloc::Global;

/// The answer to a text over the tables of a schema. Here `Memory` also says that the text may not be asked.
pub fn ask(
    alloc: Global,
    server: &mut Box<dyn SqlServer>,
    schema: &Schema,
    text: &str,
) -> Result<Answer, ServerFault>
    requires { shapes_of (loaded server.old) ≡ shapes_of_schema schema.now.tables }
    ensures { loaded server.new ≡ loaded server.old }
{
    let bytes = text.as_bytes();
    let tree = read_sql(alloc, bytes, bytes.len() as u64).map_err(|_| ServerFault::Memory)?;
    scope(alloc, schema, &tree).map_err(|_| ServerFault::Memory)?;
    ask_text(alloc, server, bytes)
}

/// The rows, each cell with a blank behind it and each row with a semicolon.
pub fn shown(alloc: Global, rows: &Rows) -> Result<String, Memory> {
    let mut text = String::new(alloc);
    for row in 0..rows.len() {
        for column in 0..rows.width(row) {
            match rows.cell(row, column) {
                CellRef::Int(number) => write!(text, "{number} ")?,
                CellRef::Bool(truth) => write!(text, "{truth} ")?,
                CellRef::Text(word) => write!(text, "{word} ")?,
            }
        }
        text.push_str(";")?;
    }
    Ok(text)
}
