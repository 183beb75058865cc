// The script that asks the texts of a query.
ghost use Rattle.std.specs.Prelude.{◌≡◌, ◌++◌, IfOk, OnOk};
ghost use Rattle.nq_model.specs.Types.{type_tree};
ghost use Rattle.nq_ir.specs.Paths.{paths};
ghost use Rattle.shred_types.specs.Columns.{columns_at};
ghost use Rattle.shred_types.specs.Under.{steps_of};
ghost use Rattle.database_scripts.specs.Asks.{ask_end, ask_head, ask_text, asked_text, asked_texts, copied_text, selected_text};
ghost use Rattle.database_scripts.specs.Columns.{columns_from};

use crate::columns::{Form, named_columns, put_columns};
use crate::database::Database;
use crate::files::put_file;
use nq_ir::Path;
use nq_model::{ColumnType, Label, List, Memory, Ty};
use shred_types::{columns_at, paths};
use std::alloc::Global;

fn ask_head(database: Database) -> &'static [u8]
    ensures { result.now ≡ ask_head database }
{
    match database {
        Database::Postgres => {
            b"\\set ON_ERROR_STOP on\n\\encoding UTF8\nBEGIN ISOLATION LEVEL REPEATABLE READ READ ONLY;\n"
        }
        Database::Sqlite => b".bail on\n.headers off\n.mode csv\n.separator , \"\\n\"\nBEGIN;\n",
    }
}

fn ask_end(database: Database) -> &'static [u8]
    ensures { result.now ≡ ask_end database }
{
    match database {
        Database::Postgres => b"COMMIT;\n",
        Database::Sqlite => b"COMMIT;\n.output\n",
    }
}

// Puts what asks PostgreSQL a text.
#[tactic(auto, unfolding(crate::specs::Asks::copied_text))]
fn put_copied(
    alloc: Global,
    script: &mut List<u8>,
    folder: &[u8],
    number: usize,
    text: &[u8],
) -> Result<(), Memory>
    ensures { OnOk result (script.new
        ≡ script.old ++ copied_text folder.now number text.now) }
{
    script.extend_from_slice(b"COPY (")?;
    script.extend_from_slice(text)?;
    script.extend_from_slice(b") TO STDOUT WITH (FORMAT csv, HEADER true) \\g ")?;
    put_file(alloc, script, Database::Postgres, folder, number)?;
    script.extend_from_slice(b"\n")
}

// Puts what asks SQLite a text.
#[tactic(auto, unfolding(crate::specs::Asks::selected_text))]
fn put_selected(
    alloc: Global,
    script: &mut List<u8>,
    folder: &[u8],
    number: usize,
    columns: &[(Label, ColumnType)],
    text: &[u8],
) -> Result<(), Memory>
    ensures { OnOk result (script.new
        ≡ script.old ++ selected_text folder.now number columns.now text.now) }
{
    script.extend_from_slice(b".output ")?;
    put_file(alloc, script, Database::Sqlite, folder, number)?;
    script.extend_from_slice(b"\n.print ")?;
    put_columns(script, Form::Bare, b",", columns)?;
    script.extend_from_slice(b"\nSELECT ")?;
    put_columns(script, Form::Written, b", ", columns)?;
    script.extend_from_slice(b" FROM (")?;
    script.extend_from_slice(text)?;
    script.extend_from_slice(b");\n")
}

// Puts what asks the text at a path of a type.
fn put_asked(
    alloc: Global,
    script: &mut List<u8>,
    database: Database,
    folder: &[u8],
    number: usize,
    types: &[ColumnType],
    text: &[u8],
) -> Result<(), Memory>
    ensures { OnOk result (script.new ≡ script.old
        ++ asked_text database folder.now number (columns_from 0 types.now) text.now) }
{
    match database {
        Database::Postgres => put_copied(alloc, script, folder, number, text),
        Database::Sqlite => {
            let columns = named_columns(alloc, types)?;
            put_selected(alloc, script, folder, number, columns.as_slice(), text)
        }
    }
}

// Puts what asks the texts at paths of a type.
fn put_texts(
    alloc: Global,
    script: &mut List<u8>,
    database: Database,
    folder: &[u8],
    of: &Ty,
    paths: &[Path],
    texts: &[List<u8>],
) -> Result<(), Memory>
    ensures { OnOk result (script.new ≡ script.old
        ++ asked_texts database folder.now (type_tree of.now) 1 (steps_of paths.now) texts.now) }
{
    for at in 0..paths.len().min(texts.len()) {
        let types = columns_at(alloc, of, &paths[at])?;
        let text = texts[at].as_slice();
        put_asked(
            alloc,
            script,
            database,
            folder,
            at + 1,
            types.as_slice(),
            text,
        )?;
    }
    Ok(())
}

/// The script that asks a database the texts of a query, all in one snapshot, and writes the answer
/// to the k-th to the file k.csv of a folder, which has to be there, in the form that `stitch`
/// reads. The type of the query is `of`, and its texts are in path order; where there are more of
/// the paths or of the texts, the rest of them is left out. Fails only if memory runs out.
#[tactic(auto, unfolding(crate::specs::Asks::ask_text))]
pub fn ask_script(
    alloc: Global,
    database: Database,
    folder: &[u8],
    of: &Ty,
    texts: &[List<u8>],
) -> Result<List<u8>, Memory>
    ensures { IfOk result
        (λ text. text ≡ ask_text database folder.now (type_tree of.now) texts.now) }
{
    let all = paths(alloc, of)?;
    let mut script = List::from_slice(alloc, ask_head(database))?;
    put_texts(
        alloc,
        &mut script,
        database,
        folder,
        of,
        all.as_slice(),
        texts,
    )?;
    script.extend_from_slice(ask_end(database))?;
    Ok(script)
}
