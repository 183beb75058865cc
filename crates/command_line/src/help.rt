// The texts on the program.
ghost use Rattle.std.specs.Prelude.{◌≡◌, ◌++◌, IfOk, OnOk};
ghost use Rattle.command_line.specs.Help.{help_notes, help_text, other_forms, value_forms};
ghost use Rattle.command_line.specs.Help.{version_text};
ghost use Rattle.command_line.specs.Topics.{topic_forms};

use crate::topics::Topic;
use nq_model::{List, Memory};
use std::alloc::Global;

// Puts the forms that begin with the word of a topic.
fn put_forms(text: &mut List<u8>, topic: Topic) -> Result<(), Memory>
    ensures { OnOk result (text.new ≡ text.old ++ topic_forms topic) }
{
    text.extend_from_slice(topic.forms().as_bytes())
}

// Puts the forms that write values and rows.
#[tactic(auto, unfolding(crate::specs::Help::value_forms))]
fn put_value_forms(text: &mut List<u8>) -> Result<(), Memory>
    ensures { OnOk result (text.new ≡ text.old ++ value_forms) }
{
    put_forms(text, Topic::Run)?;
    put_forms(text, Topic::Lineage)?;
    put_forms(text, Topic::Answer)?;
    put_forms(text, Topic::Stitch)
}

// Puts the forms that write something else.
#[tactic(auto, unfolding(crate::specs::Help::other_forms))]
fn put_other_forms(text: &mut List<u8>) -> Result<(), Memory>
    ensures { OnOk result (text.new ≡ text.old ++ other_forms) }
{
    put_forms(text, Topic::Generate)?;
    put_forms(text, Topic::Check)?;
    put_forms(text, Topic::Explain)?;
    put_forms(text, Topic::Show)?;
    put_forms(text, Topic::Help)?;
    put_forms(text, Topic::Version)
}

// Puts what the words in capitals stand for, and where the statuses are explained.
#[tactic(auto, unfolding(crate::specs::Help::help_notes))]
fn put_notes(text: &mut List<u8>) -> Result<(), Memory>
    ensures { OnOk result (text.new ≡ text.old ++ help_notes) }
{
    text.extend_from_slice(
        b"
SCHEMA, QUERY and SQLFILE are files. The table t is the file DIR/t.csv, and as a
JSON table DIR/t.json. The answer to the SQL text K is the file DIR/K.csv.
DATABASE is postgres or sqlite.
README.md explains the statuses, under Commands.
",
    )
}

/// The listed forms of words, a line for each. Fails only if memory runs out.
#[tactic(auto, unfolding(crate::specs::Help::help_text))]
pub fn help_text(alloc: Global) -> Result<List<u8>, Memory>
    ensures { IfOk result (λ text. text ≡ help_text) }
{
    let mut text = List::new(alloc);
    text.extend_from_slice(b"nq answers typed queries over flat tables.\n\n")?;
    put_value_forms(&mut text)?;
    put_other_forms(&mut text)?;
    put_notes(&mut text)?;
    Ok(text)
}

/// The name and the version of the program.
#[tactic(auto, unfolding(crate::specs::Help::version_text))]
pub fn version_text(alloc: Global) -> Result<List<u8>, Memory>
    ensures { IfOk result (λ text. text ≡ version_text) }
{
    List::from_slice(alloc, b"nq 0.1.0\n")
}
