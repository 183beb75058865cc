// The words with which the forms of the command line begin, and what `--help` writes of each.
ghost use Rattle.std.specs.Prelude.{◌≡◌, IfOk};
ghost use Rattle.command_line.specs.Topics.{topic_examples, topic_forms, topic_of, topic_text};

use nq_model::{List, Memory};
use std::alloc::Global;

/// A word with which forms of words begin.
#[derive(Clone, Copy, Debug, PartialEq, Eq)]
pub enum Topic {
    Run,
    Lineage,
    Answer,
    Stitch,
    /// The word is `gen`.
    Generate,
    Check,
    Explain,
    Show,
    /// The word is `--help`.
    Help,
    /// The word is `--version`.
    Version,
}

/// The topic of a word, if forms begin with it.
pub(crate) fn topic_of(word: &str) -> Option<Topic>
    ensures { result ≡ topic_of word.now }
{
    if word == "run" {
        Some(Topic::Run)
    } else if word == "lineage" {
        Some(Topic::Lineage)
    } else if word == "answer" {
        Some(Topic::Answer)
    } else if word == "stitch" {
        Some(Topic::Stitch)
    } else if word == "gen" {
        Some(Topic::Generate)
    } else if word == "check" {
        Some(Topic::Check)
    } else if word == "explain" {
        Some(Topic::Explain)
    } else if word == "show" {
        Some(Topic::Show)
    } else if word == "--help" {
        Some(Topic::Help)
    } else if word == "--version" {
        Some(Topic::Version)
    } else {
        None
    }
}

impl Topic {
    /// The forms that begin with the word, a line for each.
    #[tactic(auto, unfolding(crate::specs::Topics::topic_forms))]
    pub(crate) fn forms(self) -> &'static str
        ensures { result.now ≡ topic_forms self }
    {
        match self {
            Topic::Run => {
                "\
nq run SCHEMA QUERY DIR              writes the value of the query
nq run natural SCHEMA QUERY DIR      writes it by SQL texts that name bags by keys
nq run json SCHEMA QUERY DIR         writes the value of the query as JSON
nq run json tables SCHEMA QUERY DIR  writes it as JSON over JSON tables
"
            }
            Topic::Lineage => {
                "\
nq lineage SCHEMA QUERY DIR          writes each element with its table rows
nq lineage json SCHEMA QUERY DIR     writes the elements and their rows as JSON
"
            }
            Topic::Answer => {
                "\
nq answer SCHEMA SQLFILE DIR         writes the rows of the SQL text
nq answer json SCHEMA SQLFILE DIR    writes the rows of the SQL text as JSON
"
            }
            Topic::Stitch => {
                "\
nq stitch SCHEMA QUERY DIR           writes the value of answers made elsewhere
nq stitch json SCHEMA QUERY DIR      writes the value of answers as JSON
"
            }
            Topic::Generate => {
                "\
nq gen N                             writes a summary over tables of size N
"
            }
            Topic::Check => {
                "\
nq check SCHEMA QUERY                writes ok where the query is accepted
"
            }
            Topic::Explain => {
                "\
nq explain SCHEMA QUERY              writes its type, or explains its first fault
nq explain sql SCHEMA SQLFILE        writes its columns, or explains a fault
nq explain table SCHEMA TABLE DIR    writes its type, or explains a fault
nq explain rule N                    writes what typing rule N asks, with examples
nq explain sql rule N                writes what rule N of SQL texts asks
"
            }
            Topic::Show => {
                "\
nq show types SCHEMA QUERY           writes the type of the query
nq show normal SCHEMA QUERY          writes the normal form of the query
nq show paths SCHEMA QUERY           writes a line for each bag of the type
nq show sql SCHEMA QUERY             writes an SQL text for each bag of the type
nq show natural SCHEMA QUERY         writes the SQL texts that name bags by keys
nq show json SCHEMA QUERY            writes the SQL texts and the types as JSON
nq show load DATABASE SCHEMA         writes a script that loads the tables
nq show script DATABASE SCHEMA QUERY DIR
                                     writes a script that asks the SQL texts
"
            }
            Topic::Help => {
                "\
nq --help                            writes a line for each form
nq --help WORD                       writes the forms of WORD, with examples
"
            }
            Topic::Version => {
                "\
nq --version                         writes the name and the version of nq
"
            }
        }
    }

    // An example of each of these forms, and where it can be tried.
    #[tactic(auto, unfolding(crate::specs::Topics::topic_examples))]
    fn examples(self) -> &'static str
        ensures { result.now ≡ topic_examples self }
    {
        match self {
            Topic::Run => {
                "\
Examples, in the folder examples/company:

nq run org staff data
nq run natural org staff data
nq run json org outliers data
nq run json tables org outliers json
"
            }
            Topic::Lineage => {
                "\
Examples, in the folder examples/company:

nq lineage org known data
nq lineage json org known data
"
            }
            Topic::Answer => {
                "\
Examples, in the folder examples/shop:

nq answer shop unpaid.sql data
nq answer json shop unpaid.sql data
"
            }
            Topic::Stitch => {
                "\
Examples, in the folder examples/company, where docs/DATABASES.md has how a database
makes the answers:

nq stitch org staff answers
nq stitch json org staff answers
"
            }
            Topic::Generate => {
                "\
An example, in any folder:

nq gen 100
"
            }
            Topic::Check => {
                "\
An example, in the folder examples/company:

nq check org staff
"
            }
            Topic::Explain => {
                "\
Examples, in the folder examples/shop:

nq explain shop refused/equals
nq explain sql shop refused/star.sql
nq explain table shop customers refused/data
nq explain rule 20
nq explain sql rule 4
"
            }
            Topic::Show => {
                "\
Examples, in the folder examples/company:

nq show types org staff
nq show normal org staff
nq show paths org staff
nq show sql org staff
nq show natural org staff
nq show json org staff
nq show load sqlite org
nq show script sqlite org staff answers
"
            }
            Topic::Help => {
                "\
Examples, in any folder:

nq --help
nq --help run
"
            }
            Topic::Version => {
                "\
An example, in any folder:

nq --version
"
            }
        }
    }
}

/// The forms that begin with the word of a topic, and an example of each. Fails only if memory
/// runs out.
#[tactic(auto, unfolding(crate::specs::Topics::topic_text))]
pub fn topic_text(alloc: Global, topic: Topic) -> Result<List<u8>, Memory>
    ensures { IfOk result (λ text. text ≡ topic_text topic) }
{
    let mut text = List::new(alloc);
    text.extend_from_slice(topic.forms().as_bytes())?;
    text.extend_from_slice(b"\n")?;
    text.extend_from_slice(topic.examples().as_bytes())?;
    Ok(text)
}
