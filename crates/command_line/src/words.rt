// The words of the command line.
ghost use Rattle.std.specs.Prelude.{◌≡◌, IfSome, map, option_map, string_bytes};
ghost use Rattle.command_line.specs.Commands.{one_word, two_words, three_words, database_of, shown};
ghost use Rattle.command_line.specs.Commands.{of_explain, of_explain_sql, of_show, four_words};
ghost use Rattle.command_line.specs.Commands.{as_json, as_natural, as_table, five_words};
ghost use Rattle.command_line.specs.Commands.{over_tables, as_script, six_words, command_of};
ghost use Rattle.command_line.specs.Words.{HasSize, aim_view, command_view};

use crate::rules::{scope_of, typing_of};
use crate::topics::{Topic, topic_of};
use database_scripts::Database;
use diagnostics::Rule;
use generated_inputs::size_of;
use nq_execute::{RowWriting, TraceWriting};

/// How the SQL texts that shred a query are shown.
#[derive(Clone, Copy)]
pub enum Showing<'a> {
    /// Each in a frame that tells its path and its length.
    Frames,
    /// All as one line of JSON, with the type of the query and the columns of each answer.
    Json,
    /// As a script that asks a database, and writes the answers below the folder of this name.
    Script(Database, &'a str),
}

/// What is done with a query that is accepted.
#[derive(Clone, Copy)]
pub enum Aim<'a> {
    /// Its value is written, over the table texts of the folder of this name.
    Run(&'a str),
    /// Its value is written, over the table texts of the folder of this name, by SQL texts that
    /// name bags by keys.
    RunNatural(&'a str),
    /// Its value is written as JSON, over the table texts of the folder of this name.
    RunJson(&'a str),
    /// Its value is written as JSON, over the JSON tables of the folder of this name.
    RunJsonTables(&'a str),
    /// Each element of its value is written with the table rows that made it, in a way, over the
    /// table texts of the folder of this name.
    Lineage(TraceWriting, &'a str),
    /// The value of the answers of the folder of this name is written.
    Stitch(&'a str),
    /// The value of the answers of the folder of this name is written as JSON.
    StitchJson(&'a str),
    /// That it is accepted is written.
    Check,
    /// Its type is written.
    ShowTypes,
    /// Its normal form is written.
    ShowNormal,
    /// The paths of its type are written.
    ShowPaths,
    /// The SQL texts that name bags by keys are shown, each in a frame.
    ShowNatural,
    /// The SQL texts that shred it are shown in a way.
    ShowTexts(Showing<'a>),
}

/// What is explained over a schema.
#[derive(Clone, Copy)]
pub enum Subject<'a> {
    /// The query of this name.
    Query(&'a str),
    /// The SQL text of this name.
    Sql(&'a str),
    /// The text of the table of this name, in the folder of this name.
    Table(&'a str, &'a str),
}

/// What the words ask for.
#[derive(Drop)]
pub enum Command<'a> {
    Help,
    /// The forms that begin with a word, with examples.
    HelpOn(Topic),
    Version,
    /// An aim, with the names of the schema and of the query.
    OfQuery(Aim<'a>, &'a str, &'a str),
    /// How rows are written, with the names of the schema, of the SQL text and of the folder of the
    /// table texts.
    Answer(RowWriting, &'a str, &'a str, &'a str),
    /// The size of generated tables.
    Generated(u64),
    /// A database, and the name of the schema whose tables it is to load.
    ShowLoad(Database, &'a str),
    /// The name of a schema, and the subject whose type or whose first fault is explained.
    Explain(&'a str, Subject<'a>),
    /// What a rule asks, with examples.
    ExplainRule(Rule),
}

// The command of one word.
fn one_word<'a>(word: &str) -> Option<Command<'a>>
    ensures is { option_map command_view result ≡ one_word word.now }
    ensures sized { IfSome result HasSize }
{
    if word == "--help" {
        Some(Command::Help)
    } else if word == "--version" {
        Some(Command::Version)
    } else {
        None
    }
}

// The command of two words.
fn two_words<'a>(word: &str, what: &str) -> Option<Command<'a>>
    ensures is { option_map command_view result ≡ two_words word.now what.now }
    ensures sized { IfSome result HasSize }
{
    if word == "--help" {
        return match topic_of(what) {
            Some(topic) => Some(Command::HelpOn(topic)),
            None => None,
        };
    }
    if word != "gen" {
        return None;
    }
    match size_of(what) {
        Some(size) => Some(Command::Generated(size)),
        None => None,
    }
}

// What `explain` makes of two words.
fn of_explain<'a>(schema: &'a str, query: &'a str) -> Option<Command<'a>>
    ensures is { option_map command_view result ≡ of_explain schema.now query.now }
    ensures sized { IfSome result HasSize }
{
    if schema != "rule" {
        return Some(Command::Explain(schema, Subject::Query(query)));
    }
    match typing_of(query) {
        Some(rule) => Some(Command::ExplainRule(rule)),
        None => None,
    }
}

// What it makes of three.
fn of_explain_sql<'a>(what: &str, schema: &'a str, text: &'a str) -> Option<Command<'a>>
    ensures is { option_map command_view result
        ≡ of_explain_sql what.now schema.now text.now }
    ensures sized { IfSome result HasSize }
{
    if what != "sql" {
        return None;
    }
    if schema != "rule" {
        return Some(Command::Explain(schema, Subject::Sql(text)));
    }
    match scope_of(text) {
        Some(rule) => Some(Command::ExplainRule(rule)),
        None => None,
    }
}

// The command of three words.
fn three_words<'a>(word: &str, schema: &'a str, query: &'a str) -> Option<Command<'a>>
    ensures is { option_map command_view result ≡ three_words word.now schema.now query.now }
    ensures sized { IfSome result HasSize }
{
    if word == "check" {
        Some(Command::OfQuery(Aim::Check, schema, query))
    } else if word == "explain" {
        of_explain(schema, query)
    } else {
        None
    }
}

// The database of this name.
fn database_of(word: &str) -> Option<Database>
    ensures { result ≡ database_of word.now }
{
    if word == "postgres" {
        Some(Database::Postgres)
    } else if word == "sqlite" {
        Some(Database::Sqlite)
    } else {
        None
    }
}

// What is shown of a query.
fn shown<'a>(what: &str) -> Option<Aim<'a>>
    ensures { option_map aim_view result ≡ shown what.now }
{
    if what == "types" {
        Some(Aim::ShowTypes)
    } else if what == "normal" {
        Some(Aim::ShowNormal)
    } else if what == "paths" {
        Some(Aim::ShowPaths)
    } else if what == "natural" {
        Some(Aim::ShowNatural)
    } else if what == "sql" {
        Some(Aim::ShowTexts(Showing::Frames))
    } else if what == "json" {
        Some(Aim::ShowTexts(Showing::Json))
    } else {
        None
    }
}

// What `show` makes of three words.
fn of_show<'a>(what: &str, second: &'a str, third: &'a str) -> Option<Command<'a>>
    ensures is { option_map command_view result ≡ of_show what.now second.now third.now }
    ensures sized { IfSome result HasSize }
{
    if what == "load" {
        match database_of(second) {
            Some(database) => Some(Command::ShowLoad(database, third)),
            None => None,
        }
    } else {
        match shown(what) {
            Some(aim) => Some(Command::OfQuery(aim, second, third)),
            None => None,
        }
    }
}

// The command of four words.
fn four_words<'a>(
    word: &str,
    second: &'a str,
    third: &'a str,
    fourth: &'a str,
) -> Option<Command<'a>>
    ensures is { option_map command_view result
        ≡ four_words word.now second.now third.now fourth.now }
    ensures sized { IfSome result HasSize }
{
    if word == "run" {
        Some(Command::OfQuery(Aim::Run(fourth), second, third))
    } else if word == "lineage" {
        let aim = Aim::Lineage(TraceWriting::Text, fourth);
        Some(Command::OfQuery(aim, second, third))
    } else if word == "answer" {
        Some(Command::Answer(RowWriting::Lines, second, third, fourth))
    } else if word == "stitch" {
        Some(Command::OfQuery(Aim::Stitch(fourth), second, third))
    } else if word == "show" {
        of_show(second, third, fourth)
    } else if word == "explain" {
        of_explain_sql(second, third, fourth)
    } else {
        None
    }
}

// What `json` makes of a word with its three names.
fn as_json<'a>(word: &str, schema: &'a str, text: &'a str, folder: &'a str) -> Option<Command<'a>>
    ensures is { option_map command_view result
        ≡ as_json word.now schema.now text.now folder.now }
    ensures sized { IfSome result HasSize }
{
    if word == "run" {
        Some(Command::OfQuery(Aim::RunJson(folder), schema, text))
    } else if word == "lineage" {
        let aim = Aim::Lineage(TraceWriting::Json, folder);
        Some(Command::OfQuery(aim, schema, text))
    } else if word == "answer" {
        Some(Command::Answer(RowWriting::Arrays, schema, text, folder))
    } else if word == "stitch" {
        Some(Command::OfQuery(Aim::StitchJson(folder), schema, text))
    } else {
        None
    }
}

// What `natural` makes of a word with its three names.
fn as_natural<'a>(
    word: &str,
    schema: &'a str,
    query: &'a str,
    folder: &'a str,
) -> Option<Command<'a>>
    ensures is { option_map command_view result
        ≡ as_natural word.now schema.now query.now folder.now }
    ensures sized { IfSome result HasSize }
{
    if word == "run" {
        Some(Command::OfQuery(Aim::RunNatural(folder), schema, query))
    } else {
        None
    }
}

// What `table` makes of `explain` with its three names.
fn as_table<'a>(word: &str, schema: &'a str, table: &'a str, folder: &'a str) -> Option<Command<'a>>
    ensures is { option_map command_view result
        ≡ as_table word.now schema.now table.now folder.now }
    ensures sized { IfSome result HasSize }
{
    if word == "explain" {
        Some(Command::Explain(schema, Subject::Table(table, folder)))
    } else {
        None
    }
}

// The command of five words.
fn five_words<'a>(
    word: &str,
    form: &str,
    schema: &'a str,
    text: &'a str,
    folder: &'a str,
) -> Option<Command<'a>>
    ensures is { option_map command_view result
        ≡ five_words word.now form.now schema.now text.now folder.now }
    ensures sized { IfSome result HasSize }
{
    if form == "json" {
        as_json(word, schema, text, folder)
    } else if form == "natural" {
        as_natural(word, schema, text, folder)
    } else if form == "table" {
        as_table(word, schema, text, folder)
    } else {
        None
    }
}

// What `tables` makes of `run json` with its three names.
fn over_tables<'a>(
    word: &str,
    form: &str,
    schema: &'a str,
    query: &'a str,
    folder: &'a str,
) -> Option<Command<'a>>
    ensures is { option_map command_view result
        ≡ over_tables word.now form.now schema.now query.now folder.now }
    ensures sized { IfSome result HasSize }
{
    if word != "run" {
        return None;
    }
    if form == "json" {
        Some(Command::OfQuery(Aim::RunJsonTables(folder), schema, query))
    } else {
        None
    }
}

// What `show` makes of `script` with the name of a database and three names.
fn as_script<'a>(
    form: &str,
    database: &str,
    schema: &'a str,
    query: &'a str,
    folder: &'a str,
) -> Option<Command<'a>>
    ensures is { option_map command_view result
        ≡ as_script form.now database.now schema.now query.now folder.now }
    ensures sized { IfSome result HasSize }
{
    if form != "script" {
        return None;
    }
    match database_of(database) {
        Some(database) => {
            let aim = Aim::ShowTexts(Showing::Script(database, folder));
            Some(Command::OfQuery(aim, schema, query))
        }
        None => None,
    }
}

// The command of six words.
fn six_words<'a>(
    word: &str,
    form: &str,
    source: &str,
    schema: &'a str,
    query: &'a str,
    folder: &'a str,
) -> Option<Command<'a>>
    ensures is { option_map command_view result
        ≡ six_words word.now form.now source.now schema.now query.now folder.now }
    ensures sized { IfSome result HasSize }
{
    if word == "show" {
        as_script(form, source, schema, query, folder)
    } else if source == "tables" {
        over_tables(word, form, schema, query, folder)
    } else {
        None
    }
}

/// The command that words are, if they are one. It takes no memory.
#[tactic(auto, unfolding(crate::specs::Commands::command_of))]
pub fn command_of<'a>(words: &'a [String]) -> Option<Command<'a>>
    ensures is { option_map command_view result ≡ command_of (map
        (λ word. string_bytes word) words.now) }
    ensures sized { IfSome result HasSize }
{
    match words {
        [word] => one_word(word.as_str()),
        [word, what] => two_words(word.as_str(), what.as_str()),
        [word, schema, query] => three_words(word.as_str(), schema.as_str(), query.as_str()),
        [word, second, third, fourth] => four_words(
            word.as_str(),
            second.as_str(),
            third.as_str(),
            fourth.as_str(),
        ),
        [word, form, schema, text, folder] => five_words(
            word.as_str(),
            form.as_str(),
            schema.as_str(),
            text.as_str(),
            folder.as_str(),
        ),
        [word, form, source, schema, query, folder] => six_words(
            word.as_str(),
            form.as_str(),
            source.as_str(),
            schema.as_str(),
            query.as_str(),
            folder.as_str(),
        ),
        _ => None,
    }
}
