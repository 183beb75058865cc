// The note line of an answer, put in pieces, which takes no memory.
ghost use Rattle.std.specs.Prelude.{◌++◌, decimal};
ghost use Rattle.nq_edge.specs.Lines.{PutsLine};
ghost use Rattle.command_line.specs.Refusals.{fault_note, no_key_note, schema_note, query_note};
ghost use Rattle.command_line.specs.Refusals.{sql_note, rule_note, at_row, at_both, table_note};
ghost use Rattle.command_line.specs.Refusals.{json_table_note, answer_note, link_note};
ghost use Rattle.command_line.specs.Refusals.{refused_note, input_note, server_note, note_of};
ghost use Rattle.command_line.specs.Noting.{Notes};

use crate::refusal::{InputRefusal, Refusal, Refused};
use foreign_answers::{AnswerFault, LinkFault};
use itoa::Buffer;
use nq_edge::{Sink, put_five, put_nine, put_one, put_seven, put_three};
use nq_execute::ServerRefusal;
use nq_json::JsonTableFault;
use query_syntax::SyntaxFault;
use schema_reader::SchemaFault;
use sql_reader::SqlFault;
use table_reader::TableFault;

// Puts that an input is too long.
fn put_too_long<N: Sink>(notes: &mut N, name: &[u8], limit: u64)
    ensures { PutsLine (N.written notes.old) (N.written notes.new) (N.faults notes.old)
        (N.faults notes.new)
        (refused_note (Refused.TooLong name.now limit)) }
{
    let mut digits = Buffer::new();
    let limit = digits.format(limit).as_bytes();
    put_five(
        notes,
        b"nq: input too long: ",
        name,
        b" over ",
        limit,
        b"\n",
    );
}

// Puts that a text has a fault at a place.
fn put_fault<N: Sink>(notes: &mut N, what: &[u8], fault: &[u8], place: u64)
    ensures { PutsLine (N.written notes.old) (N.written notes.new) (N.faults notes.old)
        (N.faults notes.new)
        (fault_note what.now fault.now place) }
{
    let mut digits = Buffer::new();
    let place = digits.format(place).as_bytes();
    put_seven(
        notes,
        b"nq: ",
        what,
        b" refused: ",
        fault,
        b" at ",
        place,
        b"\n",
    );
}

// Puts the fault of a schema text.
fn put_schema<N: Sink>(notes: &mut N, fault: &SchemaFault)
    ensures { PutsLine (N.written notes.old) (N.written notes.new) (N.faults notes.old)
        (N.faults notes.new)
        (schema_note fault.now) }
{
    match *fault {
        SchemaFault::Memory => put_one(notes, b"nq: want of memory\n"),
        SchemaFault::NotUtf8 { place } => put_fault(notes, b"schema", b"NotUtf8", place),
        SchemaFault::Syntax { place } => put_fault(notes, b"schema", b"Syntax", place),
        SchemaFault::TwiceTable { place } => put_fault(notes, b"schema", b"TwiceTable", place),
        SchemaFault::TwiceColumn { place } => put_fault(notes, b"schema", b"TwiceColumn", place),
        SchemaFault::NoColumn { place } => put_fault(notes, b"schema", b"NoColumn", place),
        SchemaFault::KeyColumn { place } => put_fault(notes, b"schema", b"KeyColumn", place),
        SchemaFault::OverLimit { place } => put_fault(notes, b"schema", b"OverLimit", place),
    }
}

// Puts the fault of a query text.
fn put_query<N: Sink>(notes: &mut N, fault: &SyntaxFault)
    ensures { PutsLine (N.written notes.old) (N.written notes.new) (N.faults notes.old)
        (N.faults notes.new)
        (query_note fault.now) }
{
    match *fault {
        SyntaxFault::Memory => put_one(notes, b"nq: want of memory\n"),
        SyntaxFault::NotUtf8 { place } => put_fault(notes, b"query", b"NotUtf8", place),
        SyntaxFault::Token { place } => put_fault(notes, b"query", b"Token", place),
        SyntaxFault::Unexpected { place } => put_fault(notes, b"query", b"Unexpected", place),
        SyntaxFault::IntRange { place } => put_fault(notes, b"query", b"IntRange", place),
        SyntaxFault::Deep { place } => put_fault(notes, b"query", b"Deep", place),
        SyntaxFault::Unbound { place } => put_fault(notes, b"query", b"Unbound", place),
        SyntaxFault::TwiceLabel { place } => put_fault(notes, b"query", b"TwiceLabel", place),
    }
}

// Puts the fault of an SQL text.
fn put_sql<N: Sink>(notes: &mut N, fault: &SqlFault)
    ensures { PutsLine (N.written notes.old) (N.written notes.new) (N.faults notes.old)
        (N.faults notes.new)
        (sql_note fault.now) }
{
    match *fault {
        SqlFault::Memory => put_one(notes, b"nq: want of memory\n"),
        SqlFault::NotUtf8 { place } => put_fault(notes, b"sql", b"NotUtf8", place),
        SqlFault::Token { place } => put_fault(notes, b"sql", b"Token", place),
        SqlFault::Unexpected { place } => put_fault(notes, b"sql", b"Unexpected", place),
        SqlFault::IntRange { place } => put_fault(notes, b"sql", b"IntRange", place),
        SqlFault::Deep { place } => put_fault(notes, b"sql", b"Deep", place),
    }
}

// Puts, after its words, a rule that is broken at a place.
fn put_rule<N: Sink>(notes: &mut N, words: &[u8], rule: u8, place: u64)
    ensures { PutsLine (N.written notes.old) (N.written notes.new) (N.faults notes.old)
        (N.faults notes.new)
        (rule_note words.now rule place) }
{
    let mut rule_digits = Buffer::new();
    let mut place_digits = Buffer::new();
    let rule = rule_digits.format(rule).as_bytes();
    let place = place_digits.format(place).as_bytes();
    put_five(notes, words, rule, b" at ", place, b"\n");
}

// Puts of a table or of an answer that it is refused at a row.
fn put_at_row<N: Sink>(notes: &mut N, what: &[u8], which: &[u8], words: &[u8], row: u64)
    ensures { PutsLine (N.written notes.old) (N.written notes.new) (N.faults notes.old)
        (N.faults notes.new)
        (what.now ++ (which.now ++ at_row words.now row)) }
{
    let mut digits = Buffer::new();
    let row = digits.format(row).as_bytes();
    put_five(notes, what, which, words, row, b"\n");
}

// Puts of a table or of an answer that it is refused at a row, with a further number.
fn put_at_both<N: Sink>(
    notes: &mut N,
    what: &[u8],
    which: &[u8],
    words: &[u8],
    row: u64,
    more: &[u8],
    second: u64,
)
    ensures { PutsLine (N.written notes.old) (N.written notes.new) (N.faults notes.old)
        (N.faults notes.new)
        (what.now ++ (which.now ++ at_both words.now row more.now second)) }
{
    let mut row_digits = Buffer::new();
    let mut second_digits = Buffer::new();
    let row = row_digits.format(row).as_bytes();
    let second = second_digits.format(second).as_bytes();
    put_seven(notes, what, which, words, row, more, second, b"\n");
}

// Puts the fault of a table text.
fn put_table<N: Sink>(notes: &mut N, name: &[u8], fault: &TableFault)
    ensures { PutsLine (N.written notes.old) (N.written notes.new) (N.faults notes.old)
        (N.faults notes.new)
        (table_note name.now fault.now) }
{
    match *fault {
        TableFault::Memory => put_one(notes, b"nq: want of memory\n"),
        TableFault::Header => put_three(notes, b"nq: table ", name, b" refused: Header\n"),
        TableFault::Width { row } => {
            put_at_row(notes, b"nq: table ", name, b" refused: Width row ", row);
        }
        TableFault::NotUtf8 { row, column } => {
            put_at_both(
                notes,
                b"nq: table ",
                name,
                b" refused: NotUtf8 row ",
                row,
                b" column ",
                column,
            );
        }
        TableFault::BadInt { row, column } => {
            put_at_both(
                notes,
                b"nq: table ",
                name,
                b" refused: BadInt row ",
                row,
                b" column ",
                column,
            );
        }
        TableFault::BadBool { row, column } => {
            put_at_both(
                notes,
                b"nq: table ",
                name,
                b" refused: BadBool row ",
                row,
                b" column ",
                column,
            );
        }
        TableFault::TwiceKey { row, earlier } => {
            put_at_both(
                notes,
                b"nq: table ",
                name,
                b" refused: TwiceKey row ",
                row,
                b" earlier ",
                earlier,
            );
        }
    }
}

// Puts the fault of a JSON table.
fn put_json_table<N: Sink>(notes: &mut N, name: &[u8], fault: &JsonTableFault)
    ensures { PutsLine (N.written notes.old) (N.written notes.new) (N.faults notes.old)
        (N.faults notes.new)
        (json_table_note name.now fault.now) }
{
    match *fault {
        JsonTableFault::Memory => put_one(notes, b"nq: want of memory\n"),
        JsonTableFault::NotJson => put_three(notes, b"nq: table ", name, b" refused: NotJson\n"),
        JsonTableFault::NotArray => put_three(notes, b"nq: table ", name, b" refused: NotArray\n"),
        JsonTableFault::BadRow { row } => {
            put_at_row(notes, b"nq: table ", name, b" refused: BadRow row ", row);
        }
        JsonTableFault::BadCell { row, column } => {
            put_at_both(
                notes,
                b"nq: table ",
                name,
                b" refused: BadCell row ",
                row,
                b" column ",
                column,
            );
        }
        JsonTableFault::TwiceKey { row, earlier } => {
            put_at_both(
                notes,
                b"nq: table ",
                name,
                b" refused: TwiceKey row ",
                row,
                b" earlier ",
                earlier,
            );
        }
    }
}

// Puts the fault of the text of an answer, whose number has these digits.
fn put_answer_fault<N: Sink>(notes: &mut N, digits: &[u8], fault: &AnswerFault)
    ensures { PutsLine (N.written notes.old) (N.written notes.new) (N.faults notes.old)
        (N.faults notes.new)
        (answer_note digits.now fault.now) }
{
    match *fault {
        AnswerFault::Memory => put_one(notes, b"nq: want of memory\n"),
        AnswerFault::Header => put_three(notes, b"nq: answer ", digits, b" refused: Header\n"),
        AnswerFault::Width { row } => {
            put_at_row(notes, b"nq: answer ", digits, b" refused: Width row ", row);
        }
        AnswerFault::NotUtf8 { row, column } => {
            put_at_both(
                notes,
                b"nq: answer ",
                digits,
                b" refused: NotUtf8 row ",
                row,
                b" column ",
                column,
            );
        }
        AnswerFault::BadInt { row, column } => {
            put_at_both(
                notes,
                b"nq: answer ",
                digits,
                b" refused: BadInt row ",
                row,
                b" column ",
                column,
            );
        }
        AnswerFault::BadBool { row, column } => {
            put_at_both(
                notes,
                b"nq: answer ",
                digits,
                b" refused: BadBool row ",
                row,
                b" column ",
                column,
            );
        }
    }
}

// Puts the fault of the text of the answer of this number.
fn put_answer<N: Sink>(notes: &mut N, number: u64, fault: &AnswerFault)
    ensures { PutsLine (N.written notes.old) (N.written notes.new) (N.faults notes.old)
        (N.faults notes.new)
        (answer_note (decimal number) fault.now) }
{
    let mut digits = Buffer::new();
    let number = digits.format(number).as_bytes();
    put_answer_fault(notes, number, fault);
}

// Puts that a row of an answer stands in no bag that is given.
fn put_dangling<N: Sink>(notes: &mut N, answer: u64, row: u64)
    ensures { PutsLine (N.written notes.old) (N.written notes.new) (N.faults notes.old)
        (N.faults notes.new)
        (link_note (LinkFault.Dangling answer row)) }
{
    let mut digits = Buffer::new();
    let answer = digits.format(answer).as_bytes();
    put_at_row(
        notes,
        b"nq: answer ",
        answer,
        b" refused: Dangling row ",
        row,
    );
}

// Puts that a row of an answer gives a bag by the index of an earlier row.
fn put_twice<N: Sink>(notes: &mut N, answer: u64, row: u64, column: u64, earlier: u64)
    ensures { PutsLine (N.written notes.old) (N.written notes.new) (N.faults notes.old)
        (N.faults notes.new)
        (link_note (LinkFault.Twice answer row column earlier)) }
{
    let mut answer_digits = Buffer::new();
    let mut row_digits = Buffer::new();
    let mut column_digits = Buffer::new();
    let mut earlier_digits = Buffer::new();
    let answer = answer_digits.format(answer).as_bytes();
    let row = row_digits.format(row).as_bytes();
    let column = column_digits.format(column).as_bytes();
    let earlier = earlier_digits.format(earlier).as_bytes();
    put_nine(
        notes,
        b"nq: answer ",
        answer,
        b" refused: Twice row ",
        row,
        b" column ",
        column,
        b" earlier ",
        earlier,
        b"\n",
    );
}

// Puts why answers are not linked.
fn put_links<N: Sink>(notes: &mut N, fault: &LinkFault)
    ensures { PutsLine (N.written notes.old) (N.written notes.new) (N.faults notes.old)
        (N.faults notes.new)
        (link_note fault.now) }
{
    match *fault {
        LinkFault::Memory => put_one(notes, b"nq: want of memory\n"),
        LinkFault::Dangling { text, row } => put_dangling(notes, text, row),
        LinkFault::Twice {
            text,
            row,
            column,
            earlier,
        } => put_twice(notes, text, row, column, earlier),
    }
}

// Puts that a table has no key.
fn put_no_key<N: Sink>(notes: &mut N, table: &[u8])
    ensures { PutsLine (N.written notes.old) (N.written notes.new) (N.faults notes.old)
        (N.faults notes.new)
        (no_key_note table.now) }
{
    put_three(notes, b"nq: no key: table ", table, b"\n");
}

// Puts what the words and the inputs are refused for.
fn put_refused<N: Sink>(notes: &mut N, refused: &Refused)
    ensures { PutsLine (N.written notes.old) (N.written notes.new) (N.faults notes.old)
        (N.faults notes.new)
        (refused_note refused.now) }
{
    match refused {
        Refused::TooLong(name, limit) => {
            put_too_long(notes, name.as_str().as_bytes(), *limit);
        }
        Refused::Schema(fault) => put_schema(notes, fault),
        Refused::Query(fault) => put_query(notes, fault),
        Refused::IllTyped { rule, place } => {
            put_rule(notes, b"nq: ill typed: rule ", *rule, *place);
        }
        Refused::NoKey(table) => put_no_key(notes, table.as_str().as_bytes()),
        Refused::Table(name, fault) => put_table(notes, name.as_str().as_bytes(), fault),
        Refused::Sql(fault) => put_sql(notes, fault),
        Refused::IllScoped { rule, place } => {
            put_rule(notes, b"nq: sql refused: rule ", *rule, *place);
        }
        Refused::JsonTable(name, fault) => put_json_table(notes, name.as_str().as_bytes(), fault),
        Refused::Answer(number, fault) => put_answer(notes, *number, fault),
        Refused::Links(fault) => put_links(notes, fault),
    }
}

// Puts why no inputs were gathered.
fn put_input<N: Sink>(notes: &mut N, refusal: &InputRefusal)
    ensures { PutsLine (N.written notes.old) (N.written notes.new) (N.faults notes.old)
        (N.faults notes.new)
        (input_note refusal.now) }
{
    match refusal {
        InputRefusal::Memory => put_one(notes, b"nq: want of memory\n"),
        InputRefusal::Refused(refused) => put_refused(notes, refused),
        InputRefusal::Failed(name) => {
            put_three(
                notes,
                b"nq: input failed: ",
                name.as_str().as_bytes(),
                b"\n",
            );
        }
    }
}

// Puts that the text of this number was not answered.
fn put_text_failed<N: Sink>(notes: &mut N, text: u64)
    ensures { PutsLine (N.written notes.old) (N.written notes.new) (N.faults notes.old)
        (N.faults notes.new)
        (server_note (ServerRefusal.TextFailed text)) }
{
    let mut digits = Buffer::new();
    let text = digits.format(text).as_bytes();
    put_three(notes, b"nq: server failed: text ", text, b"\n");
}

// Puts that an answer does not fit.
fn put_bad_answer<N: Sink>(notes: &mut N, text: u64, row: u64, column: u64)
    ensures { PutsLine (N.written notes.old) (N.written notes.new) (N.faults notes.old)
        (N.faults notes.new)
        (server_note (ServerRefusal.BadAnswer text row column)) }
{
    let mut text_digits = Buffer::new();
    let mut row_digits = Buffer::new();
    let mut column_digits = Buffer::new();
    let text = text_digits.format(text).as_bytes();
    let row = row_digits.format(row).as_bytes();
    let column = column_digits.format(column).as_bytes();
    put_seven(
        notes,
        b"nq: bad answer: text ",
        text,
        b" row ",
        row,
        b" column ",
        column,
        b"\n",
    );
}

// Puts why a server gave no answer that fits.
fn put_server<N: Sink>(notes: &mut N, refusal: &ServerRefusal)
    ensures { PutsLine (N.written notes.old) (N.written notes.new) (N.faults notes.old)
        (N.faults notes.new)
        (server_note refusal.now) }
{
    match refusal {
        ServerRefusal::Memory => put_one(notes, b"nq: want of memory\n"),
        ServerRefusal::TableFailed(name) => {
            put_three(
                notes,
                b"nq: server failed: table ",
                name.as_str().as_bytes(),
                b"\n",
            );
        }
        ServerRefusal::TextFailed(text) => put_text_failed(notes, *text),
        ServerRefusal::BadAnswer { text, row, column } => {
            put_bad_answer(notes, *text, *row, *column);
        }
    }
}

// Puts the note line of a refusal.
fn put_refusal<N: Sink>(notes: &mut N, refusal: &Refusal)
    ensures { PutsLine (N.written notes.old) (N.written notes.new) (N.faults notes.old)
        (N.faults notes.new)
        (note_of refusal.now) }
{
    match refusal {
        Refusal::Usage => put_one(notes, b"nq: usage\n"),
        Refusal::Input(refusal) => put_input(notes, refusal),
        Refusal::Server(refusal) => put_server(notes, refusal),
        Refusal::OutputFailed => put_one(notes, b"nq: output failed\n"),
    }
}

/// Puts the note line of an answer, which is none but for a refusal.
pub fn put_note<N: Sink>(notes: &mut N, answer: &Result<(), Refusal>)
    ensures { Notes (N.written notes.old) (N.written notes.new) (N.faults notes.old)
        (N.faults notes.new) answer.now }
{
    match answer {
        Ok(()) => {}
        Err(refusal) => put_refusal(notes, refusal),
    }
}
