// Whole runs over inputs and outputs in memory, and what is wanted of them.
ghost use Rattle.std.specs.Prelude.{◌≡◌, ◌++◌, ◌∷◌, [], IfOk, OnOk, map};
ghost use Rattle.nq_model.specs.Orders.{AreDistinct};

use fast_engine::FastServer;
use nq_edge::{HeldInputs, HeldSink};
use nq_model::{List, Text};
use nq_top::{nq_lent, nq_main};
use plain_engine::{CrookedServer, PlainServer};
use sql_profile::SqlServer;
use std::alloc::Global;
use std::process::Abort;
use std::test::Fail;

// The room of notes that no run of a test fills.
const NOTES: u64 = 200;

/// The words of a run and the room of its output; and the status, the output and the note that are
/// wanted.
#[derive(Clone, Copy)]
pub struct Wanted {
    pub words: &'static [&'static str],
    pub room: u64,
    pub status: u8,
    pub out: &'static str,
    pub note: &'static str,
}

/// So many spaces, and then a text.
pub fn padded(alloc: Global, blanks: usize, text: &str) -> Result<List<u8>, Fail> {
    let mut bytes = List::new(alloc);
    for _ in 0..blanks {
        bytes.push(b' ')?;
    }
    for byte in text.as_bytes() {
        bytes.push(*byte)?;
    }
    Ok(bytes)
}

/// Puts a text under its name behind the inputs so far.
pub fn put(
    alloc: Global,
    files: &mut List<(Text, List<u8>)>,
    name: &str,
    text: &[u8],
) -> Result<(), Fail>
    ensures { OnOk result (map (λ file. file.0) files.new
        ≡ map (λ file. file.0) files.old ++ name.now ∷ []) }
{
    let name = Text::from_str(alloc, name)?;
    let text = List::from_slice(alloc, text)?;
    files.push((name, text))?;
    Ok(())
}

/// Inputs that are these texts, of which the fetches with these numbers fail.
pub fn held(
    alloc: Global,
    files: List<(Text, List<u8>)>,
    failing: &[u64],
) -> Result<HeldInputs, Fail>
    requires { AreDistinct (map (λ file. file.0) files) }
{
    let failing = List::from_slice(alloc, failing)?;
    Ok(HeldInputs::new(alloc, files, failing)?)
}

// The words of a run.
fn words_of(alloc: Global, listed: &[&str]) -> Result<Vec<String>, Fail> {
    let mut words = Vec::new(alloc);
    for word in listed {
        words.push(String::from_str(alloc, word)?)?;
    }
    Ok(words)
}

/// What came of a run.
#[derive(Drop)]
pub struct Ran {
    pub status: u8,
    pub out: HeldSink,
    pub notes: HeldSink,
}

/// How many bytes the output and the notes of a run hold.
#[derive(Clone, Copy)]
pub struct Room {
    pub out: u64,
    pub notes: u64,
}

/// Runs the program over these inputs and a server that holds no table.
pub fn run_over(
    alloc: Global,
    server: Box<dyn SqlServer>,
    mut inputs: HeldInputs,
    words: &[&str],
    room: Room,
) -> Result<Ran, Fail>
    requires { loaded server ≡ [] }
{
    let words = words_of(alloc, words)?;
    let mut out = HeldSink::new(alloc, room.out)?;
    let mut notes = HeldSink::new(alloc, room.notes)?;
    let status = nq_main(
        alloc,
        words.as_slice(),
        &mut inputs,
        &mut out,
        &mut notes,
        server,
    );
    Ok(Ran { status, out, notes })
}

// Compares what came of a run with what is wanted.
fn compare(rt: &impl Abort, ran: &Ran, wanted: &Wanted) {
    assert_eq!(rt; ran.status, wanted.status, "{} {}", wanted.out, wanted.note);
    assert_eq!(rt; ran.out.bytes(), wanted.out.as_bytes());
    assert_eq!(rt; ran.notes.bytes(), wanted.note.as_bytes());
}

/// The servers that a run may ask.
#[derive(Clone, Copy)]
pub enum Engine {
    Plain,
    Crooked,
    Fast,
}

/// A server that holds no table.
pub fn server_of(alloc: Global, engine: Engine) -> Result<Box<dyn SqlServer>, Fail>
    ensures { IfOk result (λ server. loaded server ≡ []) }
{
    match engine {
        Engine::Plain => {
            let server: Box<dyn SqlServer> = Box::new(alloc, PlainServer::new(alloc))?;
            Ok(server)
        }
        Engine::Crooked => {
            let server: Box<dyn SqlServer> = Box::new(alloc, CrookedServer::new(alloc))?;
            Ok(server)
        }
        Engine::Fast => {
            let server: Box<dyn SqlServer> = Box::new(alloc, FastServer::new(alloc))?;
            Ok(server)
        }
    }
}

/// Runs the program over these inputs and a server of its own.
pub fn check_run(
    rt: &impl Abort,
    alloc: Global,
    engine: Engine,
    inputs: HeldInputs,
    wanted: &Wanted,
) -> Result<(), Fail> {
    check_run_over(rt, alloc, server_of(alloc, engine)?, inputs, wanted)
}

/// Runs the program over these inputs and a server that holds no table.
pub fn check_run_over(
    rt: &impl Abort,
    alloc: Global,
    server: Box<dyn SqlServer>,
    inputs: HeldInputs,
    wanted: &Wanted,
) -> Result<(), Fail>
    requires { loaded server ≡ [] }
{
    let room = Room {
        out: wanted.room,
        notes: NOTES,
    };
    let ran = run_over(alloc, server, inputs, wanted.words, room)?;
    compare(rt, &ran, wanted);
    Ok(())
}

/// What the program writes over these inputs and the plain server. It ends with status 0 and writes
/// no note.
pub fn written(
    rt: &impl Abort,
    alloc: Global,
    inputs: HeldInputs,
    words: &[&str],
    room: u64,
) -> Result<HeldSink, Fail> {
    let server = server_of(alloc, Engine::Plain)?;
    let room = Room {
        out: room,
        notes: NOTES,
    };
    let Ran { status, out, notes } = run_over(alloc, server, inputs, words, room)?;
    assert_eq!(rt; status, 0);
    assert_eq!(rt; notes.bytes().len(), 0);
    Ok(out)
}

/// Runs the program over these inputs and a server that is lent and holds no table.
pub fn check_run_lent(
    rt: &impl Abort,
    alloc: Global,
    server: &mut Box<dyn SqlServer>,
    mut inputs: HeldInputs,
    wanted: &Wanted,
) -> Result<(), Fail>
    requires { loaded server.old ≡ [] }
{
    let words = words_of(alloc, wanted.words)?;
    let mut out = HeldSink::new(alloc, wanted.room)?;
    let mut notes = HeldSink::new(alloc, NOTES)?;
    let status = nq_lent(
        alloc,
        words.as_slice(),
        &mut inputs,
        &mut out,
        &mut notes,
        server,
    );
    compare(rt, &Ran { status, out, notes }, wanted);
    Ok(())
}
