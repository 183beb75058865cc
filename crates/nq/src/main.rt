//! Runs the command that the words of the command line are, over files and the standard streams.
#![tactic(auto)]

use fast_engine::FastServer;
use nq_edge::{FileInputs, StdSink};
use nq_top::nq_main;
use sql_profile::SqlServer;
use std::alloc::{AllocError, Global};
use std::env;
use std::hash::{BuildHasher, DefaultHasher, RandomState};
use std::io::ErrorKind;
use std::process::ExitCode;

// The words of the command line, without the program's name; none where they cannot be read.
fn words_of(rt: &HostRuntime) -> Result<Vec<String>, AllocError> {
    let mut words = Vec::new(rt.alloc());
    match env::args(rt) {
        Ok(args) => {
            for word in args.skip(1) {
                words.push(word)?;
            }
        }
        Err(error) => {
            if error.kind() == ErrorKind::OutOfMemory {
                return Err(AllocError);
            }
        }
    }
    Ok(words)
}

// The hasher with which the server's codes begin. Its keys are random, so nobody can choose tables
// that make the server slow. Where the system gives no random bytes it is the one of `new`: a run
// is then right all the same, and only as slow as chosen keys make it.
fn hasher(rt: &HostRuntime) -> DefaultHasher {
    match RandomState::new(rt) {
        Ok(state) => state.build_hasher(),
        Err(_) => DefaultHasher::new(),
    }
}

// The status of the whole program.
fn run(rt: &HostRuntime) -> Result<u8, AllocError> {
    let alloc = rt.alloc();
    let words = words_of(rt)?;
    let server: Box<dyn SqlServer> = Box::new(alloc, FastServer::with_hasher(alloc, hasher(rt)))?;
    let mut inputs = FileInputs::new(rt);
    let mut out = StdSink::new(rt.stdout());
    let mut notes = StdSink::new(rt.stderr());
    Ok(nq_main(
        alloc,
        words.as_slice(),
        &mut inputs,
        &mut out,
        &mut notes,
        server,
    ))
}

fn main(rt: HostRuntime) -> ExitCode {
    match run(&rt) {
        Ok(status) => ExitCode::from(status),
        Err(_) => ExitCode::from(1),
    }
}
