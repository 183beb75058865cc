// Whole runs whose output or notes have little room, and inputs that are too long together.
use crate::nested::{WHOLE, inputs_of};
use crate::runs::{Engine, Room, Wanted, check_run, held, padded, put, run_over, server_of};
use nq_model::{List, Text};
use std::test::Fail;

const RUN: &[&str] = &["run", "org", "q", "data"];

const FAILED: &str = "nq: output failed\n";

const USAGE: &str = "nq: usage\n";

#[test]
fn writes_as_much_as_the_output_holds(rt: HostRuntime) -> Result<(), Fail> {
    let alloc = rt.alloc();
    let text = WHOLE.out.as_bytes();
    for bytes in 0..text.len() {
        let room = Room {
            out: bytes as u64,
            notes: 200,
        };
        let server = server_of(alloc, Engine::Fast)?;
        let ran = run_over(alloc, server, inputs_of(alloc, &WHOLE)?, RUN, room)?;
        assert_eq!(rt; ran.status, 8);
        assert_eq!(rt; ran.out.bytes(), &text[..bytes]);
        assert_eq!(rt; ran.notes.bytes(), FAILED.as_bytes());
    }
    Ok(())
}

#[test]
fn notes_as_much_as_the_notes_hold(rt: HostRuntime) -> Result<(), Fail> {
    let alloc = rt.alloc();
    let note = USAGE.as_bytes();
    for bytes in 0..note.len() {
        let room = Room {
            out: 200,
            notes: bytes as u64,
        };
        let server = server_of(alloc, Engine::Fast)?;
        let ran = run_over(alloc, server, inputs_of(alloc, &WHOLE)?, &[], room)?;
        assert_eq!(rt; ran.status, 2);
        assert_eq!(rt; ran.out.bytes().len(), 0);
        assert_eq!(rt; ran.notes.bytes(), &note[..bytes]);
    }
    Ok(())
}

// The first table takes 40,000,000 bytes of what all tables share, and the second does not fit in
// the rest.
#[test]
fn tables_share_a_limit(rt: HostRuntime) -> Result<(), Fail> {
    let alloc = rt.alloc();
    let mut departments = List::from_slice(alloc, b"name")?;
    for _ in 0..40_000_000 - departments.len() {
        departments.push(b'\n')?;
    }
    let employees = padded(alloc, 27_108_865, "")?;
    let mut files: List<(Text, List<u8>)> = List::new(alloc);
    put(alloc, &mut files, "org", crate::nested::ORG.as_bytes())?;
    put(alloc, &mut files, "q", b"table departments")?;
    put(
        alloc,
        &mut files,
        "data/departments.csv",
        departments.as_slice(),
    )?;
    put(
        alloc,
        &mut files,
        "data/employees.csv",
        employees.as_slice(),
    )?;
    let wanted = Wanted {
        words: RUN,
        room: 200,
        status: 10,
        out: "",
        note: "nq: input too long: data/employees.csv over 27108864\n",
    };
    let inputs = held(alloc, files, &[])?;
    check_run(&rt, alloc, Engine::Fast, inputs, &wanted)
}
