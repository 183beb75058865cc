// Each fake and each adapter once, through its trait.
use crate::{FetchFault, FileInputs, HeldInputs, HeldSink, Inputs, PutFault, Sink, StdSink};
use nq_model::{List, Text};
use std::alloc::Global;
use std::io::Write;
use std::process::Abort;
use std::test::Fail;
use std::{fs, io};

// A name, a limit, and the answer that is wanted.
type Fetch = (&'static str, u64, Result<&'static str, FetchFault>);

fn check<I: Inputs>(rt: &impl Abort, alloc: Global, inputs: &mut I, cases: &[Fetch]) {
    for (name, limit, want) in cases {
        match inputs.fetch(alloc, name, *limit) {
            Ok(bytes) => assert_eq!(rt;
                Ok(bytes.as_slice()),
                want.map(|text| text.as_bytes()),
                "{name}"
            ),
            Err(fault) => assert_eq!(rt; Err(fault), *want, "{name}"),
        }
    }
}

#[test]
fn held_inputs_answer_by_name_limit_and_number(rt: HostRuntime) -> Result<(), Fail> {
    let alloc = rt.alloc();
    let mut files = List::new(alloc);
    files.push((
        Text::from_str(alloc, "a")?,
        List::from_slice(alloc, b"xyz")?,
    ))?;
    files.push((Text::from_str(alloc, "b")?, List::new(alloc)))?;
    let failing = List::from_slice(alloc, &[2, 6])?;
    let mut inputs = HeldInputs::new(alloc, files, failing)?;
    let cases = [
        ("a", 3, Ok("xyz")),
        ("a", 3, Err(FetchFault::Failed)),
        ("a", 2, Err(FetchFault::Long)),
        ("c", 9, Err(FetchFault::Failed)),
        ("b", 0, Ok("")),
        ("b", 0, Err(FetchFault::Failed)),
        ("a", 9, Ok("xyz")),
    ];
    check(&rt, alloc, &mut inputs, &cases);
    Ok(())
}

#[test]
fn file_inputs_read_up_to_the_limit(rt: HostRuntime) -> Result<(), Fail> {
    fs::write(&rt, "held.txt", "hello")?;
    let cases = [
        ("held.txt", 100, Ok("hello")),
        ("held.txt", 5, Ok("hello")),
        ("held.txt", 4, Err(FetchFault::Long)),
        ("missing.txt", 5, Err(FetchFault::Failed)),
    ];
    check(&rt, rt.alloc(), &mut FileInputs::new(&rt), &cases);
    Ok(())
}

#[test]
fn held_sink_takes_what_fits(rt: HostRuntime) -> Result<(), Fail> {
    let mut sink = HeldSink::new(rt.alloc(), 3)?;
    let cases = [
        ("ab", Ok(()), "ab"),
        ("cd", Err(PutFault::Failed), "abc"),
        ("", Ok(()), "abc"),
        ("d", Err(PutFault::Failed), "abc"),
    ];
    for (piece, want, held) in cases {
        assert_eq!(rt; sink.put(piece.as_bytes()), want, "{piece}");
        assert_eq!(rt; sink.bytes(), held.as_bytes(), "{piece}");
    }
    Ok(())
}

// Takes one byte at a call, and from the third on fails, or takes nothing.
#[derive(Drop)]
struct Narrow {
    taken: Vec<u8>,
    fails: bool,
}

impl Write for Narrow {
    fn write(&mut self, bytes: &[u8]) -> io::Result<usize> {
        if self.taken.len() == 2 {
            return if self.fails {
                Err(io::Error::from(io::ErrorKind::BrokenPipe))
            } else {
                Ok(0)
            };
        }
        let count = bytes.len().min(1);
        self.taken.extend_from_slice(&bytes[..count])?;
        Ok(count)
    }

    fn flush(&mut self) -> io::Result<()> {
        Ok(())
    }
}

#[test]
fn std_sink_writes_all_or_fails(rt: HostRuntime) -> Result<(), Fail> {
    for fails in [true, false] {
        let mut writer = Narrow {
            taken: Vec::new(rt.alloc()),
            fails,
        };
        let mut sink = StdSink::new(&mut writer);
        assert_eq!(rt; sink.put(b"a"), Ok(()));
        assert_eq!(rt; sink.put(b"bcd"), Err(PutFault::Failed));
        assert_eq!(rt; sink.put(b""), Ok(()));
        assert_eq!(rt; sink.put(b"e"), Err(PutFault::Failed));
        assert_eq!(rt; writer.taken.as_slice(), b"ab".as_slice());
    }
    Ok(())
}
