// Whole runs over generated tables.
use crate::runs::{Engine, Wanted, check_run};
use nq_edge::HeldInputs;
use nq_model::List;
use std::alloc::Global;
use std::process::Abort;
use std::test::Fail;

const SUMMARY: Wanted = Wanted {
    words: &[],
    room: 200,
    status: 0,
    out: "",
    note: "",
};

// Sizes for which a search of all rows is quick.
const SMALL: [Wanted; 3] = [
    Wanted {
        words: &["gen", "1"],
        out: "texts 3\nlevel 1 1\nlevel 2 3\nlevel 3 12\nbytes 183\n",
        ..SUMMARY
    },
    Wanted {
        words: &["gen", "2"],
        out: "texts 3\nlevel 1 2\nlevel 2 12\nlevel 3 48\nbytes 659\n",
        ..SUMMARY
    },
    Wanted {
        words: &["gen", "100"],
        out: "texts 3\nlevel 1 100\nlevel 2 600\nlevel 3 2400\nbytes 33521\n",
        ..SUMMARY
    },
];

const GREATEST: Wanted = Wanted {
    words: &["gen", "5000"],
    out: "texts 3\nlevel 1 5000\nlevel 2 30000\nlevel 3 120000\nbytes 1741121\n",
    ..SUMMARY
};

const USAGE: Wanted = Wanted {
    status: 2,
    note: "nq: usage\n",
    ..SUMMARY
};

// Words that name no size, and too few or too many of them.
const OTHERS: [Wanted; 6] = [
    Wanted {
        words: &["gen", "0"],
        ..USAGE
    },
    Wanted {
        words: &["gen", "01"],
        ..USAGE
    },
    Wanted {
        words: &["gen", "5001"],
        ..USAGE
    },
    Wanted {
        words: &["gen", "1x"],
        ..USAGE
    },
    Wanted {
        words: &["gen"],
        ..USAGE
    },
    Wanted {
        words: &["gen", "1", "2"],
        ..USAGE
    },
];

// Runs without inputs, since none is fetched.
fn check(rt: &impl Abort, alloc: Global, engine: Engine, wanted: &Wanted) -> Result<(), Fail> {
    let inputs = HeldInputs::new(alloc, List::new(alloc), List::new(alloc))?;
    check_run(rt, alloc, engine, inputs, wanted)
}

#[test]
fn sums_generated_tables_up(rt: HostRuntime) -> Result<(), Fail> {
    let alloc = rt.alloc();
    for wanted in &SMALL {
        check(&rt, alloc, Engine::Fast, wanted)?;
        check(&rt, alloc, Engine::Crooked, wanted)?;
    }
    check(&rt, alloc, Engine::Fast, &GREATEST)?;
    for wanted in &OTHERS {
        check(&rt, alloc, Engine::Fast, wanted)?;
    }
    Ok(())
}
