// Answers, and the first place where each does not fit its columns.
use nq_model::{Cell, ColumnType, List, Memory, Text};
use rows::Rows;
use sql_profile::{Answer, fits};
use std::alloc::Global;
use std::test::Fail;

struct Case {
    columns: &'static [ColumnType],
    // A row for each text, with an int, a bool or a text for each letter.
    rows: &'static [&'static str],
    misfit: Option<(u64, u64)>,
}

const CASES: [Case; 8] = [
    Case {
        columns: &[ColumnType::Int, ColumnType::Bool],
        rows: &["ib", "ib"],
        misfit: None,
    },
    Case {
        columns: &[ColumnType::Int, ColumnType::Bool],
        rows: &["i"],
        misfit: Some((1, 2)),
    },
    Case {
        columns: &[ColumnType::Int, ColumnType::Bool],
        rows: &["tt"],
        misfit: Some((1, 1)),
    },
    Case {
        columns: &[ColumnType::Int, ColumnType::Bool],
        rows: &["ibt"],
        misfit: Some((1, 3)),
    },
    Case {
        columns: &[ColumnType::Int, ColumnType::Text],
        rows: &["it", "ib", "", "bbb"],
        misfit: Some((2, 2)),
    },
    Case {
        columns: &[ColumnType::Int],
        rows: &[],
        misfit: None,
    },
    Case {
        columns: &[],
        rows: &["", ""],
        misfit: None,
    },
    Case {
        columns: &[],
        rows: &["", "i"],
        misfit: Some((2, 1)),
    },
];

fn answer_of(alloc: Global, rows: &[&str]) -> Result<Answer, Memory> {
    let mut answer = Answer {
        rows: Rows::new(alloc),
    };
    for kinds in rows {
        let mut row = List::new(alloc);
        for kind in kinds.as_bytes() {
            row.push(match kind {
                b'i' => Cell::Int(7),
                b'b' => Cell::Bool(true),
                _ => Cell::Text(Text::from_str(alloc, "x")?),
            })?;
        }
        answer.rows.push(row.as_slice())?;
    }
    Ok(answer)
}

#[test]
fn names_the_first_misfit(rt: HostRuntime) -> Result<(), Fail> {
    for case in &CASES {
        let answer = answer_of(rt.alloc(), case.rows)?;
        let misfit = fits(&answer, case.columns).err();
        assert_eq!(rt; misfit.map(|place| (place.row, place.column)), case.misfit);
    }
    Ok(())
}
