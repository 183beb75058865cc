// The rows that SQL trees give over tables, worked out by hand.
use crate::built::{Chosen, Keep, Named, Over, Value, text_of};
use crate::held::organisation;
use crate::told::{line, listed};
use nq_model::{Cell, List, Memory};
use reference_sql::{Ties, evaluate_text};
use sql_eval::{Arrangement, Joining, evaluate};
use sql_profile::{Loaded, SqlText};
use std::alloc::Global;
use std::hash::DefaultHasher;
use std::process::Abort;

// A text, and the rows that it gives where ties are numbered as they arise, where they are the other way round, and
// where the kept combinations of each SELECT are taken in reverse.
struct Row {
    with: Option<(&'static str, Chosen)>,
    main: &'static [Chosen],
    rows: [&'static str; 3],
}

const NUMBERED: &[(&str, Value)] = &[("a", Value::Column(("x", "a"))), ("n", Value::Number(&[]))];

const EMPLOYEE_KEYS: &[Named] = &[
    ("x1", "name"),
    ("x2", "dept"),
    ("x2", "name"),
    ("x2", "salary"),
];

const ONE_OF_Z: Chosen = Chosen {
    items: &[
        ("ot", Value::Int(1)),
        ("on", Value::Column(("z", "n"))),
        ("c1", Value::Int(1)),
    ],
    from: &[("q.1", "z")],
    keep: Keep::All,
};

// The employees of a department.
const STAFF: Over = Over {
    from: &[("employees", "e")],
    equal: Some((("e", "dept"), ("d", "name"))),
};

const ROWS: [Row; 17] = [
    // The departments that have no employee.
    Row {
        with: None,
        main: &[Chosen {
            items: &[("n", Value::Column(("d", "name")))],
            from: &[("departments", "d")],
            keep: Keep::Without(("employees", "dept"), ("d", "name")),
        }],
        rows: [
            "Quality ;Research ;",
            "Quality ;Research ;",
            "Research ;Quality ;",
        ],
    },
    // The scan text of a table with rows, and of one without.
    Row {
        with: None,
        main: &[Chosen {
            items: &[
                ("ot", Value::Int(0)),
                ("on", Value::Int(1)),
                ("c1", Value::Column(("x1", "name"))),
            ],
            from: &[("departments", "x1")],
            keep: Keep::All,
        }],
        rows: [
            "0 1 Product ;0 1 Quality ;0 1 Research ;0 1 Sales ;",
            "0 1 Product ;0 1 Quality ;0 1 Research ;0 1 Sales ;",
            "0 1 Sales ;0 1 Research ;0 1 Quality ;0 1 Product ;",
        ],
    },
    Row {
        with: None,
        main: &[Chosen {
            items: &[
                ("ot", Value::Int(0)),
                ("on", Value::Int(1)),
                ("c1", Value::Column(("x1", "name"))),
            ],
            from: &[("nothing", "x1")],
            keep: Keep::All,
        }],
        rows: ["", "", ""],
    },
    // Ties may be numbered in any way.
    Row {
        with: None,
        main: &[Chosen {
            items: NUMBERED,
            from: &[("t", "x")],
            keep: Keep::All,
        }],
        rows: ["5 1 ;6 2 ;", "5 2 ;6 1 ;", "6 1 ;5 2 ;"],
    },
    // A WITH query has one list, so that each row meets itself, however its ties are numbered.
    Row {
        with: Some((
            "w",
            Chosen {
                items: NUMBERED,
                from: &[("t", "x")],
                keep: Keep::All,
            },
        )),
        main: &[Chosen {
            items: &[
                ("a", Value::Column(("u", "a"))),
                ("b", Value::Column(("v", "a"))),
            ],
            from: &[("w", "u"), ("w", "v")],
            keep: Keep::Equal(("u", "n"), ("v", "n")),
        }],
        rows: ["5 5 ;6 6 ;", "5 5 ;6 6 ;", "5 5 ;6 6 ;"],
    },
    // The names of the departments, each with its number.
    Row {
        with: None,
        main: &[Chosen {
            items: &[
                ("ot", Value::Int(0)),
                ("on", Value::Int(1)),
                ("c1", Value::Column(("x1", "name"))),
                ("c2", Value::Int(1)),
                ("c3", Value::Number(&[("x1", "name")])),
            ],
            from: &[("departments", "x1")],
            keep: Keep::All,
        }],
        rows: [
            "0 1 Product 1 1 ;0 1 Quality 1 2 ;0 1 Research 1 3 ;0 1 Sales 1 4 ;",
            "0 1 Product 1 1 ;0 1 Quality 1 2 ;0 1 Research 1 3 ;0 1 Sales 1 4 ;",
            "0 1 Sales 1 4 ;0 1 Research 1 3 ;0 1 Quality 1 2 ;0 1 Product 1 1 ;",
        ],
    },
    // The employees, each with the number of its department in the list of a WITH query and its own.
    Row {
        with: Some((
            "q.1",
            Chosen {
                items: &[
                    ("x1.name", Value::Column(("x1", "name"))),
                    ("n", Value::Number(&[("x1", "name")])),
                ],
                from: &[("departments", "x1")],
                keep: Keep::All,
            },
        )),
        main: &[Chosen {
            items: &[
                ("on", Value::Column(("z", "n"))),
                ("c1", Value::Column(("x2", "name"))),
                (
                    "c3",
                    Value::Number(&[
                        ("z", "x1.name"),
                        ("x2", "dept"),
                        ("x2", "name"),
                        ("x2", "salary"),
                    ]),
                ),
            ],
            from: &[("q.1", "z"), ("employees", "x2")],
            keep: Keep::Equal(("x2", "dept"), ("z", "x1.name")),
        }],
        rows: [
            "1 Alex 1 ;1 Bert 2 ;4 Erik 3 ;",
            "1 Alex 1 ;1 Bert 2 ;4 Erik 3 ;",
            "1 Bert 2 ;1 Alex 1 ;4 Erik 3 ;",
        ],
    },
    // The tasks, each with the number of its employee in the list of a WITH query.
    Row {
        with: Some((
            "q.1",
            Chosen {
                items: &[
                    ("x2.name", Value::Column(("x2", "name"))),
                    ("n", Value::Number(EMPLOYEE_KEYS)),
                ],
                from: &[("departments", "x1"), ("employees", "x2")],
                keep: Keep::Equal(("x2", "dept"), ("x1", "name")),
            },
        )),
        main: &[Chosen {
            items: &[
                ("ot", Value::Int(2)),
                ("on", Value::Column(("z", "n"))),
                ("c1", Value::Column(("x3", "task"))),
            ],
            from: &[("q.1", "z"), ("tasks", "x3")],
            keep: Keep::Equal(("x3", "employee"), ("z", "x2.name")),
        }],
        rows: [
            "2 1 build ;2 2 build ;2 3 call ;2 3 enthuse ;",
            "2 1 build ;2 2 build ;2 3 call ;2 3 enthuse ;",
            "2 1 build ;2 2 build ;2 3 enthuse ;2 3 call ;",
        ],
    },
    // A numbering without sources has one row, and both SELECTs of a union give theirs.
    Row {
        with: Some((
            "q.1",
            Chosen {
                items: &[("n", Value::Number(&[]))],
                from: &[],
                keep: Keep::All,
            },
        )),
        main: &[ONE_OF_Z, ONE_OF_Z],
        rows: ["1 1 1 ;1 1 1 ;", "1 1 1 ;1 1 1 ;", "1 1 1 ;1 1 1 ;"],
    },
    // Both texts of an empty bag of records that hold a bag: a SELECT without sources that keeps nothing.
    Row {
        with: None,
        main: &[Chosen {
            items: &[
                ("ot", Value::Int(0)),
                ("on", Value::Int(0)),
                ("c1", Value::Int(0)),
                ("c2", Value::Int(0)),
                ("c3", Value::Int(0)),
            ],
            from: &[],
            keep: Keep::None,
        }],
        rows: ["", "", ""],
    },
    Row {
        with: None,
        main: &[Chosen {
            items: &[
                ("ot", Value::Int(0)),
                ("on", Value::Int(0)),
                ("c1", Value::Text("")),
            ],
            from: &[],
            keep: Keep::None,
        }],
        rows: ["", "", ""],
    },
    // Each department with the number of its employees and the sum of what they earn.
    Row {
        with: None,
        main: &[Chosen {
            items: &[
                ("d", Value::Column(("d", "name"))),
                ("n", Value::Count(STAFF)),
                ("s", Value::Sum(("e", "salary"), STAFF)),
            ],
            from: &[("departments", "d")],
            keep: Keep::All,
        }],
        rows: [
            "Product 2 20900 ;Quality 0 0 ;Research 0 0 ;Sales 1 2000000 ;",
            "Product 2 20900 ;Quality 0 0 ;Research 0 0 ;Sales 1 2000000 ;",
            "Sales 1 2000000 ;Research 0 0 ;Quality 0 0 ;Product 2 20900 ;",
        ],
    },
    // The departments with more than one employee.
    Row {
        with: None,
        main: &[Chosen {
            items: &[("d", Value::Column(("d", "name")))],
            from: &[("departments", "d")],
            keep: Keep::MoreThan(1, STAFF),
        }],
        rows: ["Product ;", "Product ;", "Product ;"],
    },
    // All pairs of two tables, the one combination of no tables, and three numbers of 2^63 - 1, whose sum wraps.
    Row {
        with: None,
        main: &[Chosen {
            items: &[
                (
                    "a",
                    Value::Count(Over {
                        from: &[("employees", "e"), ("tasks", "t")],
                        equal: None,
                    }),
                ),
                (
                    "b",
                    Value::Count(Over {
                        from: &[],
                        equal: None,
                    }),
                ),
                (
                    "c",
                    Value::SumOf(
                        9223372036854775807,
                        Over {
                            from: &[("employees", "e")],
                            equal: None,
                        },
                    ),
                ),
            ],
            from: &[],
            keep: Keep::All,
        }],
        rows: [
            "12 1 9223372036854775805 ;",
            "12 1 9223372036854775805 ;",
            "12 1 9223372036854775805 ;",
        ],
    },
    // The innermost alias counts.
    Row {
        with: None,
        main: &[Chosen {
            items: &[(
                "s",
                Value::Sum(
                    ("x", "salary"),
                    Over {
                        from: &[("employees", "x")],
                        equal: None,
                    },
                ),
            )],
            from: &[("t", "x")],
            keep: Keep::All,
        }],
        rows: [
            "2020900 ;2020900 ;",
            "2020900 ;2020900 ;",
            "2020900 ;2020900 ;",
        ],
    },
    // A column of the row around is summed once for each of the four tasks.
    Row {
        with: None,
        main: &[Chosen {
            items: &[(
                "s",
                Value::Sum(
                    ("x", "a"),
                    Over {
                        from: &[("tasks", "t")],
                        equal: None,
                    },
                ),
            )],
            from: &[("t", "x")],
            keep: Keep::All,
        }],
        rows: ["20 ;24 ;", "20 ;24 ;", "24 ;20 ;"],
    },
    // The sum of the counts of a WITH query.
    Row {
        with: Some((
            "w",
            Chosen {
                items: &[(
                    "k",
                    Value::Count(Over {
                        from: &[("tasks", "t")],
                        equal: Some((("t", "employee"), ("e", "name"))),
                    }),
                )],
                from: &[("employees", "e")],
                keep: Keep::All,
            },
        )),
        main: &[Chosen {
            items: &[(
                "s",
                Value::Sum(
                    ("w", "k"),
                    Over {
                        from: &[("w", "w")],
                        equal: None,
                    },
                ),
            )],
            from: &[],
            keep: Keep::All,
        }],
        rows: ["4 ;", "4 ;", "4 ;"],
    },
];

// The rows, each with a semicolon behind it.
fn shown(alloc: Global, rows: &[List<Cell>]) -> Result<String, Memory> {
    let mut text = String::new(alloc);
    for row in rows {
        text.push_str(line(alloc, row)?.as_str())?;
        text.push_str(";")?;
    }
    Ok(text)
}

// Compares the rows with those of the plain evaluator.
fn check_plain(
    rt: &impl Abort,
    alloc: Global,
    held: &[Loaded],
    text: &SqlText,
    ties: Ties,
    want: &str,
) -> Result<(), Memory> {
    let rows = evaluate_text(alloc, held, text, ties)?;
    assert_eq!(rt; shown(alloc, rows.as_slice())?.as_str(), want);
    Ok(())
}

// Compares the rows with those of the evaluator, for each way to join.
fn check_evaluator(
    rt: &impl Abort,
    alloc: Global,
    held: &[Loaded],
    text: &SqlText,
    arrangement: Arrangement,
    want: &str,
) -> Result<(), Memory> {
    for joining in [
        Joining::NestedLoops,
        Joining::HashTables(DefaultHasher::new()),
    ] {
        let rows = evaluate(alloc, held, text, joining, arrangement)?;
        let list = listed(alloc, &rows)?;
        assert_eq!(rt; shown(alloc, list.as_slice())?.as_str(), want);
    }
    Ok(())
}

#[test]
fn gives(rt: HostRuntime) -> Result<(), Memory> {
    let alloc = rt.alloc();
    let held = organisation(alloc)?;
    let held = held.as_slice();
    for row in &ROWS {
        let text = text_of(alloc, row.with.as_ref(), row.main)?;
        let [arising, tied, reversed] = row.rows;
        check_plain(&rt, alloc, held, &text, Ties::AsTheyArise, arising)?;
        check_plain(&rt, alloc, held, &text, Ties::Reversed, tied)?;
        check_evaluator(&rt, alloc, held, &text, Arrangement::AsTheyArise, arising)?;
        check_evaluator(&rt, alloc, held, &text, Arrangement::Reversed, reversed)?;
    }
    Ok(())
}
