// The rows of flattened let forms, worked out by hand: those of a query of branches with their employees, and of these
// with their tasks and one task more. A branch that stands twice, and its employees, have ties.
use crate::forms::{Form, Held, Named, Over, Part, chained_ones, made, nested_ones, one_row};
use crate::held::{organisation, schema};
use crate::told::{line, listed};
use flatten::flatten;
use nq_ir::Base;
use nq_model::{Cell, ColumnType, List, Memory};
use reference_sql::{Ties, evaluate_text};
use sql_eval::{Arrangement, Joining, evaluate};
use std::alloc::Global;
use std::hash::DefaultHasher;
use std::process::Abort;

// A let form, the columns of its answer, and the rows that it allows, in byte order: a text for each way to number ties
// that tells.
struct Case {
    form: Form,
    columns: &'static [ColumnType],
    allowed: &'static [&'static str],
}

const INT: ColumnType = ColumnType::Int;

const TEXT: ColumnType = ColumnType::Text;

const STAFF: (Named, Named) = ((2, "dept"), (1, "dept"));

const WORK: (Named, Named) = ((3, "employee"), (2, "name"));

const CASES: [Case; 3] = [
    // Sales stands twice, with the numbers 2 and 3: the rows are the same either way.
    Case {
        form: Form {
            path: &[],
            records: &[("dept", "employees"), ("name", "tasks")],
            lets: &[],
            parts: &[Part {
                from: 0,
                tag: 1,
                over: Over {
                    gens: &[(1, "branches")],
                    equal: &[],
                },
                held: Held::WithBag("dept", (1, "dept"), "employees"),
            }],
        },
        columns: &[INT, INT, TEXT, INT, INT],
        allowed: &["0 1 Product 1 1 ;0 1 Sales 1 2 ;0 1 Sales 1 3 ;"],
    },
    // Erik stands under each Sales, with the numbers 3 and 4 in either order.
    Case {
        form: Form {
            path: &["employees"],
            records: &[("name", "tasks")],
            lets: &[(
                1,
                Over {
                    gens: &[(1, "branches")],
                    equal: &[],
                },
            )],
            parts: &[Part {
                from: 1,
                tag: 2,
                over: Over {
                    gens: &[(2, "employees")],
                    equal: &[STAFF],
                },
                held: Held::WithBag("name", (2, "name"), "tasks"),
            }],
        },
        columns: &[INT, INT, TEXT, INT, INT],
        allowed: &[
            "1 1 Alex 2 1 ;1 1 Bert 2 2 ;1 2 Erik 2 3 ;1 3 Erik 2 4 ;",
            "1 1 Alex 2 1 ;1 1 Bert 2 2 ;1 2 Erik 2 4 ;1 3 Erik 2 3 ;",
        ],
    },
    // Each Erik has his tasks, whichever number he has.
    Case {
        form: Form {
            path: &["employees", "tasks"],
            records: &[],
            lets: &[(
                2,
                Over {
                    gens: &[(1, "branches"), (2, "employees")],
                    equal: &[STAFF],
                },
            )],
            parts: &[
                Part {
                    from: 1,
                    tag: 3,
                    over: Over {
                        gens: &[(3, "tasks")],
                        equal: &[WORK],
                    },
                    held: Held::Column((3, "task")),
                },
                Part {
                    from: 1,
                    tag: 4,
                    over: Over {
                        gens: &[],
                        equal: &[],
                    },
                    held: Held::Word("rest"),
                },
            ],
        },
        columns: &[INT, INT, TEXT],
        allowed: &[
            "2 1 build ;2 1 rest ;2 2 build ;2 2 rest ;2 3 call ;2 3 enthuse ;2 3 rest ;2 4 call ;2 4 enthuse ;2 4 rest ;",
        ],
    },
];

// The rows in byte order, each with a semicolon behind it.
fn in_order(alloc: Global, rows: &[List<Cell>]) -> Result<String, Memory> {
    let mut lines = Vec::new(alloc);
    for row in rows {
        lines.push(line(alloc, row)?)?;
    }
    lines.sort()?;
    let mut text = String::new(alloc);
    for line in &lines {
        text.push_str(line.as_str())?;
        text.push_str(";")?;
    }
    Ok(text)
}

// Whether these rows are allowed.
fn allows(alloc: Global, case: &Case, rows: &[List<Cell>]) -> Result<bool, Memory> {
    let found = in_order(alloc, rows)?;
    for allowed in case.allowed {
        if found.as_str() == *allowed {
            return Ok(true);
        }
    }
    Ok(false)
}

#[test]
fn flattened_forms_give_what_they_allow(rt: HostRuntime) -> Result<(), Memory> {
    let alloc = rt.alloc();
    let schema = schema(alloc)?;
    let held = organisation(alloc)?;
    for case in &CASES {
        let text = flatten(alloc, &schema, &made(alloc, &case.form)?, case.columns)?;
        for ties in &[Ties::AsTheyArise, Ties::Reversed] {
            let rows = evaluate_text(alloc, held.as_slice(), &text, *ties)?;
            let good = allows(alloc, case, rows.as_slice())?;
            assert!(&rt; good);
        }
        for arrangement in &[Arrangement::AsTheyArise, Arrangement::Reversed] {
            for joining in [
                Joining::NestedLoops,
                Joining::HashTables(DefaultHasher::new()),
            ] {
                let rows = evaluate(alloc, held.as_slice(), &text, joining, *arrangement)?;
                let good = allows(alloc, case, listed(alloc, &rows)?.as_slice())?;
                assert!(&rt; good);
            }
        }
    }
    Ok(())
}

// The rows of the text of a form that holds one number, by each of the two evaluators.
fn rows_of_number(alloc: Global, number: Base) -> Result<(String, String), Memory> {
    let schema = schema(alloc)?;
    let form = one_row(alloc, number, 3000)?;
    let text = flatten(alloc, &schema, &form, &[INT, INT, INT])?;
    let slow = evaluate_text(alloc, &[], &text, Ties::AsTheyArise)?;
    let fast = evaluate(
        alloc,
        &[],
        &text,
        Joining::HashTables(DefaultHasher::new()),
        Arrangement::AsTheyArise,
    )?;
    let fast = listed(alloc, &fast)?;
    Ok((
        in_order(alloc, slow.as_slice())?,
        in_order(alloc, fast.as_slice())?,
    ))
}

#[test]
fn long_operations_are_flattened(rt: HostRuntime) -> Result<(), Memory> {
    let alloc = rt.alloc();
    let (slow, fast) = rows_of_number(alloc, nested_ones(alloc, 3000)?)?;
    assert_eq!(&rt; slow.as_str(), "0 1 3000 ;");
    assert_eq!(&rt; fast.as_str(), "0 1 3000 ;");
    let (slow, fast) = rows_of_number(alloc, chained_ones(alloc, 3025)?)?;
    assert_eq!(&rt; slow.as_str(), "0 1 3025 ;");
    assert_eq!(&rt; fast.as_str(), "0 1 3025 ;");
    Ok(())
}
