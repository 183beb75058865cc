// Forms with what stands at each path, by one call a path and by one for all.
use crate::made::{Form, made};
use crate::told::told;
use let_insert::insert_lets;
use nq_ir::{Normal, Shredded};
use nq_model::Memory;
use shred_terms::{shred, shred_all};
use std::alloc::Global;
use std::test::Fail;

struct Case {
    form: Form,
    lines: &'static [&'static str],
}

const CASES: [Case; 8] = [
    Case {
        form: Form::TwoSides,
        lines: &["/ 0()>1 0()>3 | | 0.1 0.3", "/[].b 1(x1)>2 | 1 | 1.2"],
    },
    Case {
        form: Form::ThreeLevels,
        lines: &[
            "/ 0()>1 | | 0.1",
            "/[].employees 1(x1)>2 | 1 | 1.2",
            "/[].employees[].tasks 2(x1x2)>3 | 2 | 1.3",
        ],
    },
    Case {
        form: Form::Mixed,
        lines: &[
            "/ 0()>1 0()>2 | | 0.1 0.2",
            "/[] 1(x1)>10 2(x2)>20 1(x1)>30 | 1 2 | 1.10 2.20 1.30",
        ],
    },
    Case {
        form: Form::Falling,
        lines: &[
            "/ 0()>2 0()>7 | | 0.2 0.7",
            "/[] 2(x2)>3 7(x7)>8 | 2 7 | 1.3 2.8",
        ],
    },
    Case {
        form: Form::TwoBags,
        lines: &[
            "/ 0()>1 | | 0.1",
            "/[].a 1(x1)>2 | 1 | 1.2",
            "/[].b 1(x1)>3 | 1 | 1.3",
        ],
    },
    Case {
        form: Form::Deep,
        lines: &[
            "/ 0()>1 | | 0.1",
            "/[] 1(x1)>2 | 1 | 1.2",
            "/[][] 2(x1x2)>3 | 2 | 1.3",
        ],
    },
    Case {
        form: Form::Totals,
        lines: &["/ 0()>1 | | 0.1", "/[].b 1(x1)>2 | 1 | 1.2"],
    },
    Case {
        form: Form::Empty,
        lines: &["/ 0()>1 | | 0.1"],
    },
];

fn line(alloc: Global, form: &Shredded) -> Result<String, Memory> {
    let lets = insert_lets(alloc, form)?;
    told(alloc, form, &lets)
}

// Whether both calls give this line at the path of the form.
fn agrees(alloc: Global, normal: &Normal, form: &Shredded, wanted: &str) -> Result<bool, Memory> {
    let alone = shred(alloc, normal, &form.path)?;
    Ok(line(alloc, form)?.as_str() == wanted && line(alloc, &alone)?.as_str() == wanted)
}

#[test]
fn each_path_has_its_strands_and_its_lets(rt: HostRuntime) -> Result<(), Fail> {
    let alloc = rt.alloc();
    for case in &CASES {
        let normal = made(alloc, case.form)?;
        let forms = shred_all(alloc, &normal)?;
        assert!(&rt; forms.len() == case.lines.len());
        for (at, form) in forms.as_slice().iter().enumerate() {
            let wanted = case.lines.get(at).copied().unwrap_or("");
            let good = agrees(alloc, &normal, form, wanted)?;
            assert!(&rt; good);
        }
    }
    Ok(())
}
