// Texts with thousands of sources, items, WITH queries or SELECTs: each is read, judged and printed as it is.
use crate::shown::{schema, shown};
use std::alloc::{AllocError, Global};
use std::process::Abort;
use std::test::Fail;

// A text: its head, so many parts with their numbers between two pieces, and its tail.
struct Wide {
    head: &'static str,
    before: &'static str,
    behind: &'static str,
    tail: &'static str,
}

const PARTS: u32 = 2000;

const TEXTS: [Wide; 4] = [
    Wide {
        head: r#"SELECT "x0"."task" AS "first", "x1999"."task" AS "last" FROM "tasks" AS "x""#,
        before: r#", "tasks" AS "x"#,
        behind: r#"""#,
        tail: "",
    },
    Wide {
        head: r#"SELECT 1 AS "n""#,
        before: r#", 2 AS "n"#,
        behind: r#"""#,
        tail: "",
    },
    Wide {
        head: r#"WITH "q" AS (SELECT 1 AS "n")"#,
        before: r#", "q"#,
        behind: r#"" AS (SELECT 1 AS "n")"#,
        tail: r#" SELECT "x"."n" AS "n" FROM "q1999" AS "x""#,
    },
    Wide {
        head: r#"SELECT 1 AS "n""#,
        before: r#" UNION ALL SELECT "x"."salary" AS "n"#,
        behind: r#"" FROM "employees" AS "x""#,
        tail: "",
    },
];

fn text_of(alloc: Global, wide: &Wide) -> Result<String, AllocError> {
    let mut text = String::from_str(alloc, wide.head)?;
    for number in 0..PARTS {
        write!(text, "{}{number}{}", wide.before, wide.behind)?;
    }
    text.push_str(wide.tail)?;
    Ok(text)
}

#[test]
fn judges_wide_texts(rt: HostRuntime) -> Result<(), Fail> {
    let alloc = rt.alloc();
    let schema = schema(alloc).expect(&rt, "there is memory");
    for wide in &TEXTS {
        let text = text_of(alloc, wide)?;
        let got = shown(alloc, &schema, text.as_str(), text.len() as u64).expect(
            &rt,
            "there is memory",
        );
        assert!(&rt; got.as_str().starts_with(text.as_str()));
    }
    Ok(())
}
