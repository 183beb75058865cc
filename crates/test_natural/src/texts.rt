// Queries with their natural texts, worked out by hand.
use crate::schemas::{HALF, KEYED, KEYLESS, LAST_KEYLESS, ORDERS, PARENTS, TWO_TEXTS};
use crate::shown::shown;
use nq_model::Memory;

// The employees of each department.
const STAFF: &str = "for (d <- table departments) [(d = d.name,
    es = for (e <- table employees) where (e.dept == d.name) [e.name])]";

// The employees of a department, and a bag without a generator around it.
const UNION: &str = "(for (d <- table departments) where (d.name == 'Sales')
    [(n = 'a', b = for (e <- table employees) where (e.dept == d.name) [e.name])])
    ++ [(n = 'b', b = [: text])]";

// Three levels.
const DEEP: &str = "for (d <- table departments) [(d = d.name,
    es = for (e <- table employees) where (e.dept == d.name) [(n = e.name,
        ts = for (t <- table tasks) where (t.employee == e.name) [t.task])])]";

// The union of parents with different keys.
const TWO_PARENTS: &str = "(for (x <- table a)
        [(k = 'a', ws = for (y <- table c) where (y.i == x.i) [y.w])])
    ++ (for (x <- table b) [(k = 'b', ws = for (y <- table c) where (y.i == x.v) [y.w])])";

// A bag in which no generator stands around the inner bags.
const MORE: &str = "for (x <- table p) for (y <- table q) where (y.d < x.a) [(x = x.b,
    ys = for (z <- table r) where (z.e > y.d) [(e = z.e, more = [x.a] ++ [y.d])])]";

// A key of two columns of one type.
const BOTH: &str =
    "for (t <- table t) [(z = t.z, us = for (u <- table u) where (u.of == t.x) [u.of])]";

// A schema, a query, and its natural texts, or the table that has no key.
const TEXTS: [(&[u8], &str, &str); 9] = [
    (
        KEYED,
        STAFF,
        r#"SELECT 0 AS "ot", "x1"."name" AS "c1", 1 AS "c2", "x1"."name" AS "c3" FROM "departments" AS "x1"
SELECT 1 AS "ot", "x1"."name" AS "kt1", "x2"."name" AS "c1" FROM "departments" AS "x1", "employees" AS "x2" WHERE ("x2"."dept" = "x1"."name")
"#,
    ),
    (
        KEYED,
        UNION,
        r#"SELECT 0 AS "ot", 1 AS "c1", "x1"."name" AS "c2", 'a' AS "c3" FROM "departments" AS "x1" WHERE ("x1"."name" = 'Sales') UNION ALL SELECT 0 AS "ot", 3 AS "c1", '' AS "c2", 'b' AS "c3"
SELECT 1 AS "ot", "x1"."name" AS "kt1", "x2"."name" AS "c1" FROM "departments" AS "x1", "employees" AS "x2" WHERE (("x1"."name" = 'Sales') AND ("x2"."dept" = "x1"."name"))
"#,
    ),
    (KEYLESS, STAFF, "no key: departments"),
    (HALF, DEEP, "no key: employees"),
    // Only the rows of parents are named.
    (
        HALF,
        STAFF,
        r#"SELECT 0 AS "ot", "x1"."name" AS "c1", 1 AS "c2", "x1"."name" AS "c3" FROM "departments" AS "x1"
SELECT 1 AS "ot", "x1"."name" AS "kt1", "x2"."name" AS "c1" FROM "departments" AS "x1", "employees" AS "x2" WHERE ("x2"."dept" = "x1"."name")
"#,
    ),
    // No bag is inside, so that no key is asked for.
    (
        KEYLESS,
        "for (e <- table employees) where (e.salary > 500) [e.name]",
        r#"SELECT 0 AS "ot", "x1"."name" AS "c1" FROM "employees" AS "x1" WHERE ("x1"."salary" > 500)
"#,
    ),
    // The layout is wider than the key of either parent.
    (
        PARENTS,
        TWO_PARENTS,
        r#"SELECT 0 AS "ot", 'a' AS "c1", 1 AS "c2", "x1"."i" AS "c3", FALSE AS "c4", '' AS "c5" FROM "a" AS "x1" UNION ALL SELECT 0 AS "ot", 'b' AS "c1", 3 AS "c2", 0 AS "c3", "x3"."p" AS "c4", "x3"."s" AS "c5" FROM "b" AS "x3"
SELECT 1 AS "ot", "x1"."i" AS "ki1", FALSE AS "kb1", '' AS "kt1", "x2"."w" AS "c1" FROM "a" AS "x1", "c" AS "x2" WHERE ("x2"."i" = "x1"."i") UNION ALL SELECT 3 AS "ot", 0 AS "ki1", "x3"."p" AS "kb1", "x3"."s" AS "kt1", "x4"."w" AS "c1" FROM "b" AS "x3", "c" AS "x4" WHERE ("x4"."i" = "x3"."v")
"#,
    ),
    (LAST_KEYLESS, MORE, "no key: r"),
    // Cells of one type keep the order of the key.
    (
        TWO_TEXTS,
        BOTH,
        r#"SELECT 0 AS "ot", 1 AS "c1", "x1"."y" AS "c2", "x1"."x" AS "c3", "x1"."z" AS "c4" FROM "t" AS "x1"
SELECT 1 AS "ot", "x1"."y" AS "kt1", "x1"."x" AS "kt2", "x2"."of" AS "c1" FROM "t" AS "x1", "u" AS "x2" WHERE ("x2"."of" = "x1"."x")
"#,
    ),
];

// The texts of three levels below two generators, whose first is this.
const FIRST: &str =
    r#"SELECT 0 AS "ot", "x1"."b" AS "c1", 1 AS "c2", "x1"."a" AS "c3", "x2"."d" AS "c4", "x1"."b" AS "c5" FROM "p" AS "x1", "q" AS "x2" WHERE ("x2"."d" < "x1"."a")
"#;

#[test]
fn prints_natural_texts(rt: HostRuntime) -> Result<(), Memory> {
    let alloc = rt.alloc();
    for (schema, query, texts) in &TEXTS {
        assert_eq!(&rt; shown(alloc, schema, query)?.as_str(), *texts);
    }
    Ok(())
}

#[test]
fn keeps_the_order_of_keys(rt: HostRuntime) -> Result<(), Memory> {
    let texts = shown(rt.alloc(), ORDERS, MORE)?;
    assert!(&rt; texts.as_str().starts_with(FIRST));
    Ok(())
}
