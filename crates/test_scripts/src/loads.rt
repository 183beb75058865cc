// Schemas with the scripts that make and fill their tables, written by hand.
use database_scripts::{Database, load_script};
use nq_model::{List, Memory};
use schema_reader::read_schema;
use std::alloc::Global;
use std::process::Abort;
use std::test::Fail;

// A schema, and what psql and sqlite3 are told, without the beginning and the end of the script.
const CASES: [(&str, &str, &str); 5] = [
    ("", "", ""),
    (
        "table departments (name: text, key (name));",
        r#"CREATE TABLE "departments" (
  "name" text COLLATE "C" NOT NULL,
  PRIMARY KEY ("name")
);
\copy "departments" ("name") FROM 'departments.csv' WITH (FORMAT csv, HEADER true)
"#,
        r#"CREATE TABLE "departments" (
  "name" TEXT NOT NULL CHECK (typeof("name") = 'text'),
  PRIMARY KEY ("name")
);
CREATE TABLE "cells of csv" ("name" TEXT);
.import --csv --skip 1 departments.csv "cells of csv"
INSERT INTO "departments" ("name") SELECT NULLIF("name", '') FROM "cells of csv";
DROP TABLE "cells of csv";
"#,
    ),
    (
        "table contacts (dept: text, name: text, client: bool);",
        r#"CREATE TABLE "contacts" (
  "dept" text COLLATE "C" NOT NULL,
  "name" text COLLATE "C" NOT NULL,
  "client" boolean NOT NULL
);
\copy "contacts" ("dept", "name", "client") FROM 'contacts.csv' WITH (FORMAT csv, HEADER true, FORCE_NOT_NULL ("dept", "name"))
"#,
        r#"CREATE TABLE "contacts" (
  "dept" TEXT NOT NULL CHECK (typeof("dept") = 'text'),
  "name" TEXT NOT NULL CHECK (typeof("name") = 'text'),
  "client" INT NOT NULL CHECK ("client" IN (0, 1))
);
CREATE TABLE "cells of csv" ("dept" TEXT, "name" TEXT, "client" TEXT);
.import --csv --skip 1 contacts.csv "cells of csv"
INSERT INTO "contacts" ("dept", "name", "client") SELECT "dept", "name", CASE "client" WHEN 'true' THEN 1 WHEN 't' THEN 1 WHEN 'false' THEN 0 WHEN 'f' THEN 0 END FROM "cells of csv";
DROP TABLE "cells of csv";
"#,
    ),
    (
        "table order (on: bool, left: int, key (left, on));",
        r#"CREATE TABLE "order" (
  "on" boolean NOT NULL,
  "left" bigint NOT NULL,
  PRIMARY KEY ("left", "on")
);
\copy "order" ("on", "left") FROM 'order.csv' WITH (FORMAT csv, HEADER true)
"#,
        r#"CREATE TABLE "order" (
  "on" INT NOT NULL CHECK ("on" IN (0, 1)),
  "left" INT NOT NULL CHECK (typeof("left") = 'integer'),
  PRIMARY KEY ("left", "on")
);
CREATE TABLE "cells of csv" ("on" TEXT, "left" TEXT);
.import --csv --skip 1 order.csv "cells of csv"
INSERT INTO "order" ("on", "left") SELECT CASE "on" WHEN 'true' THEN 1 WHEN 't' THEN 1 WHEN 'false' THEN 0 WHEN 'f' THEN 0 END, "left" FROM "cells of csv";
DROP TABLE "cells of csv";
"#,
    ),
    (
        "table a (n: int); table b (t: text, n: int);",
        r#"CREATE TABLE "a" (
  "n" bigint NOT NULL
);
\copy "a" ("n") FROM 'a.csv' WITH (FORMAT csv, HEADER true)
CREATE TABLE "b" (
  "t" text COLLATE "C" NOT NULL,
  "n" bigint NOT NULL
);
\copy "b" ("t", "n") FROM 'b.csv' WITH (FORMAT csv, HEADER true, FORCE_NOT_NULL ("t"))
"#,
        r#"CREATE TABLE "a" (
  "n" INT NOT NULL CHECK (typeof("n") = 'integer')
);
CREATE TABLE "cells of csv" ("n" TEXT);
.import --csv --skip 1 a.csv "cells of csv"
INSERT INTO "a" ("n") SELECT "n" FROM "cells of csv";
DROP TABLE "cells of csv";
CREATE TABLE "b" (
  "t" TEXT NOT NULL CHECK (typeof("t") = 'text'),
  "n" INT NOT NULL CHECK (typeof("n") = 'integer')
);
CREATE TABLE "cells of csv" ("t" TEXT, "n" TEXT);
.import --csv --skip 1 b.csv "cells of csv"
INSERT INTO "b" ("t", "n") SELECT "t", "n" FROM "cells of csv";
DROP TABLE "cells of csv";
"#,
    ),
];

// The script for the schema that a text spells.
fn script_for(alloc: Global, database: Database, schema: &str) -> Result<List<u8>, Memory> {
    match read_schema(alloc, schema.as_bytes()) {
        Ok(schema) => load_script(alloc, database, &schema),
        Err(_) => Err(Memory),
    }
}

#[test]
fn tables_are_made_and_filled(rt: HostRuntime) -> Result<(), Fail> {
    let alloc = rt.alloc();
    for (schema, postgres, sqlite) in &CASES {
        let psql = format!(in alloc;
            "\\set ON_ERROR_STOP on\n\\encoding UTF8\nBEGIN;\n{postgres}COMMIT;\n"
        )?;
        let script = script_for(alloc, Database::Postgres, schema)?;
        assert!(rt; script.as_slice() == psql.as_bytes(), "psql: {schema}");
        let sqlite3 = format!(in alloc; ".bail on\nBEGIN;\n{sqlite}COMMIT;\n")?;
        let script = script_for(alloc, Database::Sqlite, schema)?;
        assert!(rt;
            script.as_slice() == sqlite3.as_bytes(),
            "sqlite3: {schema}"
        );
    }
    Ok(())
}
