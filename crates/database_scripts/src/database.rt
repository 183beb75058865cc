// The databases for which there are scripts.

/// A database, with the program that runs scripts for it.
#[derive(Clone, Copy, Debug, PartialEq, Eq)]
pub enum Database {
    /// PostgreSQL, by psql.
    Postgres,
    /// SQLite, by sqlite3.
    Sqlite,
}
