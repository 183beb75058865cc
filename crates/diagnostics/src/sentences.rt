// What is said of each fault of a schema, a query and an SQL text.
ghost use Rattle.std.specs.Prelude.{◌≡◌};
ghost use Rattle.diagnostics.specs.Sentences.{query_sentence, schema_sentence, sql_sentence};

/// Why a text is refused as a schema, without the place.
#[derive(Clone, Copy, Debug, PartialEq, Eq)]
pub enum SchemaFaultKind {
    /// The text is not UTF-8.
    NotUtf8,
    /// No token begins, or no schema goes on like this.
    Syntax,
    /// A table has the name of an earlier one.
    TwiceTable,
    /// A column has the name of an earlier one of its table.
    TwiceColumn,
    /// A table has no column.
    NoColumn,
    /// A word of a key is no column, or stands in the key twice.
    KeyColumn,
    /// The 65th table or column, or a name of more than 64 bytes.
    OverLimit,
}

/// Why a text is refused as a query, without the place.
#[derive(Clone, Copy, Debug, PartialEq, Eq)]
pub enum QueryFaultKind {
    /// The text is not UTF-8.
    NotUtf8,
    /// No token begins, a literal is not closed, or a word has more than 64 bytes.
    Token,
    /// A number is too large.
    IntRange,
    /// No query goes on like this.
    Unexpected,
    /// Only deeper queries go on like this.
    Deep,
    /// A variable has no binder.
    Unbound,
    /// A label is earlier in the same record or record type.
    TwiceLabel,
}

/// Why a text is refused as an SQL text, without the place.
#[derive(Clone, Copy, Debug, PartialEq, Eq)]
pub enum SqlFaultKind {
    /// The text is not UTF-8.
    NotUtf8,
    /// No token begins.
    Token,
    /// A number is too large.
    IntRange,
    /// No SQL text goes on like this.
    Unexpected,
    /// Only deeper texts go on like this.
    Deep,
}

/// What is said of a fault of a schema.
pub fn schema_sentence(kind: SchemaFaultKind) -> &'static str
    ensures { result.now ≡ schema_sentence kind }
{
    match kind {
        SchemaFaultKind::NotUtf8 => "The text is not UTF-8 here. Save the file as UTF-8.",
        SchemaFaultKind::Syntax =>
            "No schema goes on like this. A table is: table t (c: int, d: text, key (c));",
        SchemaFaultKind::TwiceTable =>
            "An earlier table has this name. Each table needs a name of its own.",
        SchemaFaultKind::TwiceColumn =>
            "An earlier column of this table has this name. Each column needs a name of its own.",
        SchemaFaultKind::NoColumn =>
            "This table has no column. It needs at least one: table t (c: int);",
        SchemaFaultKind::KeyColumn =>
            "A key lists columns of its table, each of them once. Is this word misspelt?",
        SchemaFaultKind::OverLimit =>
            "There may be 64 tables, 64 columns in each, and 64 bytes in a name.",
    }
}

/// What is said of a fault of a query.
pub fn query_sentence(kind: QueryFaultKind) -> &'static str
    ensures { result.now ≡ query_sentence kind }
{
    match kind {
        QueryFaultKind::NotUtf8 => "The text is not UTF-8 here. Save the file as UTF-8.",
        QueryFaultKind::Token =>
            "Nothing begins like this: texts are in single quotes, words of at most 64 bytes.",
        QueryFaultKind::IntRange => "This number is too large. The largest is 9223372036854775807.",
        QueryFaultKind::Unexpected => "No query goes on like this.",
        QueryFaultKind::Deep => "This goes too deep. A query may be 200 levels deep.",
        QueryFaultKind::Unbound =>
            "No variable has this name. If you mean a table, write table before it.",
        QueryFaultKind::TwiceLabel =>
            "The record has this label already. Each field needs a label of its own.",
    }
}

/// What is said of a fault of an SQL text.
pub fn sql_sentence(kind: SqlFaultKind) -> &'static str
    ensures { result.now ≡ sql_sentence kind }
{
    match kind {
        SqlFaultKind::NotUtf8 => "The text is not UTF-8 here. Save the file as UTF-8.",
        SqlFaultKind::Token =>
            "Nothing begins like this: names are in double quotes, texts in single quotes.",
        SqlFaultKind::IntRange => "This number is too large. The largest is 9223372036854775807.",
        SqlFaultKind::Unexpected => "No SQL text that nq takes goes on like this.",
        SqlFaultKind::Deep => "This goes too deep. An SQL text may be 200 levels deep.",
    }
}
