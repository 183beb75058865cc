// What each scope rule of SQL texts asks, with an example that keeps it and one that does not.
ghost use Rattle.std.specs.Prelude.{◌≡◌, ◌≤◌, MatchOption};
ghost use Rattle.diagnostics.specs.ScopeRules.{scope_asks, scope_number, scope_right, scope_wrong};

/// A scope rule of SQL texts, by what it judges.
#[derive(Clone, Copy, Debug, PartialEq, Eq)]
pub enum ScopeRule {
    Source,
    Aliases,
    Alias,
    Column,
    Operands,
    Conditions,
    ItemNames,
    Parts,
    WithNames,
    Summed,
}

/// The rule with a number from 1 to 10.
pub fn scope_rule(number: u64) -> Option<ScopeRule>
    ensures { MatchOption result (1 ≤ number → 11 ≤ number) (λ rule. scope_number rule ≡ number) }
{
    match number {
        1 => Some(ScopeRule::Source),
        2 => Some(ScopeRule::Aliases),
        3 => Some(ScopeRule::Alias),
        4 => Some(ScopeRule::Column),
        5 => Some(ScopeRule::Operands),
        6 => Some(ScopeRule::Conditions),
        7 => Some(ScopeRule::ItemNames),
        8 => Some(ScopeRule::Parts),
        9 => Some(ScopeRule::WithNames),
        10 => Some(ScopeRule::Summed),
        _ => None,
    }
}

impl ScopeRule {
    /// The number of the rule.
    pub fn number(self) -> u64
        ensures { result ≡ scope_number self }
    {
        match self {
            ScopeRule::Source => 1,
            ScopeRule::Aliases => 2,
            ScopeRule::Alias => 3,
            ScopeRule::Column => 4,
            ScopeRule::Operands => 5,
            ScopeRule::Conditions => 6,
            ScopeRule::ItemNames => 7,
            ScopeRule::Parts => 8,
            ScopeRule::WithNames => 9,
            ScopeRule::Summed => 10,
        }
    }

    /// What the rule asks.
    pub fn asks(self) -> &'static str
        ensures { result.now ≡ scope_asks self }
    {
        match self {
            ScopeRule::Source =>
                "A source of FROM is a table of the schema, or an earlier WITH query.",
            ScopeRule::Aliases => "The sources of one FROM have different aliases.",
            ScopeRule::Alias =>
                "The alias before a column is that of a source here, or in a SELECT around this one.",
            ScopeRule::Column => "The source has the column: is its name misspelt?",
            ScopeRule::Operands =>
                "+ - * take ints, AND OR NOT truth values, and a comparison two values of one type.",
            ScopeRule::Conditions =>
                "WHERE and the test of CASE are truth values, and the arms of CASE have one type.",
            ScopeRule::ItemNames => "The items of one SELECT have different names.",
            ScopeRule::Parts =>
                "The SELECTs of a UNION ALL have as many items, of the same types in order.",
            ScopeRule::WithNames =>
                "The WITH queries have different names, and none has the name of a table.",
            ScopeRule::Summed => "What SUM adds up is an int.",
        }
    }

    /// An SQL text that keeps the rule.
    pub fn right(self) -> &'static str
        ensures { result.now ≡ scope_right self }
    {
        match self {
            ScopeRule::Source => "SELECT \"d\".\"name\" AS \"n\" FROM \"departments\" AS \"d\"",
            ScopeRule::Aliases => "SELECT 1 AS \"n\" FROM \"tasks\" AS \"a\", \"tasks\" AS \"b\"",
            ScopeRule::Alias => "SELECT \"d\".\"name\" AS \"n\" FROM \"departments\" AS \"d\"",
            ScopeRule::Column => "SELECT \"d\".\"name\" AS \"n\" FROM \"departments\" AS \"d\"",
            ScopeRule::Operands => "SELECT 1 + 2 AS \"n\"",
            ScopeRule::Conditions => "SELECT 1 AS \"n\" WHERE 1 < 2",
            ScopeRule::ItemNames => "SELECT 1 AS \"m\", 2 AS \"n\"",
            ScopeRule::Parts => "SELECT 1 AS \"n\" UNION ALL SELECT 2 AS \"n\"",
            ScopeRule::WithNames =>
                "WITH \"q\" AS (SELECT 1 AS \"n\") SELECT \"q\".\"n\" AS \"n\" FROM \"q\" AS \"q\"",
            ScopeRule::Summed =>
                "SELECT (SELECT COALESCE(SUM(\"e\".\"salary\"), 0) FROM \"employees\" AS \"e\") AS \"n\"",
        }
    }

    /// An SQL text that breaks the rule and no other.
    pub fn wrong(self) -> &'static str
        ensures { result.now ≡ scope_wrong self }
    {
        match self {
            ScopeRule::Source => "SELECT 1 AS \"n\" FROM \"nobody\" AS \"d\"",
            ScopeRule::Aliases => "SELECT 1 AS \"n\" FROM \"tasks\" AS \"a\", \"tasks\" AS \"a\"",
            ScopeRule::Alias => "SELECT \"e\".\"name\" AS \"n\" FROM \"departments\" AS \"d\"",
            ScopeRule::Column => "SELECT \"d\".\"nam\" AS \"n\" FROM \"departments\" AS \"d\"",
            ScopeRule::Operands => "SELECT 1 + TRUE AS \"n\"",
            ScopeRule::Conditions => "SELECT 1 AS \"n\" WHERE 1",
            ScopeRule::ItemNames => "SELECT 1 AS \"n\", 2 AS \"n\"",
            ScopeRule::Parts => "SELECT 1 AS \"n\" UNION ALL SELECT '2' AS \"n\"",
            ScopeRule::WithNames => "WITH \"tasks\" AS (SELECT 1 AS \"n\") SELECT 2 AS \"n\"",
            ScopeRule::Summed =>
                "SELECT (SELECT COALESCE(SUM(\"e\".\"name\"), 0) FROM \"employees\" AS \"e\") AS \"n\"",
        }
    }
}
