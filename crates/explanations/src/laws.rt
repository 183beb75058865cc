// Laws of the names of expected kinds, on functions that do nothing.
ghost use Rattle.std.specs.Prelude.{ℕ, List};
ghost use Rattle.explanations.specs.Groups.{groups, names};
ghost use Rattle.explanations.specs.Naming.{Names};
ghost use Rattle.explanations.specs.SqlGroups.{sql_groups};
ghost use Rattle.explanations.specs.SqlWords.{sql_kind_words};
ghost use Rattle.explanations.specs.Words.{kind_words};
ghost use Rattle.expected_sql_tokens.specs.declared.kinds.SqlTokenKind.{SqlTokenKind};
ghost use Rattle.expected_tokens.specs.declared.kinds.TokenKind.{TokenKind};

/// All kinds of a group that is named are expected, and each expected kind is in a group that is.
pub fn naming_laws()
    ensures queries { (expected : List (List ℕ))
        → Names TokenKind kind_words groups expected (names groups expected) }
    ensures sql { (expected : List (List ℕ))
        → Names SqlTokenKind sql_kind_words sql_groups expected (names sql_groups expected) }
{}
