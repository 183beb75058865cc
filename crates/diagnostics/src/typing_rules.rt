// What each typing rule of queries asks, with an example that keeps it and one that does not.
ghost use Rattle.std.specs.Prelude.{◌≡◌, ◌≤◌, MatchOption, option_copied};
ghost use Rattle.diagnostics.specs.TypingRules.{typing_asks, typing_number, typing_right, typing_wrong};

/// A typing rule of queries, by what it judges.
#[derive(Clone, Copy, Debug, PartialEq, Eq)]
pub enum TypingRule {
    Variable,
    Number,
    Truth,
    Literal,
    Table,
    Minus,
    Not,
    Arithmetic,
    Comparison,
    Connective,
    Choice,
    Function,
    Application,
    Record,
    Field,
    Emptiness,
    Single,
    EmptyBag,
    Union,
    Comprehension,
    Guard,
    Let,
    Whole,
    Count,
    Sum,
}

/// The rule with a number from 1 to 25.
pub fn typing_rule(number: u64) -> Option<TypingRule>
    ensures { MatchOption result (1 ≤ number → 26 ≤ number) (λ rule. typing_number rule ≡ number) }
{
    match number {
        1 => Some(TypingRule::Variable),
        2 => Some(TypingRule::Number),
        3 => Some(TypingRule::Truth),
        4 => Some(TypingRule::Literal),
        5 => Some(TypingRule::Table),
        6 => Some(TypingRule::Minus),
        7 => Some(TypingRule::Not),
        8 => Some(TypingRule::Arithmetic),
        9 => Some(TypingRule::Comparison),
        10 => Some(TypingRule::Connective),
        11 => Some(TypingRule::Choice),
        12 => Some(TypingRule::Function),
        13 => Some(TypingRule::Application),
        14 => Some(TypingRule::Record),
        15 => Some(TypingRule::Field),
        16 => Some(TypingRule::Emptiness),
        17 => Some(TypingRule::Single),
        18 => Some(TypingRule::EmptyBag),
        19 => Some(TypingRule::Union),
        20 => Some(TypingRule::Comprehension),
        21 => Some(TypingRule::Guard),
        22 => Some(TypingRule::Let),
        23 => Some(TypingRule::Whole),
        24 => Some(TypingRule::Count),
        25 => Some(TypingRule::Sum),
        _ => None,
    }
}

impl TypingRule {
    /// The number of the rule.
    pub fn number(self) -> u64
        ensures { result ≡ typing_number self }
    {
        match self {
            TypingRule::Variable => 1,
            TypingRule::Number => 2,
            TypingRule::Truth => 3,
            TypingRule::Literal => 4,
            TypingRule::Table => 5,
            TypingRule::Minus => 6,
            TypingRule::Not => 7,
            TypingRule::Arithmetic => 8,
            TypingRule::Comparison => 9,
            TypingRule::Connective => 10,
            TypingRule::Choice => 11,
            TypingRule::Function => 12,
            TypingRule::Application => 13,
            TypingRule::Record => 14,
            TypingRule::Field => 15,
            TypingRule::Emptiness => 16,
            TypingRule::Single => 17,
            TypingRule::EmptyBag => 18,
            TypingRule::Union => 19,
            TypingRule::Comprehension => 20,
            TypingRule::Guard => 21,
            TypingRule::Let => 22,
            TypingRule::Whole => 23,
            TypingRule::Count => 24,
            TypingRule::Sum => 25,
        }
    }

    /// What the rule asks.
    pub fn asks(self) -> &'static str
        ensures { result.now ≡ typing_asks self }
    {
        match self {
            TypingRule::Variable => "A variable has the type of what it is bound to.",
            TypingRule::Number => "A number is an int.",
            TypingRule::Truth => "The words true and false are bools.",
            TypingRule::Literal => "What stands in single quotes is a text.",
            TypingRule::Table =>
                "The schema must have the table: is the name misspelt, or the schema another one?",
            TypingRule::Minus => "Behind a minus stands an int.",
            TypingRule::Not =>
                "Behind ! stands a bool. Put a comparison in parentheses: !(a == b).",
            TypingRule::Arithmetic => "Both sides of +, - and * are ints. Texts cannot be joined.",
            TypingRule::Comparison =>
                "You compare two ints, two bools or two texts. Of rows, compare the columns.",
            TypingRule::Connective =>
                "Both sides of && and || are bools: x == 'a' || x == 'b', not x == 'a' || 'b'.",
            TypingRule::Choice =>
                "The test of if is a bool, and the values behind then and else have one type.",
            TypingRule::Function => "In the type of a parameter, a bag has no function in it.",
            TypingRule::Application =>
                "Before (..) stands a function, and in it a value of the type that it takes.",
            TypingRule::Record => "The fields of a record may have any types.",
            TypingRule::Field =>
                "Before the dot stands a record that has the field. Take it of a row, not of a table.",
            TypingRule::Emptiness =>
                "In empty(..) stands a bag, as a table or a for. A row or a condition is none.",
            TypingRule::Single =>
                "There is no function in a bag. Does a function lack its last argument?",
            TypingRule::EmptyBag => "There is no function in the type T of an empty bag [: T].",
            TypingRule::Union =>
                "Both sides of ++ are bags of one type: elements in [..], rows with the same fields.",
            TypingRule::Comprehension =>
                "A for goes over a bag, and its body is a bag: put the element into [..].",
            TypingRule::Guard =>
                "The condition of where is a bool, and its body is a bag: put the element into [..].",
            TypingRule::Let => "A let may name a value of any type.",
            TypingRule::Whole =>
                "The whole query is a bag: put a value into [..], or give a function its argument.",
            TypingRule::Count =>
                "In count(..) stands a bag, as a table or a for. A row or a column is none.",
            TypingRule::Sum =>
                "In sum(..) stands a bag of ints: for (r <- table t) [r.c] is that of a column c.",
        }
    }

    /// A query that keeps the rule.
    pub fn right(self) -> &'static str
        ensures { result.now ≡ typing_right self }
    {
        match self {
            TypingRule::Variable => "let x = [1]; x",
            TypingRule::Number => "[1]",
            TypingRule::Truth => "[true]",
            TypingRule::Literal => "['a']",
            TypingRule::Table => "table employees",
            TypingRule::Minus => "[-1]",
            TypingRule::Not => "[!(1 == 2)]",
            TypingRule::Arithmetic => "[1 + 2]",
            TypingRule::Comparison => "['a' == 'b']",
            TypingRule::Connective => "[1 == 2 || 1 == 3]",
            TypingRule::Choice => "[if 1 < 2 then 'yes' else 'no']",
            TypingRule::Function => "[(fun (x: int) -> x)(1)]",
            TypingRule::Application => "[(fun (x: int) -> x + 1)(3)]",
            TypingRule::Record => "[(a = 1, b = ['b'])]",
            TypingRule::Field => "for (e <- table employees) [e.name]",
            TypingRule::Emptiness => "[empty(table employees)]",
            TypingRule::Single => "[(fun (x: int) -> x)(1)]",
            TypingRule::EmptyBag => "[: int]",
            TypingRule::Union => "[1] ++ [2]",
            TypingRule::Comprehension => "for (e <- table employees) [e.name]",
            TypingRule::Guard => "where (1 < 2) ['a']",
            TypingRule::Let => "let x = 1; [x]",
            TypingRule::Whole => "[1 + 1]",
            TypingRule::Count => "nq 2; [count(table tasks)]",
            TypingRule::Sum => "nq 2; [sum(for (e <- table employees) [e.salary])]",
        }
    }

    /// A query that breaks the rule and no other. Some rules ask nothing that a query which is read
    /// can break.
    pub fn wrong(self) -> Option<&'static str>
        ensures { option_copied result ≡ typing_wrong self }
    {
        match self {
            TypingRule::Variable => None,
            TypingRule::Number => None,
            TypingRule::Truth => None,
            TypingRule::Literal => None,
            TypingRule::Table => Some("table employes"),
            TypingRule::Minus => Some("[-'1']"),
            TypingRule::Not => Some("[!1 == 2]"),
            TypingRule::Arithmetic => Some("['a' + 'b']"),
            TypingRule::Comparison => Some("['1' == 1]"),
            TypingRule::Connective => Some("[1 == 2 || 3]"),
            TypingRule::Choice => Some("[if 1 < 2 then 'yes' else 0]"),
            TypingRule::Function => Some("[(fun (x: [int -> int]) -> 1)([: int])]"),
            TypingRule::Application => Some("[(fun (x: int) -> x + 1)('3')]"),
            TypingRule::Record => None,
            TypingRule::Field => Some("[(table employees).name]"),
            TypingRule::Emptiness => Some("[empty(1 == 2)]"),
            TypingRule::Single => Some("[fun (x: int) -> x]"),
            TypingRule::EmptyBag => Some("[: int -> int]"),
            TypingRule::Union => Some("[1] ++ 2"),
            TypingRule::Comprehension => Some("for (e <- table employees) e.name"),
            TypingRule::Guard => Some("where (1 < 2) 'a'"),
            TypingRule::Let => None,
            TypingRule::Whole => Some("1 + 1"),
            TypingRule::Count => Some("nq 2; for (t <- table tasks) [count(t.task)]"),
            TypingRule::Sum => Some("nq 2; [sum(table employees)]"),
        }
    }
}
