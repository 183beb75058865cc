// Which kinds of tokens are expected, worked out by hand from the grammar.
use expected_tokens::{TokenKind, expected_kinds};
use query_syntax::tokens;
use std::process::Abort;
use std::test::Fail;

// A text, the depth that it is read at, and the kinds that are expected where it ceases to be open.
const EXPECTED: [(&str, u64, &[TokenKind]); 17] = [
    // A query ends behind a variable.
    (
        "select name from customers",
        200,
        &[
            TokenKind::Union,
            TokenKind::Or,
            TokenKind::And,
            TokenKind::Equal,
            TokenKind::Unequal,
            TokenKind::Less,
            TokenKind::AtMost,
            TokenKind::Greater,
            TokenKind::AtLeast,
            TokenKind::Plus,
            TokenKind::Minus,
            TokenKind::Times,
            TokenKind::Opening,
            TokenKind::Dot,
            TokenKind::End,
        ],
    ),
    ("for c in customers [c.name]", 200, &[TokenKind::Opening]),
    // An empty bag has its type.
    (
        "[]",
        200,
        &[
            TokenKind::For,
            TokenKind::Where,
            TokenKind::If,
            TokenKind::Fun,
            TokenKind::Table,
            TokenKind::Empty,
            TokenKind::True,
            TokenKind::False,
            TokenKind::Name,
            TokenKind::Number,
            TokenKind::Literal,
            TokenKind::Minus,
            TokenKind::Opening,
            TokenKind::OpeningBag,
            TokenKind::Colon,
            TokenKind::Bang,
        ],
    ),
    // Comparisons do not chain.
    (
        "[1 < 2 < 3]",
        200,
        &[
            TokenKind::Union,
            TokenKind::Or,
            TokenKind::And,
            TokenKind::Plus,
            TokenKind::Minus,
            TokenKind::Times,
            TokenKind::Opening,
            TokenKind::ClosingBag,
            TokenKind::Dot,
        ],
    ),
    (
        "if true then 1",
        200,
        &[
            TokenKind::Else,
            TokenKind::Union,
            TokenKind::Or,
            TokenKind::And,
            TokenKind::Equal,
            TokenKind::Unequal,
            TokenKind::Less,
            TokenKind::AtMost,
            TokenKind::Greater,
            TokenKind::AtLeast,
            TokenKind::Plus,
            TokenKind::Minus,
            TokenKind::Times,
            TokenKind::Opening,
            TokenKind::Dot,
        ],
    ),
    // A condition stands in parentheses.
    (
        "for (c <- table customers) where c.vip [c.name]",
        200,
        &[TokenKind::Opening],
    ),
    ("let f (x: int) = x; [f(1)]", 200, &[TokenKind::Assign]),
    // Behind a parenthesis and a word: a field, or an expression.
    (
        "(x",
        200,
        &[
            TokenKind::Union,
            TokenKind::Or,
            TokenKind::And,
            TokenKind::Equal,
            TokenKind::Unequal,
            TokenKind::Less,
            TokenKind::AtMost,
            TokenKind::Greater,
            TokenKind::AtLeast,
            TokenKind::Plus,
            TokenKind::Minus,
            TokenKind::Times,
            TokenKind::Opening,
            TokenKind::Closing,
            TokenKind::Dot,
            TokenKind::Assign,
        ],
    ),
    // Any word is a label, also a reserved one.
    (
        "x.",
        200,
        &[
            TokenKind::For,
            TokenKind::Where,
            TokenKind::If,
            TokenKind::Then,
            TokenKind::Else,
            TokenKind::Fun,
            TokenKind::Let,
            TokenKind::Table,
            TokenKind::Empty,
            TokenKind::True,
            TokenKind::False,
            TokenKind::Int,
            TokenKind::Bool,
            TokenKind::Text,
            TokenKind::Name,
        ],
    ),
    (
        "[: in]",
        200,
        &[
            TokenKind::Int,
            TokenKind::Bool,
            TokenKind::Text,
            TokenKind::Opening,
            TokenKind::OpeningBag,
        ],
    ),
    // At the beginning and nowhere else a let may stand.
    (
        "",
        200,
        &[
            TokenKind::For,
            TokenKind::Where,
            TokenKind::If,
            TokenKind::Fun,
            TokenKind::Let,
            TokenKind::Table,
            TokenKind::Empty,
            TokenKind::True,
            TokenKind::False,
            TokenKind::Name,
            TokenKind::Number,
            TokenKind::Literal,
            TokenKind::Minus,
            TokenKind::Opening,
            TokenKind::OpeningBag,
            TokenKind::Bang,
        ],
    ),
    // A second argument needs a function of its own.
    (
        "fun (x: int, y: int) -> x",
        200,
        &[TokenKind::Closing, TokenKind::Arrow],
    ),
    // The second edition has two words more.
    (
        "nq 2; [)",
        200,
        &[
            TokenKind::For,
            TokenKind::Where,
            TokenKind::If,
            TokenKind::Fun,
            TokenKind::Table,
            TokenKind::Empty,
            TokenKind::Count,
            TokenKind::Sum,
            TokenKind::True,
            TokenKind::False,
            TokenKind::Name,
            TokenKind::Number,
            TokenKind::Literal,
            TokenKind::Minus,
            TokenKind::Opening,
            TokenKind::OpeningBag,
            TokenKind::Colon,
            TokenKind::Bang,
        ],
    ),
    // At depth 1 nothing may stand in parentheses.
    ("(1)", 1, &[TokenKind::Closing]),
    ("[1]", 1, &[TokenKind::Colon]),
    // At depth 0 there is no query.
    ("x", 0, &[]),
    ("nq 2; x", 0, &[]),
];

#[test]
fn kinds_are_expected(rt: HostRuntime) -> Result<(), Fail> {
    let alloc = rt.alloc();
    for (text, depth, wanted) in &EXPECTED {
        let read = tokens(alloc, text);
        assert!(rt; read.is_ok(), "{text}");
        if let Ok(read) = read {
            let found = expected_kinds(alloc, read.as_slice(), *depth)?;
            assert!(rt; found.is_some(), "{text}");
            if let Some(found) = found {
                assert!(rt; found.as_slice() == *wanted, "{text}: {found:?}");
            }
        }
    }
    Ok(())
}

#[test]
fn nothing_is_expected_behind_a_query(rt: HostRuntime) -> Result<(), Fail> {
    let alloc = rt.alloc();
    for text in ["[1]", "nq 2; [count([1])]", "for (x <- table t) [x.a]"] {
        let read = tokens(alloc, text);
        assert!(rt; read.is_ok(), "{text}");
        if let Ok(read) = read {
            let found = expected_kinds(alloc, read.as_slice(), 200)?;
            assert!(rt; found.is_none(), "{text}");
        }
    }
    Ok(())
}
