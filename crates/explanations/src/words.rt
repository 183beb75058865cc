// What is said of kinds of tokens, and of the tokens of a text.
ghost use Rattle.std.specs.Prelude.{◌≡◌, [], map};
ghost use Rattle.query_syntax.specs.Symbols.{operator_view, token_view};
ghost use Rattle.explanations.specs.Words.{around, around_view, behind, kind_words, operator_words};
ghost use Rattle.explanations.specs.Words.{token_words};

use expected_tokens::TokenKind;
use nq_model::Binary;
use query_syntax::{Operator, Symbol, Token};

/// What is said of a kind of tokens.
pub(crate) fn kind_words(kind: TokenKind) -> &'static str
    ensures { result.now ≡ kind_words kind }
{
    match kind {
        TokenKind::For => "for",
        TokenKind::Where => "where",
        TokenKind::If => "if",
        TokenKind::Then => "then",
        TokenKind::Else => "else",
        TokenKind::Fun => "fun",
        TokenKind::Let => "let",
        TokenKind::Table => "table",
        TokenKind::Empty => "empty",
        TokenKind::Count => "count",
        TokenKind::Sum => "sum",
        TokenKind::True => "true",
        TokenKind::False => "false",
        TokenKind::Int => "int",
        TokenKind::Bool => "bool",
        TokenKind::Text => "text",
        TokenKind::Name => "a name of your own",
        TokenKind::Number => "a number",
        TokenKind::Literal => "a text in quotes",
        TokenKind::Union => "++",
        TokenKind::Or => "||",
        TokenKind::And => "&&",
        TokenKind::Equal => "==",
        TokenKind::Unequal => "!=",
        TokenKind::Less => "<",
        TokenKind::AtMost => "<=",
        TokenKind::Greater => ">",
        TokenKind::AtLeast => ">=",
        TokenKind::Plus => "+",
        TokenKind::Minus => "-",
        TokenKind::Times => "*",
        TokenKind::Opening => "(",
        TokenKind::Closing => ")",
        TokenKind::OpeningBag => "[",
        TokenKind::ClosingBag => "]",
        TokenKind::Comma => "a comma",
        TokenKind::Colon => "a colon",
        TokenKind::Semicolon => "a semicolon",
        TokenKind::Dot => "a dot",
        TokenKind::Assign => "=",
        TokenKind::From => "<-",
        TokenKind::Arrow => "->",
        TokenKind::Bang => "!",
        TokenKind::End => "the end of the text",
    }
}

// What is said of an operator.
fn operator_words(operator: Operator) -> &'static str
    ensures { result.now ≡ operator_words (operator_view operator) }
{
    match operator {
        Operator::Union => "++",
        Operator::Of(Binary::Or) => "||",
        Operator::Of(Binary::And) => "&&",
        Operator::Of(Binary::Eq) => "==",
        Operator::Of(Binary::Ne) => "!=",
        Operator::Of(Binary::Lt) => "<",
        Operator::Of(Binary::Le) => "<=",
        Operator::Of(Binary::Gt) => ">",
        Operator::Of(Binary::Ge) => ">=",
        Operator::Of(Binary::Add) => "+",
        Operator::Of(Binary::Sub) => "-",
        Operator::Of(Binary::Mul) => "*",
    }
}

// What is said of a token: a word stands for itself.
fn token_words<'a>(token: Token<'a>) -> &'a str
    ensures { result.now ≡ token_words (token_view token.entry) }
{
    match token.symbol {
        Symbol::Word(word) => word,
        Symbol::Number(_) => "a number",
        Symbol::Literal(_) => "a text in quotes",
        Symbol::Operator(operator) => operator_words(operator),
        Symbol::Opening => "(",
        Symbol::Closing => ")",
        Symbol::OpeningBag => "[",
        Symbol::ClosingBag => "]",
        Symbol::Comma => "a comma",
        Symbol::Colon => "a colon",
        Symbol::Semicolon => "a semicolon",
        Symbol::Dot => "a dot",
        Symbol::Assign => "=",
        Symbol::From => "<-",
        Symbol::Arrow => "->",
        Symbol::Bang => "!",
        Symbol::End => "the end of the text",
    }
}

/// The words of a token, and of the one before it.
#[derive(Clone, Copy)]
pub struct Around<'a> {
    pub(crate) before: &'a str,
    pub(crate) found: &'a str,
}

/// The words of the first token at a place, and of the one before it; empty where there is none.
#[tactic(auto, unfolding(crate::specs::Words::around))]
pub(crate) fn words_around<'a>(tokens: &[Token<'a>], place: u64) -> Around<'a>
    ensures { around_view result ≡ around place (map token_view tokens.now) }
{
    let mut before = "";
    for token in tokens {
        if token.place == place {
            return Around {
                before,
                found: token_words(*token),
            };
        }
        before = token_words(*token);
    }
    Around { before, found: "" }
}

/// The words of the token behind the first at a place; empty where there is none.
pub(crate) fn words_behind<'a>(tokens: &[Token<'a>], place: u64) -> &'a str
    ensures { result.now ≡ behind place (map token_view tokens.now) }
{
    let mut here = false;
    for token in tokens {
        if here {
            return token_words(*token);
        }
        here = token.place == place;
    }
    ""
}
