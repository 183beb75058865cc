// What a token says.
ghost use Rattle.std.specs.Prelude.{◌<◌, ◌^◌};

use nq_model::Binary;

/// What stands between two operands: `++`, or an operator of terms.
#[derive(Clone, Copy, Debug, PartialEq, Eq)]
pub enum Operator {
    Union,
    Of(Binary),
}

/// A whole number, with the number of its digits.
#[derive(Clone, Copy)]
pub struct Whole {
    pub value: u64,
    pub digits: u64,
    ghost small: { value < 2 ^ 63 },
}

/// What a token says. A literal is as it is spelled between its quotes.
#[derive(Clone, Copy)]
pub enum Symbol<'a> {
    Word(&'a str),
    Number(Whole),
    Literal(&'a str),
    Operator(Operator),
    Opening,
    Closing,
    OpeningBag,
    ClosingBag,
    Comma,
    Colon,
    Semicolon,
    Dot,
    Assign,
    From,
    Arrow,
    Bang,
    End,
}

/// A token, and the number of bytes before it in the whole text.
#[derive(Clone, Copy)]
pub struct Token<'a> {
    pub place: u64,
    pub symbol: Symbol<'a>,
}
