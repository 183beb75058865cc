// Tokens of SQL texts.
ghost use Rattle.std.specs.Prelude.{◌<◌, ◌^◌};

use nq_model::Binary;

/// A whole number, with the number of its digits.
#[derive(Clone, Copy)]
pub struct Whole {
    pub value: u64,
    pub digits: u64,
    ghost small: { value < 2 ^ 63 },
}

/// A keyword or a symbol. `Stop` is END.
#[derive(Clone, Copy)]
pub enum Mark {
    Operator(Binary),
    Truth(bool),
    Opening,
    Closing,
    Comma,
    Dot,
    Semicolon,
    With,
    As,
    Union,
    All,
    Select,
    From,
    Where,
    RowNumber,
    Over,
    Order,
    By,
    Not,
    Exists,
    Case,
    When,
    Then,
    Else,
    Stop,
    Count,
    Sum,
    Coalesce,
}

/// What a token says. A literal is as it is spelled between its quotes.
#[derive(Clone, Copy)]
pub enum Symbol<'a> {
    Number(Whole),
    Literal(&'a str),
    Name(&'a str),
    Mark(Mark),
    End,
}

/// A token, and the number of bytes before it in the whole text.
#[derive(Clone, Copy)]
pub struct Token<'a> {
    pub place: u64,
    pub symbol: Symbol<'a>,
}
