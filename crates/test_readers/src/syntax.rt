// Tokens of texts, and terms of syntax trees, worked out by hand.
use nq_model::{Label, Memory, Node, boxed};
use query_syntax::{Symbol, Syntax, Token, Variable, lower, tokens};
use std::alloc::{AllocError, Global};
use std::process::Abort;
use std::test::Fail;

fn shown_token(shown: &mut String, token: Token) -> Result<(), AllocError> {
    let place = token.place;
    match token.symbol {
        Symbol::Word(word) => write!(shown, "{place}:{word} "),
        Symbol::Number(number) => write!(shown, "{place}:{} ", number.value),
        Symbol::Literal(spelled) => write!(shown, "{place}:'{spelled}' "),
        Symbol::Operator(operator) => write!(shown, "{place}:{operator:?} "),
        Symbol::From => write!(shown, "{place}:<- "),
        Symbol::Opening => write!(shown, "{place}:( "),
        Symbol::Closing => write!(shown, "{place}:) "),
        Symbol::End => write!(shown, "{place}:end"),
        _ => write!(shown, "{place}:other "),
    }
}

fn shown_tokens(alloc: Global, text: &str) -> Result<String, AllocError> {
    let mut shown = String::new(alloc);
    match tokens(alloc, text) {
        Ok(tokens) => {
            for token in tokens.as_slice() {
                shown_token(&mut shown, *token)?;
            }
        }
        Err(fault) => write!(shown, "{fault:?}")?,
    }
    Ok(shown)
}

const TEXTS: [(&str, &str); 6] = [
    ("", "0:end"),
    (
        "for (x <- table t)",
        "0:for 4:( 5:x 7:<- 10:table 16:t 17:) 18:end",
    ),
    ("a#(b\n 'it''s'", "0:a 6:'it''s' 13:end"),
    ("1x <=2", "0:1 1:x 3:Of(Le) 5:2 6:end"),
    ("x ? 'a", "Token { place: 2 }"),
    ("1 9223372036854775808 ?", "IntRange { place: 2 }"),
];

// `let x = true; y` with these names.
fn let_in(alloc: Global, bound: &str, used: &str) -> Result<Syntax, Memory> {
    let value = Syntax::Truth {
        place: 8,
        truth: true,
    };
    let body = Syntax::Var {
        place: 14,
        name: Label::from_str(alloc, used)?,
    };
    Ok(Syntax::Let {
        place: 0,
        variable: Variable {
            place: 4,
            name: Label::from_str(alloc, bound)?,
        },
        assign: 6,
        value: boxed(alloc, value)?,
        semicolon: 12,
        body: boxed(alloc, body)?,
    })
}

// The body of the `let`, or the fault.
fn shown_body(alloc: Global, bound: &str, used: &str) -> Result<String, Memory> {
    let term = match lower(alloc, let_in(alloc, bound, used)?) {
        Ok(term) => term,
        Err(fault) => return Ok(format!(in alloc; "{fault:?}")?),
    };
    let index = match &term.node {
        Node::Bind { body, .. } => match body.node {
            Node::Var(index) => Some(index),
            _ => None,
        },
        _ => None,
    };
    Ok(format!(in alloc; "{index:?}")?)
}

#[test]
fn cuts_and_resolves(rt: HostRuntime) -> Result<(), Fail> {
    let alloc = rt.alloc();
    for (text, want) in &TEXTS {
        assert_eq!(&rt; shown_tokens(alloc, text)?.as_str(), *want);
    }
    assert_eq!(&rt; shown_body(alloc, "x", "x")?.as_str(), "Some(0)");
    assert_eq!(&rt;
        shown_body(alloc, "x", "y")?.as_str(),
        "Unbound { place: 14 }"
    );
    Ok(())
}
