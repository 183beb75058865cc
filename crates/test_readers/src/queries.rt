// Whole query texts, with faults and places worked out by hand.
use nq_parser::parse;
use std::alloc::{AllocError, Global};
use std::process::Abort;
use std::test::Fail;

// A text, the depth at which it is read, and what comes of it.
const TEXTS: [(&str, u64, &str); 65] = [
    ("[9223372036854775808]", 200, "IntRange { place: 1 }"),
    ("[1 < 2 < 3]", 200, "Unexpected { place: 7 }"),
    ("[x]", 200, "Unbound { place: 1 }"),
    ("[(a = 1, a = 2)]", 200, "TwiceLabel { place: 9 }"),
    ("", 200, "Unexpected { place: 0 }"),
    ("[1 & 2]", 200, "Token { place: 3 }"),
    ("[[1]]", 2, "Deep { place: 2 }"),
    ("[[: int]]", 2, "spelled"),
    ("", 0, "Unexpected { place: 0 }"),
    ("()", 0, "Deep { place: 0 }"),
    ("then", 0, "Unexpected { place: 0 }"),
    ("()", 1, "spelled"),
    ("1 + 1", 1, "Deep { place: 2 }"),
    ("(x", 1, "Deep { place: 1 }"),
    ("(x = ())", 2, "spelled"),
    ("(x)", 2, "Unbound { place: 1 }"),
    ("(for (", 2, "Deep { place: 5 }"),
    ("(for = 1, table = 2).for", 200, "spelled"),
    ("for (x <- [1]) [1] ++ [x]", 200, "spelled"),
    ("if true then [1] else [2] ++ [3]", 200, "spelled"),
    ("1 < 2 == 3", 200, "Unexpected { place: 6 }"),
    ("(1 < 2) == true", 200, "spelled"),
    ("[: [int]]", 1, "Deep { place: 3 }"),
    ("fun (x: [[int]]) -> x", 2, "Deep { place: 9 }"),
    ("fun (f: int -> int) -> f(1)", 200, "spelled"),
    ("[: (a: int, a: int)]", 200, "TwiceLabel { place: 12 }"),
    ("1 + 1 + 1", 2, "Deep { place: 6 }"),
    ("'a''", 200, "Token { place: 0 }"),
    ("[(a = x, a = 1)]", 200, "Unbound { place: 6 }"),
    ("(a = 1, a = x)", 200, "TwiceLabel { place: 8 }"),
    ("1x", 200, "Unexpected { place: 1 }"),
    ("f()", 200, "Unexpected { place: 2 }"),
    ("(let x = 1; x)", 200, "Unexpected { place: 5 }"),
    ("let x = 1; let y = x; x + y", 200, "spelled"),
    ("let x = x; 1", 200, "Unbound { place: 8 }"),
    ("[1", 200, "Unexpected { place: 2 }"),
    ("[1] # ) \n ++ [2]", 200, "spelled"),
    ("# only", 200, "Unexpected { place: 6 }"),
    ("-9223372036854775808", 200, "IntRange { place: 1 }"),
    ("!-1 * 2 - 3", 200, "spelled"),
    ("[: int", 200, "Unexpected { place: 6 }"),
    ("where (true) [table for]", 200, "spelled"),
    (
        "aaaaaaaabbbbbbbbaaaaaaaabbbbbbbbaaaaaaaabbbbbbbbaaaaaaaabbbbbbbb",
        200,
        "Unbound { place: 0 }",
    ),
    (
        "aaaaaaaabbbbbbbbaaaaaaaabbbbbbbbaaaaaaaabbbbbbbbaaaaaaaabbbbbbbbc",
        200,
        "Token { place: 0 }",
    ),
    // In the first edition `count` and `sum` are names.
    ("[count(table tasks)]", 200, "Unbound { place: 1 }"),
    ("let sum = fun (x: int) -> x; [sum(2)]", 200, "spelled"),
    ("let nq = 2; [nq]", 200, "spelled"),
    ("nq", 200, "Unbound { place: 0 }"),
    ("nq 2 [1]", 200, "Unexpected { place: 3 }"),
    ("nq 3; [1]", 200, "Unexpected { place: 3 }"),
    ("nq 02; [1]", 200, "Unexpected { place: 3 }"),
    // In the second they are asked of bags; as labels they stay names.
    ("nq 2; [count(table tasks)]", 200, "spelled"),
    ("nq 2 ; # c\n [(count = sum([1])).count]", 200, "spelled"),
    ("nq 2; (count([1]))", 200, "spelled"),
    ("nq 2; let nq = 2; [nq]", 200, "spelled"),
    (
        "nq 2; let count = 3; [count]",
        200,
        "Unexpected { place: 10 }",
    ),
    (
        "nq 2; for (sum <- [1]) [sum]",
        200,
        "Unexpected { place: 11 }",
    ),
    ("nq 2; [count()]", 200, "Unexpected { place: 13 }"),
    ("nq 2;", 200, "Unexpected { place: 5 }"),
    ("nq 2; nq 2; [1]", 200, "Unexpected { place: 9 }"),
    // A header adds nothing to the depth, but no program is of depth 0.
    ("nq 2; 1", 1, "spelled"),
    ("nq 2; [1]", 1, "Deep { place: 7 }"),
    ("nq 2; [1]", 0, "Deep { place: 0 }"),
    ("nq 2", 0, "Deep { place: 0 }"),
    ("nq 2; sum(1)", 2, "spelled"),
];

// What stands before and in so many brackets, and what comes of it at depth 200.
const NESTED: [(&str, usize, &str, &str); 5] = [
    ("", 199, "1", "spelled"),
    ("", 200, "1", "Deep { place: 200 }"),
    ("nq 2; ", 199, "1", "spelled"),
    ("nq 2; ", 197, "count([1])", "spelled"),
    ("nq 2; ", 198, "count([1])", "Deep { place: 211 }"),
];

fn shown(alloc: Global, text: &[u8], depth: u64) -> Result<String, AllocError> {
    match parse(alloc, text, depth) {
        Ok(_term) => String::from_str(alloc, "spelled"),
        Err(fault) => format!(in alloc; "{fault:?}"),
    }
}

// A header or nothing, `[`, so many times, what stands inside, and as many `]`.
fn brackets(alloc: Global, header: &str, count: usize, inside: &str) -> Result<String, AllocError> {
    let mut text = String::from_str(alloc, header)?;
    for _ in 0..count {
        text.push_str("[")?;
    }
    text.push_str(inside)?;
    for _ in 0..count {
        text.push_str("]")?;
    }
    Ok(text)
}

#[test]
fn reads_or_refuses(rt: HostRuntime) -> Result<(), Fail> {
    let alloc = rt.alloc();
    for (text, depth, want) in &TEXTS {
        assert_eq!(&rt; shown(alloc, text.as_bytes(), *depth)?.as_str(), *want);
    }
    for (header, count, inside, want) in &NESTED {
        let text = brackets(alloc, header, *count, inside)?;
        assert_eq!(&rt; shown(alloc, text.as_bytes(), 200)?.as_str(), *want);
    }
    assert_eq!(&rt;
        shown(alloc, &[63, 32, 255], 200)?.as_str(),
        "NotUtf8 { place: 2 }"
    );
    Ok(())
}
