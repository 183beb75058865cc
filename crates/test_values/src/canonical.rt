// Values as they are written: worked examples.
use canon::{sort_deep, write};
use nq_model::{Label, List, Memory, Text, Value};
use std::alloc::Global;

fn bag(elements: Vec<Value>) -> Value {
    Value::Bag(List::from_vec(elements))
}

fn numbers(alloc: Global, numbers: &[i64]) -> Result<Value, Memory> {
    let mut elements = List::new(alloc);
    for number in numbers {
        elements.push(Value::Int(*number))?;
    }
    Ok(Value::Bag(elements))
}

fn texts(alloc: Global, texts: &[&str]) -> Result<Value, Memory> {
    let mut elements = List::new(alloc);
    for text in texts {
        elements.push(Value::Text(Text::from_str(alloc, text)?))?;
    }
    Ok(Value::Bag(elements))
}

fn record(alloc: Global, numbers: &[(&str, i64)]) -> Result<Value, Memory> {
    let mut fields = List::new(alloc);
    for (label, number) in numbers {
        fields.push((Label::from_str(alloc, label)?, Value::Int(*number)))?;
    }
    Ok(Value::Rec(fields))
}

fn records(alloc: Global, records: &[&[(&str, i64)]]) -> Result<Value, Memory> {
    let mut elements = List::new(alloc);
    for numbers in records {
        elements.push(record(alloc, numbers)?)?;
    }
    Ok(Value::Bag(elements))
}

fn bags(alloc: Global, bags: &[&[i64]]) -> Result<Value, Memory> {
    let mut elements = List::new(alloc);
    for bag in bags {
        elements.push(numbers(alloc, bag)?)?;
    }
    Ok(Value::Bag(elements))
}

fn kinds(alloc: Global) -> Result<Value, Memory> {
    let text = Text::from_str(alloc, "")?;
    let empty = vec![in alloc]?;
    Ok(bag(vec![in alloc;
        bag(empty),
        Value::Rec(List::new(alloc)),
        Value::Text(text),
        Value::Int(0),
        Value::Bool(true),
        Value::Bool(false),
    ]?))
}

fn is_written(alloc: Global, value: Value, expected: &str) -> Result<bool, Memory> {
    let sorted = sort_deep(alloc, value)?;
    let text = write(alloc, &sorted)?;
    Ok(text.as_slice() == expected.as_bytes())
}

#[test]
fn canonical_texts(rt: HostRuntime) -> Result<(), Memory> {
    let alloc = rt.alloc();
    let inner = bags(alloc, &[&[2, 1], &[], &[1, 2]])?;
    assert!(rt; is_written(alloc, inner, "{{}, {1, 2}, {1, 2}}\n")?);
    let kinds = kinds(alloc)?;
    assert!(rt; is_written(alloc, kinds, "{false, true, 0, '', (), {}}\n")?);
    let labels = records(
        alloc,
        &[
            &[("ab", 1)],
            &[("a", 2), ("b", 0)],
            &[("a", 2)],
            &[("a", 1), ("b", 0)],
        ],
    )?;
    assert!(rt;
        is_written(
            alloc,
            labels,
            "{(a = 2), (a = 1, b = 0), (a = 2, b = 0), (ab = 1)}\n"
        )?
    );
    let quotes = texts(alloc, &["it's", "'", "", "its"])?;
    assert!(rt; is_written(alloc, quotes, "{'', '''', 'it''s', 'its'}\n")?);
    let ends = numbers(alloc, &[i64::MAX, 9, -1, 10, i64::MIN])?;
    assert!(rt;
        is_written(
            alloc,
            ends,
            "{-9223372036854775808, -1, 9, 10, 9223372036854775807}\n"
        )?
    );
    Ok(())
}

#[test]
fn order_does_not_count(rt: HostRuntime) -> Result<(), Memory> {
    let alloc = rt.alloc();
    let value = bags(alloc, &[&[2, 1], &[], &[1, 2]])?;
    let turned = bags(alloc, &[&[1, 2], &[2, 1], &[]])?;
    let fewer = bags(alloc, &[&[], &[1, 2]])?;
    for (other, expected) in [(&turned, true), (&fewer, false)] {
        assert!(rt; value.same(other) == expected);
        assert!(rt; other.same(&value) == expected);
    }
    Ok(())
}
