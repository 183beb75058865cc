// How deep bodies are. The stack is memory, and what comes after recurses over the form that is
// built.
//
// Depths multiply: a body that is used in another stands below what stands there. So the depth of
// what is built is counted, and not that of the term. It stands beside each part, so that no part
// is walked to tell it.
use crate::raw::{MovedBase, MovedBody, RawBody, RawComp, RawTest};
use nq_model::{Label, Memory};

/// The deepest parts of a body that is built, conditions counted as they are joined, one over the
/// other.
pub(crate) const DEEPEST: u64 = 2_000;

/// The depth of what stands over parts that are so deep; want of memory where they are deeper than
/// `DEEPEST`.
pub(crate) fn level_above(below: u64) -> Result<u64, Memory> {
    if below <= DEEPEST {
        Ok(below + 1)
    } else {
        Err(Memory)
    }
}

/// The depth of a body; want of memory where its parts are deeper than `DEEPEST`.
pub(crate) fn body_depth(body: &RawBody) -> Result<u64, Memory> {
    match body {
        RawBody::Plain(base) => Ok(base.depth),
        RawBody::Rec(fields) => level_above(fields_depth(fields.as_slice())),
        RawBody::Bag(comps) => level_above(comps_depth(comps.as_slice())),
    }
}

/// How deep the deepest of these is.
pub(crate) fn deepest(bases: &[MovedBase]) -> u64 {
    let mut deepest: u64 = 0;
    for base in bases {
        deepest = deepest.max(base.depth);
    }
    deepest
}

/// The same where the deepest was so deep, and `more` generators came around them since.
pub(crate) fn deepest_under(conds: &[MovedBase], more: u64, before: u64) -> u64 {
    if more == 0 { before } else { deepest(conds) }
}

/// How deep a comprehension without its body is. Conditions are joined from the left.
pub(crate) fn test_depth(test: &RawTest) -> u64 {
    test.deepest.saturating_add(test.conds.len() as u64)
}

/// How deep the comprehensions of a test are.
pub(crate) fn tests_depth(tests: &[RawTest]) -> u64 {
    let mut depth: u64 = 0;
    for test in tests {
        depth = depth.max(test_depth(test));
    }
    depth
}

fn fields_depth(fields: &[(Label, MovedBody)]) -> u64 {
    let mut depth: u64 = 0;
    for field in fields {
        depth = depth.max(field.1.depth);
    }
    depth
}

fn comps_depth(comps: &[RawComp]) -> u64 {
    let mut depth: u64 = 0;
    for comp in comps {
        let conds = comp.deepest.saturating_add(comp.conds.len() as u64);
        let body = comp.body.depth.saturating_add(1);
        depth = depth.max(conds).max(body);
    }
    depth
}
