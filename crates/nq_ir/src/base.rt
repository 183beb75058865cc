// Base terms of normal forms, generators, and comprehensions that are tested, counted or summed
// over.
ghost use Rattle.std.specs.Prelude.{◌≡◌, IfOk, map};
ghost use Rattle.nq_ir.specs.Trees.{base_tree, test_part};

use nq_model::{Binary, Label, List, Memory, Text, Unary, boxed};
use std::alloc::Global;

/// A generator: it takes each row of its table in turn. The numbers of a form's generators differ.
#[derive(Drop)]
pub struct Gen {
    pub number: u64,
    pub table: Label,
}

impl Gen {
    /// A copy of the generator.
    pub fn copy(&self, alloc: Global) -> Result<Gen, Memory>
        ensures { IfOk result (λ copy. copy ≡ self.now) }
    {
        Ok(Gen {
            number: self.number,
            table: self.table.copy(alloc)?,
        })
    }
}

/// A term of a base type. `Column` names a generator in scope by its number, and a column of its
/// table. An `Int` is from 0 to 2^63 - 1. A `Chain` is an operation on many terms, grouped to the
/// left, in a flat list, so that a sum of thousands of parts is no deeper than its parts. `Empty`
/// tests whether none of its comprehensions gives an element. `Count` is how many elements one
/// comprehension gives, and `Sum` the sum of a value over them, at 64 bits.
///
/// After Cheney, Lindley and Wadler, "Query Shredding", SIGMOD 2014.
#[cycle(base)]
#[derive(Drop)]
pub enum Base {
    Int(i64),
    Bool(bool),
    Text(Text),
    Column {
        generator: u64,
        column: Label,
    },
    Unary {
        op: Unary,
        of: Box<Base>,
    },
    Binary {
        op: Binary,
        left: Box<Base>,
        right: Box<Base>,
    },
    Chain {
        op: Binary,
        first: Box<Base>,
        more: List<Base>,
    },
    Choose {
        test: Box<Base>,
        yes: Box<Base>,
        no: Box<Base>,
    },
    Empty(List<Test>),
    Count(Test),
    Sum {
        over: Test,
        value: Box<Base>,
    },
}

/// A comprehension that is tested, counted or summed over: its generators, outermost first, and its
/// conditions. It has no tag and no body: a test and a count look at no element, and a sum has its
/// value beside it.
#[cycle(base)]
#[derive(Drop)]
pub struct Test {
    pub gens: List<Gen>,
    pub conds: List<Base>,
}

impl Base {
    /// A copy of the term.
    #[cycle(copy)]
    #[tactic(auto, using(crate::proofs::Forms::base_chain, crate::proofs::Forms::base_empty, crate::proofs::Forms::base_count, crate::proofs::Forms::base_sum))]
    pub fn copy(&self, alloc: Global) -> Result<Base, Memory>
        ensures { IfOk result (λ copy. base_tree copy ≡ base_tree self.now) }
    {
        match self {
            Base::Int(number) => Ok(Base::Int(*number)),
            Base::Bool(truth) => Ok(Base::Bool(*truth)),
            Base::Text(text) => Ok(Base::Text(text.copy(alloc)?)),
            Base::Column { generator, column } => Ok(Base::Column {
                generator: *generator,
                column: column.copy(alloc)?,
            }),
            Base::Unary { op, of } => Ok(Base::Unary {
                op: *op,
                of: boxed(alloc, of.copy(alloc)?)?,
            }),
            Base::Binary { op, left, right } => Ok(Base::Binary {
                op: *op,
                left: boxed(alloc, left.copy(alloc)?)?,
                right: boxed(alloc, right.copy(alloc)?)?,
            }),
            Base::Chain { op, first, more } => Ok(Base::Chain {
                op: *op,
                first: boxed(alloc, first.copy(alloc)?)?,
                more: copy_conds(alloc, more.as_slice())?,
            }),
            Base::Choose { test, yes, no } => Ok(Base::Choose {
                test: boxed(alloc, test.copy(alloc)?)?,
                yes: boxed(alloc, yes.copy(alloc)?)?,
                no: boxed(alloc, no.copy(alloc)?)?,
            }),
            Base::Empty(tests) => Ok(Base::Empty(copy_tests(alloc, tests.as_slice())?)),
            Base::Count(test) => Ok(Base::Count(copy_test(alloc, test)?)),
            Base::Sum { over, value } => Ok(Base::Sum {
                over: copy_test(alloc, over)?,
                value: boxed(alloc, value.copy(alloc)?)?,
            }),
        }
    }
}

/// Copies of base terms: conditions, or the parts of a chain.
#[cycle(copy)]
pub fn copy_conds(alloc: Global, conds: &[Base]) -> Result<List<Base>, Memory>
    ensures { IfOk result (λ copies. map base_tree copies ≡ map base_tree conds.now) }
{
    let mut copies = List::with_capacity(alloc, conds.len())?;
    for cond in conds {
        copies.push(cond.copy(alloc)?)?;
    }
    Ok(copies)
}

#[cycle(copy)]
#[tactic(auto, using(crate::proofs::Forms::test_is))]
fn copy_tests(alloc: Global, tests: &[Test]) -> Result<List<Test>, Memory>
    ensures { IfOk result (λ copies. map test_part copies ≡ map test_part tests.now) }
{
    let mut copies = List::with_capacity(alloc, tests.len())?;
    for test in tests {
        copies.push(copy_test(alloc, test)?)?;
    }
    Ok(copies)
}

#[cycle(copy)]
#[tactic(auto, using(crate::proofs::Forms::test_is))]
fn copy_test(alloc: Global, test: &Test) -> Result<Test, Memory>
    ensures { IfOk result (λ copy. test_part copy ≡ test_part test.now) }
{
    Ok(Test {
        gens: copy_gens(alloc, test.gens.as_slice())?,
        conds: copy_conds(alloc, test.conds.as_slice())?,
    })
}

/// Copies of generators.
pub fn copy_gens(alloc: Global, gens: &[Gen]) -> Result<List<Gen>, Memory>
    ensures { IfOk result (λ copies. copies ≡ gens.now) }
{
    let mut copies = List::with_capacity(alloc, gens.len())?;
    for generator in gens {
        copies.push(generator.copy(alloc)?)?;
    }
    Ok(copies)
}
