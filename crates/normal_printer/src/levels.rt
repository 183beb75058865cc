// How strongly forms bind: the levels of the query grammar, 1 the weakest.
ghost use Rattle.std.specs.Prelude.{◌≡◌, ◌<◌};
ghost use Rattle.nq_ir.specs.Printed.{NamedTerm, left_level, level, level_of, named_base};
ghost use Rattle.nq_ir.specs.Trees.{base_tree, conds_tree};
ghost use Rattle.normal_printer.specs.Chains.{is_bare};
ghost use Rattle.normal_printer.specs.Parts.{comp_term, level_in};

use nq_ir::{Base, Gen};
use nq_model::Binary;

// The levels of `++` and of `&&`.
pub(crate) const UNION: u64 = 2;

pub(crate) const AND: u64 = 4;

// What `-` and `!` ask for.
pub(crate) const PREFIX: u64 = 8;

pub(crate) fn level_of(op: Binary) -> u64
    ensures { result ≡ level_of op }
{
    match op {
        Binary::Or => 3,
        Binary::And => 4,
        Binary::Eq | Binary::Ne | Binary::Lt | Binary::Le | Binary::Gt | Binary::Ge => 5,
        Binary::Add | Binary::Sub => 6,
        Binary::Mul => 7,
    }
}

// What an operator asks for on its left: comparisons do not chain.
pub(crate) fn left_level(op: Binary) -> u64
    ensures { result ≡ left_level op }
{
    match op {
        Binary::Or => 3,
        Binary::And => 4,
        Binary::Mul => 7,
        Binary::Add
        | Binary::Sub
        | Binary::Eq
        | Binary::Ne
        | Binary::Lt
        | Binary::Le
        | Binary::Gt
        | Binary::Ge => 6,
    }
}

// Whether an operation of this kind stands without parentheses on the left of another.
pub(crate) fn is_bare(op: Binary) -> bool
    ensures { result ≡ is_bare op }
{
    left_level(op) <= level_of(op)
}

#[cycle(base_level)]
#[tactic(auto, using(nq_ir::proofs::Forms::base_count, nq_ir::proofs::Forms::base_sum))]
pub(crate) fn base_level(base: &Base) -> u64
    ensures { result ≡ level (named_base (base_tree base.now)) }
{
    match base {
        Base::Int(_)
        | Base::Bool(_)
        | Base::Text(_)
        | Base::Empty(_)
        | Base::Count(_)
        | Base::Sum { .. } => 10,
        Base::Column { .. } => 9,
        Base::Unary { .. } => 8,
        Base::Binary { op, .. } => level_of(*op),
        Base::Chain { op, first, more } => {
            if more.is_empty() {
                base_level(first)
            } else {
                level_of(*op)
            }
        }
        Base::Choose { .. } => 1,
    }
}

// The level of a comprehension: `for` and `where` are weaker than a bag of one element.
pub(crate) fn comp_level(gens: &[Gen], conds: &[Base]) -> u64
    ensures { (body : NamedTerm) → result ≡ level (comp_term gens.now (conds_tree conds.now) body) }
{
    if gens.is_empty() && conds.is_empty() {
        10
    } else {
        1
    }
}

// What is asked for at a place of so many parts that an operator of a level joins from the left.
pub(crate) fn level_in(joined: u64, parts: usize, place: usize) -> u64
    requires { joined < 10 }
    ensures { result ≡ level_in joined parts place }
{
    if parts <= 1 {
        0
    } else if place == 0 {
        joined
    } else {
        joined + 1
    }
}
