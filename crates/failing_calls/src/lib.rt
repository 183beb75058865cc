//! Calls of which those with listed numbers fail: for inputs and servers that tests are run on.
#![tactic(auto)]

ghost use Rattle.std.specs.Prelude.{◌≡◌};
ghost use Rattle.failing_calls.specs.Calls.{is_listed, number_after};

/// Whether the call after so many has a listed number. Calls are counted from 1, and after call
/// 2^64 - 1 there is none that has a number.
pub fn is_next_listed(listed: &[u64], calls: u64) -> bool
    ensures { result ≡ is_listed listed.now (number_after calls) }
{
    match calls.checked_add(1) {
        Some(call) => listed.contains(&call),
        None => false,
    }
}
