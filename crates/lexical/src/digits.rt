// Whole numbers.
ghost use Rattle.std.specs.Prelude.{◌≡◌, ◌<◌, ◌≤◌, All, MatchOption};
ghost use Rattle.nq_model.specs.QueryTokens.{value_from};
ghost use Rattle.lexical.specs.Digits.{IsDigit};

// The greatest number that a text can spell.
const GREATEST: u64 = 9223372036854775807;

/// The number that digits spell, unless it is above the greatest, 9223372036854775807.
pub fn value_of(digits: &[u8]) -> Option<u64>
    requires { All IsDigit digits.now }
    ensures { MatchOption result (GREATEST < value_from 0 digits.now)
        (λ value. (value ≤ GREATEST) × (value ≡ value_from 0 digits.now)) }
{
    let mut value: u64 = 0;
    for digit in digits {
        let more = u128::from(value) * 10 + u128::from(*digit - b'0');
        if more > u128::from(GREATEST) {
            return None;
        }
        value = more as u64;
    }
    Some(value)
}
