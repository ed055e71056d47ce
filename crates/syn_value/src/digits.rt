// Numbers in the texts of values.
ghost use Rattle.std.specs.Prelude.{◌≡◌, ◌<◌, ◌≤◌, ◌^◌, ℕ, MatchOption, decimal};
ghost use Rattle.syn_value.specs.inner.Machine.{number_in};

use syn_term::decimal_number;

/// The greatest number in the text of a value.
const GREATEST_NUMBER: u32 = 1_000_000;

/// No number up to the greatest has more digits.
const MOST_DIGITS: usize = 7;

/// The number that the text is, up to the greatest.
fn small_number(text: &str) -> Option<u32>
    ensures { MatchOption result ((n : ℕ) → n ≤ 1000000 → ¬ (text.now ≡ decimal n)) (λ n. (n ≤ 1000000) × (text.now ≡ decimal n)) }
{
    match decimal_number(text) {
        None => None,
        Some(number) => {
            if number > GREATEST_NUMBER {
                return None;
            }
            Some(number)
        }
    }
}

/// The number that the digits are, up to the greatest.
pub(crate) fn number_in(digits: &[u8]) -> Option<u64>
    ensures { result ≡ number_in digits.now }
{
    if digits.len() > MOST_DIGITS {
        return None;
    }
    match std::str::from_utf8(digits) {
        Err(_) => None,
        Ok(text) => match small_number(text) {
            None => None,
            Some(number) => Some(u64::from(number)),
        },
    }
}
