// Numbers and names as words. A number is printed again and compared with the word, so no sign and
// no zero before it is let through.
ghost use Rattle.std.specs.Prelude.{◌≡◌, ◌<◌, ◌≤◌, ◌^◌, ◌↔◌, ℕ, IsTrue, MatchOption, decimal};
ghost use Rattle.syn_term.specs.Names.{IsName};

use itoa::Buffer;
use syn_term::is_name;

/// No number of a line has more than seven digits.
const NUMBER_END: u32 = 10_000_000;

fn is_written(number: u32, word: &[u8]) -> bool
    ensures { IsTrue result ↔ (word.now ≡ decimal number) }
{
    let mut buffer = Buffer::new();
    buffer.format(number).as_bytes() == word
}

// Whether the word is a text is no question of its own: the digits of a number are one.
fn parsed(word: &[u8]) -> Option<u32>
    ensures { MatchOption result ((n : ℕ) → n < 2 ^ 32 → ¬ (word.now ≡ decimal n)) (λ m. (n : ℕ) → n < 2 ^ 32 → word.now ≡ decimal n → n ≡ m) }
{
    match str::from_utf8(word) {
        Err(_) => None,
        Ok(text) => match text.parse::<u32>() {
            Err(_) => None,
            Ok(number) => Some(number),
        },
    }
}

/// The number whose digits the word is, below 10,000,000, or `None` where it is no such number.
pub(crate) fn number_in(word: &[u8]) -> Option<u32>
    ensures { MatchOption result ((n : ℕ) → n < 10 ^ 7 → ¬ (word.now ≡ decimal n)) (λ n. (n < 10 ^ 7) × (word.now ≡ decimal n)) }
{
    match parsed(word) {
        None => None,
        Some(number) => {
            if number < NUMBER_END && is_written(number, word) {
                Some(number)
            } else {
                None
            }
        }
    }
}

/// The number whose digits the word is, within the bounds, or `None` where it is no such number.
pub(crate) fn number_between(word: &[u8], least: u32, most: u32) -> Option<u32>
    requires { most < 10 ^ 7 }
    ensures { MatchOption result ((n : ℕ) → least ≤ n → n ≤ most → ¬ (word.now ≡ decimal n)) (λ n. (least ≤ n) × (n ≤ most) × (word.now ≡ decimal n)) }
{
    match number_in(word) {
        None => None,
        Some(number) => {
            if least <= number && number <= most {
                Some(number)
            } else {
                None
            }
        }
    }
}

/// The word as a name, or `None` where it is no name.
pub(crate) fn name_in(word: &[u8]) -> Option<&str>
    ensures { MatchOption result (¬ (IsName word.now)) (λ name. IsName word.now × (name.now ≡ word.now)) }
{
    match str::from_utf8(word) {
        Err(_) => None,
        Ok(name) => { if is_name(name) { Some(name) } else { None } }
    }
}
