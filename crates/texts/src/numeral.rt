//! Numbers in decimal digits.

ghost use Rattle.texts.specs.code.Numerals.{FindsNumeral, ValueUpTo};

use basic_types::is_digit;

/// The number that the word writes in decimal digits, if it is at most `most`; leading zeros are allowed, a sign isn't.
///
/// `None` where the word is empty, has a byte that is no digit, or writes a larger number, and only there.
pub fn number(word: &[u8], most: u64) -> Option<u64>
    ensures { FindsNumeral most word.now result }
{
    if word.is_empty() || !word.iter().all(|byte| is_digit(*byte)) {
        return None;
    }
    value_of(word, most)
}

/// The number that the digits write, if it is at most so much.
pub fn value_of(digits: &[u8], most: u64) -> Option<u64>
    ensures { ValueUpTo most digits.now result }
{
    let mut value = 0u64;
    for digit in digits {
        let next = u128::from(value) * 10 + u128::from(digit.saturating_sub(b'0'));
        if next > u128::from(most) {
            return None;
        }
        value = next as u64;
    }
    Some(value)
}
