//! Whole numbers of 64 bits, as cells and conditions spell them.

ghost use Rattle.std.specs.Prelude.{◌≡◌};
ghost use Rattle.column_table.specs.Numbers.{number_of_64_bits};

use bit_table::{is_number, number_up_to};

// One past the greatest number that 64 bits hold.
const LIMIT: i128 = 1 << 64;

// The least number that 64 bits hold.
const LEAST: i128 = -(1 << 63);

/// The whole number that a word spells: digits, or `-` and digits. None where it spells no number, or one below `-2^63` or
/// above `2^64 - 1`.
pub fn number_of_64_bits(word: &[u8]) -> Option<i128>
    ensures { result ≡ number_of_64_bits word.now }
{
    let (negative, digits) = match word {
        [b'-', digits @ ..] => (true, digits),
        _ => (false, word),
    };
    if !is_number(digits) {
        return None;
    }
    let size = number_up_to(digits, LIMIT as u128) as i128;
    let number = if negative { -size } else { size };
    if LEAST <= number && number < LIMIT {
        Some(number)
    } else {
        None
    }
}
