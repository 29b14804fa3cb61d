//! Numbers that words spell in decimal.
ghost use Rattle.std.specs.Prelude.{◌≡◌, ◌-◌, ◌^◌, min, IsTrue};
ghost use Rattle.bit_table_layout.specs.Numerals.{is_number, number_of};

// As many decimal digits as 64 bits hold, whatever they are.
const SHORT: usize = 19;

/// Whether a word is one or more decimal digits.
pub fn is_number(word: &[u8]) -> bool
    ensures { result ≡ is_number word.now }
{
    !word.is_empty() && word.iter().all(|byte| byte.is_ascii_digit())
}

/// The number that decimal digits spell, however many they are, or `most` where it is greater.
pub fn number_up_to(word: &[u8], most: u128) -> u128
    requires { IsTrue (is_number word.now) }
    ensures { result ≡ min (number_of word.now) most }
{
    if word.len() <= SHORT {
        let number = number_up_to_64_bits(word);
        // It always is, of so few digits; the proof is told it by the test.
        if number < u64::MAX {
            return most.min(u128::from(number));
        }
    }
    long_number_up_to(word, most)
}

// The number that decimal digits spell, or the greatest of 64 bits where it is greater.
fn number_up_to_64_bits(word: &[u8]) -> u64
    requires { IsTrue (is_number word.now) }
    ensures { result ≡ min (number_of word.now) (2 ^ 64 - 1) }
{
    let mut number = 0u64;
    for byte in word {
        let digit = u64::from(*byte - b'0');
        number = number.saturating_mul(10).saturating_add(digit);
    }
    number
}

// `number_up_to`, by numbers of 128 bits.
fn long_number_up_to(word: &[u8], most: u128) -> u128
    requires { IsTrue (is_number word.now) }
    ensures { result ≡ min (number_of word.now) most }
{
    let mut number = 0u128;
    for byte in word {
        let digit = u128::from(*byte - b'0');
        number = most.min(number.saturating_mul(10).saturating_add(digit));
    }
    number
}
