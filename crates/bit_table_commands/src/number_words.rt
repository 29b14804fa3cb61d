//! Numbers that words spell, cut off as commands keep them.
ghost use Rattle.std.specs.Prelude.{◌≡◌, option_map};
ghost use Rattle.bit_table_layout.specs.LineWordsLeft.{words_left};
ghost use Rattle.bit_table_layout.specs.Numerals.{number_in, whole_number_in};
ghost use Rattle.bit_table_commands.specs.Commands.{cut_place, cut_value, one_number, two_numbers, three_numbers};
ghost use Rattle.bit_table_commands.specs.Commands.{one_value};
ghost use Rattle.bit_table_commands.specs.CommandSteps.{cut_two, cut_three};

use bit_table_layout::{Words, is_number, number_up_to};

// How far from 0 a value is kept.
const FARTHEST: u128 = 1 << 64;

// The number that a word of digits spells, or `u64::MAX` where it is greater.
pub(crate) fn row_number(word: &[u8]) -> Option<u64>
    ensures { result ≡ option_map cut_place (number_in word.now) }
{
    if is_number(word) {
        Some(number_up_to(word, u128::from(u64::MAX)) as u64)
    } else {
        None
    }
}

// The whole number that a word spells, cut off at `2^64` and `-2^64`.
pub(crate) fn whole_number(word: &[u8]) -> Option<i128>
    ensures { result ≡ option_map cut_value (whole_number_in word.now) }
{
    let (negative, digits) = match word {
        [b'-', digits @ ..] => (true, digits),
        _ => (false, word),
    };
    if !is_number(digits) {
        return None;
    }
    let size = number_up_to(digits, FARTHEST) as i128;
    Some(if negative { -size } else { size })
}

// One row number, where the words that are left spell it and nothing more.
pub(crate) fn one_number(mut words: Words) -> Option<u64>
    ensures { result ≡ option_map cut_place (one_number (words_left words.entry)) }
{
    let word = words.next()?;
    match words.next() {
        None => row_number(word),
        Some(_) => None,
    }
}

// Two row numbers, where the words that are left spell them and nothing more.
pub(crate) fn two_numbers(mut words: Words) -> Option<(u64, u64)>
    ensures { result ≡ option_map cut_two (two_numbers (words_left words.entry)) }
{
    let first = row_number(words.next()?)?;
    let second = one_number(words)?;
    Some((first, second))
}

// Three row numbers, where the words that are left spell them and nothing more.
pub(crate) fn three_numbers(mut words: Words) -> Option<(u64, u64, u64)>
    ensures { result ≡ option_map cut_three (three_numbers (words_left words.entry)) }
{
    let first = row_number(words.next()?)?;
    let (second, third) = two_numbers(words)?;
    Some((first, second, third))
}

// One value, where the words that are left spell it and nothing more.
pub(crate) fn one_value(mut words: Words) -> Option<i128>
    ensures { result ≡ option_map cut_value (one_value (words_left words.entry)) }
{
    let word = words.next()?;
    match words.next() {
        None => whole_number(word),
        Some(_) => None,
    }
}
