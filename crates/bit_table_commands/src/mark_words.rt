//! Letters, tests and bytes that words spell.
ghost use Rattle.std.specs.Prelude.{◌≡◌, option_map};
ghost use Rattle.std.specs.Option.{option_copied};
ghost use Rattle.std.specs.Result.{result_ok};
ghost use Rattle.hex.specs.Hex.{decode_of};
ghost use Rattle.bit_table_layout.specs.LineWordsLeft.{words_left};
ghost use Rattle.bit_table_commands.specs.Commands.{bytes_in, letter_in, one_letter, test_and_value, test_in, test_of};
ghost use Rattle.bit_table_commands.specs.Commands.{two_letters};
ghost use Rattle.bit_table_commands.specs.CommandSteps.{are_digits, bytes_of_digits, cut_test};

use super::number_words::one_value;
use super::test::Test;
use bit_table_layout::{Letter, Words};

// The letter that a word is.
pub(crate) fn letter(word: &[u8]) -> Option<Letter>
    ensures { result ≡ letter_in word.now }
{
    match word {
        [byte] => Letter::new(*byte),
        _ => None,
    }
}

// One letter, where it is the only word that is left.
pub(crate) fn one_letter(mut words: Words) -> Option<Letter>
    ensures { result ≡ one_letter (words_left words.entry) }
{
    let word = words.next()?;
    match words.next() {
        None => letter(word),
        Some(_) => None,
    }
}

// Two letters, where they are the words that are left.
pub(crate) fn two_letters(mut words: Words) -> Option<(Letter, Letter)>
    ensures { result ≡ two_letters (words_left words.entry) }
{
    let first = letter(words.next()?)?;
    let second = one_letter(words)?;
    Some((first, second))
}

// The test that a byte is.
fn test_of(byte: u8) -> Option<Test>
    ensures { result ≡ test_of byte }
{
    match byte {
        b'<' => Some(Test::Below),
        b'=' => Some(Test::Equal),
        b'>' => Some(Test::Above),
        _ => None,
    }
}

// The test that a word is.
fn test(word: &[u8]) -> Option<Test>
    ensures { result ≡ test_in word.now }
{
    match word {
        [byte] => test_of(*byte),
        _ => None,
    }
}

// A test and a value, and nothing more.
pub(crate) fn test_and_value(mut words: Words) -> Option<(Test, i128)>
    ensures { result ≡ option_map cut_test (test_and_value (words_left words.entry)) }
{
    let test = test(words.next()?)?;
    let value = one_value(words)?;
    Some((test, value))
}

// Whether a word is hexadecimal digits, two a byte.
fn are_digits(word: &[u8]) -> bool
    ensures { result ≡ are_digits word.now }
{
    word.len() % 2 == 0 && word.iter().all(|byte| byte.is_ascii_hexdigit())
}

// A word that is hexadecimal digits, two a byte.
fn digits(word: &[u8]) -> Option<&[u8]>
    ensures { option_map bytes_of_digits (option_copied result) ≡ result_ok (decode_of word.now) }
{
    if are_digits(word) { Some(word) } else { None }
}

// The digits of bytes: those of the only word that is left, or none where there is no word.
pub(crate) fn digits_of_bytes<'a>(mut words: Words<'a>) -> Option<&'a [u8]>
    ensures { option_map bytes_of_digits (option_copied result) ≡ bytes_in (words_left words.entry) }
{
    let Some(word) = words.next() else {
        return Some(&[]);
    };
    match words.next() {
        None => digits(word),
        Some(_) => None,
    }
}
