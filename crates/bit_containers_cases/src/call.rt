//! A call of a case, and what its words say.

ghost use Rattle.std.specs.Prelude.{◌≤◌};

use bit_containers::{BitSliceMut, BitStore, BitsMut, Msb0};
use std::str::SplitWhitespace;

/// A call by its name, with up to three words.
#[derive(Drop)]
pub struct Call<'a> {
    /// Its name.
    pub name: &'a str,
    /// The word before the name where it is made on a window that is lent, else empty: `lent` by `as_mut_slice`, `window`
    /// by `as_mut_bitslice`.
    pub lent_by: &'a str,
    /// Its words, empty where there are none.
    pub first: &'a str,
    pub second: &'a str,
    pub third: &'a str,
}

impl<'a> Call<'a> {
    /// The next call, up to a word `;` or to the end of the line.
    pub fn read(words: &mut SplitWhitespace<'a>) -> Option<Call<'a>> {
        let mut call = Call {
            name: words.next()?,
            lent_by: "",
            first: "",
            second: "",
            third: "",
        };
        if call.name == "lent" || call.name == "window" {
            call.lent_by = call.name;
            call.name = words.next().unwrap_or("");
        }
        for at in 0..4u8 {
            match words.next() {
                None | Some(";") => break,
                Some(word) => match at {
                    0 => call.first = word,
                    1 => call.second = word,
                    _ => call.third = word,
                },
            }
        }
        Some(call)
    }
}

// The number of a hexadecimal digit.
fn digit(byte: u8) -> u128 {
    match byte {
        b'0'..=b'9' => (byte - b'0') as u128,
        b'a'..=b'f' => (byte - b'a') as u128 + 10,
        _ => 0,
    }
}

/// The word of a text of hexadecimal digits.
pub fn read_word<T: BitStore>(text: &str) -> T {
    let mut value = 0u128;
    for byte in text.bytes() {
        value = value << 4 | digit(byte);
    }
    T::from_value(value)
}

/// Puts the bits of a text of zeros and ones into a memory from place 5 on, and answers how many they are.
pub fn put_bits(room: &mut [u16; 16], text: &str) -> usize
    ensures { result ≤ 200 }
{
    let mut count = 0usize;
    for byte in text.bytes() {
        if count < 200 && (byte == b'0' || byte == b'1') {
            let mut view = BitSliceMut::<u16, Msb0>::from_place_mut(room, 5, 200);
            view.set(count, byte == b'1');
            count = count.wrapping_add(1);
        }
    }
    count.min(200)
}
