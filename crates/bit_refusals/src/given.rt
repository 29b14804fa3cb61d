//! What a call of a list is given: words and a place in them, and others.

use bit_addressing_sample_orders::texts::{number, read_words};
use bit_table::containers::{BitOrder, BitSlice, BitStore, BitVec, Bits, Msb0};
use std::alloc::{AllocError, Global};
use std::str::SplitWhitespace;

// The bits that a line may have, so that no call meets the limit of lists.
const MOST: usize = 1000;

/// The words of a line behind the storage.
#[derive(Drop)]
pub struct Given<'a, T> {
    /// The name of the call.
    pub call: &'a str,
    /// The words of the list, of the same storage.
    pub words: Vec<T>,
    /// The index of its first bit.
    pub head: usize,
    /// How many bits it has.
    pub len: usize,
    /// More words, in hexadecimal.
    pub more: &'a str,
    /// Whether room is reserved before the call.
    pub roomy: bool,
}

impl<'a, T: BitStore> Given<'a, T> {
    /// Reads the words: the call, the list's words, head and length, more words, and perhaps `room`.
    pub fn read(alloc: Global, mut words: SplitWhitespace<'a>) -> Result<Given<'a, T>, AllocError> {
        let call = words.next().unwrap_or("");
        Ok(Given {
            call,
            words: read_words::<T>(alloc, words.next().unwrap_or(""))?,
            head: number(words.next().unwrap_or("")),
            len: number(words.next().unwrap_or("")),
            more: words.next().unwrap_or(""),
            roomy: words.next().unwrap_or("") == "room",
        })
    }

    /// The list as a vector in words of its own, with room for a thousand bits more where the line asks for it. A line that
    /// says no list is given an empty one.
    pub fn vector<O: BitOrder<T>>(&self, alloc: Global) -> Result<BitVec<T, O>, AllocError> {
        let words = Vec::from_slice(alloc, self.words.as_slice())?;
        let most = words.len().saturating_mul(T::BITS as usize);
        let (head, len) = (self.head, self.len);
        if head >= T::BITS as usize || len > MOST || head + len > most {
            return Ok(BitVec::new(alloc));
        }
        let mut vector = BitVec::from_place(words, head, len);
        if self.roomy && vector.len() <= MOST {
            vector.reserve(MOST)?;
        }
        Ok(vector)
    }

    /// The list as a window.
    pub fn window<O: BitOrder<T>>(&self) -> BitSlice<'_, T, O> {
        let words = self.words.as_slice();
        let most = words.len().saturating_mul(T::BITS as usize);
        let (head, len) = (self.head, self.len);
        if len > MOST || head > MOST || head + len > most {
            return BitSlice::empty();
        }
        BitSlice::from_place(words, head, len)
    }

    /// The other words.
    pub fn more_words(&self, alloc: Global) -> Result<Vec<T>, AllocError> {
        read_words::<T>(alloc, self.more)
    }

    /// The same as a list of another storage.
    pub fn others(&self, alloc: Global) -> Result<BitVec<u16, Msb0>, AllocError> {
        let words = read_words::<u16>(alloc, self.more)?;
        match BitVec::try_from_vec(words) {
            Ok(others) => Ok(others),
            Err(_) => Ok(BitVec::new(alloc)),
        }
    }
}
