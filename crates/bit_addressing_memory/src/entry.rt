//! One bit: of a word at an index, and of a memory at a place.
//!
//! A place is a number: word times `BITS`, plus the index in that word. Every function here touches the
//! one word that holds its place.

ghost use Rattle.std.specs.Prelude.{◌≡◌, ◌*◌, ◌<◌, length};
ghost use Rattle.bit_addressing_memory.specs.Memory.{entry, indexed, read_by, Writes};
ghost use Rattle.bit_addressing_order.specs.Bits.{with_digit};
ghost use Rattle.bit_addressing_memory.specs.Place.{place_of};

use crate::place::Place;
use bit_addressing_order::{BitIdx, BitOrder, BitRegister};

/// The digit of a word at an index, in the order `O`.
#[tactic(auto, using(bit_addressing_order::proofs::CallerLemmas::test_is_digit_at))]
pub fn read_bit<R: BitRegister, O: BitOrder<R>>(word: R, index: BitIdx<R>) -> bool
    ensures value { result ≡ indexed R.number O.position word index }

    // What the type of the index says.
    ensures within { index < R.BITS }
{
    let selected = word.and(index.select::<O>().into_inner());
    !selected.equals(R::ZERO)
}

/// The word with its digit at an index made `bit`, in the order `O`, and each other digit as it was.
#[tactic(auto, using(bit_addressing_order::proofs::CallerLemmas::made_digits))]
pub fn write_bit<R: BitRegister, O: BitOrder<R>>(word: R, index: BitIdx<R>, bit: bool) -> R
    ensures value { R.number result ≡ with_digit (R.number word) (O.position index) bit }

    // What the type of the index says.
    ensures within { index < R.BITS }
{
    let selector = index.select::<O>().into_inner();
    if bit {
        word.or(selector)
    } else {
        word.and(selector.not())
    }
}

/// The bit at a place of the memory.
pub fn read_entry<R: BitRegister, O: BitOrder<R>>(words: &[R], place: usize) -> bool
    requires within { place < length words.now * R.BITS }
    ensures value { result ≡ entry (read_by R.BitRegister O.position) words.now place }
{
    read_at::<R, O>(words, Place::new(place))
}

/// Makes the bit at a place of the memory `bit`. Every other bit of the memory stays.
pub fn write_entry<R: BitRegister, O: BitOrder<R>>(words: &mut [R], place: usize, bit: bool)
    requires within { place < length words.old * R.BITS }
    ensures written { Writes (read_by R.BitRegister O.position) words.old words.new place bit }
{
    write_at::<R, O>(words, Place::new(place), bit);
}

/// Makes the bit at a place of the memory `bit`, and answers what it was. Every other bit of the memory
/// stays.
pub fn replace_entry<R: BitRegister, O: BitOrder<R>>(
    words: &mut [R],
    place: usize,
    bit: bool,
) -> bool
    requires within { place < length words.old * R.BITS }
    ensures value { result ≡ entry (read_by R.BitRegister O.position) words.old place }
    ensures written { Writes (read_by R.BitRegister O.position) words.old words.new place bit }
{
    let old = read_entry::<R, O>(words, place);
    write_entry::<R, O>(words, place, bit);
    old
}

// The bit at a place of any size.
#[tactic(auto, using(crate::proofs::PlaceLemmas::word_within))]
pub fn read_at<R: BitRegister, O: BitOrder<R>>(words: &[R], place: Place<R>) -> bool
    requires within { place_of R.BITS place < length words.now * R.BITS }
    ensures value { result ≡ entry (read_by R.BitRegister O.position) words.now (place_of R.BITS place) }
{
    read_bit::<R, O>(words[place.word()], place.index())
}

// Writes the bit at a place of any size.
#[tactic(auto, using(crate::proofs::PlaceLemmas::word_within))]
pub fn write_at<R: BitRegister, O: BitOrder<R>>(words: &mut [R], place: Place<R>, bit: bool)
    requires within { place_of R.BITS place < length words.old * R.BITS }
    ensures written { Writes (read_by R.BitRegister O.position)
        words.old words.new (place_of R.BITS place) bit }
{
    let word = place.word();
    words[word] = write_bit::<R, O>(words[word], place.index(), bit);
}
