//! What a user of the crate proves from its contracts alone.

ghost use Rattle.std.specs.Prelude.{◌≡◌, ◌≢◌, ℕ, ◌+◌, ◌*◌, ◌<◌, pos, ◌+ℤ◌, ◌-ℤ◌, ◌*ℤ◌, length, true, false, IfSome};
ghost use Rattle.bit_addressing.specs.Memory.{entry, read_by};
ghost use Rattle.bit_addressing.specs.Pointer.{StaysIn, whole_place};

use bit_addressing::entries::{read_entry, write_entry};
use bit_addressing::{BitIdx, BitOrder, BitPtr, BitPtrRange, BitRegister};

/// Writes two neighbouring places, perhaps of one word. Both are known then, and all else is as it was.
pub fn write_two<R: BitRegister, O: BitOrder<R>>(
    words: &mut [R],
    place: usize,
    bit: bool,
    next: usize,
    next_bit: bool,
)
    requires neighbours { next ≡ place + 1 }
    requires within { next < length words.old * R.BITS }
    ensures first { entry (read_by R.BitRegister O.position) words.new place ≡ bit }
    ensures second { entry (read_by R.BitRegister O.position) words.new next ≡ next_bit }
    ensures others { (p : ℕ) → p ≢ place → p ≢ next
        → entry (read_by R.BitRegister O.position) words.new p
        ≡ entry (read_by R.BitRegister O.position) words.old p }
{
    write_entry::<R, O>(words, place, bit);
    write_entry::<R, O>(words, next, next_bit);
}

/// Writes a place and reads it: what is written is read.
pub fn written_then_read<R: BitRegister, O: BitOrder<R>>(words: &mut [R], place: usize) -> bool
    requires { place < length words.old * R.BITS }
    ensures { result ≡ true }
{
    write_entry::<R, O>(words, place, true);
    read_entry::<R, O>(words, place)
}

/// The distance back from where a pointer was moved to is what it was moved by.
#[tactic(auto, using(std::proofs::lemmas::Int::ints))]
pub fn moved_distance<R: BitRegister, O: BitOrder<R>>(word: isize, index: u8, by: isize) -> isize
    requires index { index < R.BITS }
    requires stays { StaysIn R.BITS (((word *ℤ pos R.BITS) +ℤ pos index) +ℤ by) }
    ensures { result ≡ by }
{
    let bit = BitIdx::<R>::new_unchecked(index);
    let far = BitPtr::<R, O>::new(word, bit).offset(by);
    far.offset_from(BitPtr::new(word, bit))
}

/// The pointers from one up to before another, where these are the ends of a range: by comparing them, and by the test
/// of their distance.
pub fn range_between<R: BitRegister, O: BitOrder<R>>(
    start: BitPtr<R, O>,
    end: BitPtr<R, O>,
) -> Option<BitPtrRange<R, O>>
    ensures { IfSome result (λ range. pos range.len ≡ whole_place R.BITS end -ℤ whole_place R.BITS start) }
{
    if start <= end && end.can_offset_from(start) {
        Some(BitPtrRange::from_range(start..end))
    } else {
        None
    }
}
