//! Pointers to bits: a word number, which may be below 0, and the index of a bit in that word.
//!
//! A pointer is two numbers and no address, so its calls are handed the memory that they touch.

ghost use Rattle.std.specs.Prelude.{◌≡◌, ◌↔◌, IsTrue, ◌+◌, ◌*◌, ◌^◌, ◌<◌, ◌≤◌};
ghost use Rattle.std.specs.Prelude.{pos, ◌+ℤ◌, ◌-ℤ◌, ◌*ℤ◌, neg_ℤ, FitsSigned};
ghost use Rattle.std.specs.Int.{w64, int_wrap};
ghost use Rattle.std.specs.Int.RustNames.{unsigned_abs};
ghost use Rattle.bit_addressing_order.specs.BitIdx.{IsOffset};
ghost use Rattle.bit_addressing.specs.Pointer.{whole_place, StaysIn, WrapsTo};

use bit_addressing_memory::places::Place;
use bit_addressing_order::{BitIdx, BitOrder, BitRegister, Limits};
use std::marker::{Model, PhantomData};

/// A pointer to a bit in the order `O`: the number of a word of type `R`, and the index of a bit in it.
///
/// A contract sees it as these two numbers, `word` and `bit`. The word number is signed, so a pointer
/// may lie before the memory that it is used with. Pointers compare by word and then by bit.
#[derive_where(Clone, Copy, PartialEq, Eq, PartialOrd, Ord, Hash)]
pub struct BitPtr<R: BitRegister, O: BitOrder<R>> {
    word: isize,
    bit: BitIdx<R>,
    #[derive_where(skip)]
    order: PhantomData<O>,
}

impl<R: BitRegister, O: BitOrder<R>> Model for BitPtr<R, O> {
    ghost use Rattle.std.specs.Prelude.{◌<◌, FitsSigned};
    ghost use Rattle.std.specs.Int.{w64};
    ghost use Rattle.bit_addressing.specs.Pointer.{Pointer};

    ghost Value = { Pointer };

    ghost view = { λ pointer. record { word = pointer.word; bit = pointer.bit } };

    ghost invariant = { λ pointer. FitsSigned w64 pointer.word × (pointer.bit < R.BITS) };

    ghost inverse = { λ value. record { word = value.word; bit = value.bit; order = record {} } };
}

/// The pointer that stands for none in particular.
///
/// In bitvec it is a constant of the type itself; here the trait is in scope where it is named.
pub trait Dangling: Copy {
    ghost DANGLING: { Self };

    /// Word 0, bit 0.
    const DANGLING: Self;
}

impl<R: BitRegister, O: BitOrder<R>> Dangling for BitPtr<R, O> {
    ghost use Rattle.std.specs.Prelude.{pos};

    ghost DANGLING = { record { word = pos 0; bit = 0 } };

    const DANGLING: Self = BitPtr {
        word: 0,
        bit: BitIdx::MIN,
        order: PhantomData,
    };
}

// Make.
impl<R: BitRegister, O: BitOrder<R>> BitPtr<R, O> {
    /// The pointer to this bit of the word of this number. Nothing is refused: a word number is no
    /// address that could be misaligned.
    pub fn new(word: isize, bit: BitIdx<R>) -> BitPtr<R, O>
        ensures word { result.word ≡ word }
        ensures bit { result.bit ≡ bit }
    {
        BitPtr {
            word,
            bit,
            order: PhantomData,
        }
    }

    /// The pointer to the first bit of a word.
    pub fn from_ref(_word: &R) -> BitPtr<R, O>
        ensures word { result.word ≡ pos 0 }
        ensures bit { result.bit ≡ 0 }
    {
        BitPtr::DANGLING
    }

    /// The pointer to the first bit of a word, which stays as it is.
    pub fn from_mut(word: &mut R) -> BitPtr<R, O>
        ensures word { result.word ≡ pos 0 }
        ensures bit { result.bit ≡ 0 }
        ensures same { word.new ≡ word.old }
    {
        BitPtr::from_ref(word)
    }

    /// The pointer to the first bit of a memory.
    pub fn from_slice(_words: &[R]) -> BitPtr<R, O>
        ensures word { result.word ≡ pos 0 }
        ensures bit { result.bit ≡ 0 }
    {
        BitPtr::new(0, BitIdx::MIN)
    }

    /// The pointer to the first bit of a memory, which stays as it is.
    pub fn from_mut_slice(words: &mut [R]) -> BitPtr<R, O>
        ensures word { result.word ≡ pos 0 }
        ensures bit { result.bit ≡ 0 }
        ensures same { words.new ≡ words.old }
    {
        BitPtr::from_slice(words)
    }

    /// The pointer to the first bit of a memory, which stays as it is: another name of `from_mut_slice`.
    pub fn from_slice_mut(words: &mut [R]) -> BitPtr<R, O>
        ensures word { result.word ≡ pos 0 }
        ensures bit { result.bit ≡ 0 }
        ensures same { words.new ≡ words.old }
    {
        BitPtr::from_mut_slice(words)
    }
}

// Read.
impl<R: BitRegister, O: BitOrder<R>> BitPtr<R, O> {
    /// The number of the word.
    pub fn address(self) -> isize
        ensures value { result ≡ self.word }
        ensures within { FitsSigned w64 result }
    {
        self.word
    }

    /// The index of the bit in that word.
    pub fn bit(self) -> BitIdx<R>
        ensures value { result ≡ self.bit }
        ensures within { result < R.BITS }
    {
        self.bit
    }

    /// The word number and the index.
    pub fn raw_parts(self) -> (isize, BitIdx<R>)
        ensures word { result.0 ≡ self.word }
        ensures bit { result.1 ≡ self.bit }

        // What the type says.
        ensures word_fits { FitsSigned w64 result.0 }
        ensures bit_within { result.1 < R.BITS }
    {
        (self.word, self.bit)
    }

    /// The word number and the index: another name of `raw_parts`.
    pub fn to_raw_parts(self) -> (isize, BitIdx<R>)
        ensures word { result.0 ≡ self.word }
        ensures bit { result.1 ≡ self.bit }
    {
        self.raw_parts()
    }
}

// Test.
impl<R: BitRegister, O: BitOrder<R>> BitPtr<R, O> {
    /// Whether `offset` may be called: whether the number of the word of the bit `by` bits on fits `isize`.
    pub fn can_offset(self, by: isize) -> bool
        ensures { IsTrue result ↔ StaysIn R.BITS (whole_place R.BITS self +ℤ by) }
    {
        let (word, bit) = self.raw_parts();
        let (words, _) = bit.offset(by);
        fits_on(word, words)
    }

    /// Whether `add` may be called: whether the number of the word of the bit `count` bits on fits `isize`.
    pub fn can_add(self, count: usize) -> bool
        ensures { IsTrue result ↔ StaysIn R.BITS (whole_place R.BITS self +ℤ pos count) }
    {
        let (word, bit) = self.raw_parts();
        let (words, _) = bits_on::<R>(bit, count);
        fits_on(word, words)
    }

    /// Whether `sub` may be called: whether the number of the word of the bit `count` bits back fits `isize`.
    pub fn can_sub(self, count: usize) -> bool
        ensures { IsTrue result ↔ StaysIn R.BITS (whole_place R.BITS self -ℤ pos count) }
    {
        let (word, bit) = self.raw_parts();
        let (words, _) = bits_back::<R>(bit, count);
        fits_on(word, words)
    }

    /// Whether `offset_from` may be called: whether `isize` holds how many bits this pointer lies on from
    /// `origin`.
    pub fn can_offset_from(self, origin: BitPtr<R, O>) -> bool
        ensures { IsTrue result ↔ FitsSigned w64 (whole_place R.BITS self -ℤ whole_place R.BITS origin) }
    {
        let (word, bit) = self.raw_parts();
        let (first, start) = origin.raw_parts();
        let on = distance::<R>(first, start, word, bit);
        on >= isize::MIN as i128 && on <= isize::MAX as i128
    }
}

// Move.
impl<R: BitRegister, O: BitOrder<R>> BitPtr<R, O> {
    /// The pointer `by` bits on, back where `by` is negative. The number of its word stays in `isize`.
    pub fn offset(self, by: isize) -> BitPtr<R, O>
        requires stays { StaysIn R.BITS (whole_place R.BITS self +ℤ by) }
        ensures place { whole_place R.BITS result ≡ whole_place R.BITS self +ℤ by }
        ensures bit { result.bit < R.BITS }
    {
        let (word, bit) = self.raw_parts();
        let (words, bit) = bit.offset(by);
        stepped(word, words, bit)
    }

    /// The pointer `count` bits on. The number of its word stays in `isize`.
    pub fn add(self, count: usize) -> BitPtr<R, O>
        requires stays { StaysIn R.BITS (whole_place R.BITS self +ℤ pos count) }
        ensures place { whole_place R.BITS result ≡ whole_place R.BITS self +ℤ pos count }
        ensures bit { result.bit < R.BITS }
    {
        let (word, bit) = self.raw_parts();
        let (words, bit) = bits_on::<R>(bit, count);
        stepped(word, words, bit)
    }

    /// The pointer `count` bits back. The number of its word stays in `isize`.
    pub fn sub(self, count: usize) -> BitPtr<R, O>
        requires stays { StaysIn R.BITS (whole_place R.BITS self -ℤ pos count) }
        ensures place { whole_place R.BITS result ≡ whole_place R.BITS self -ℤ pos count }
        ensures bit { result.bit < R.BITS }
    {
        let (word, bit) = self.raw_parts();
        let (words, bit) = bits_back::<R>(bit, count);
        stepped(word, words, bit)
    }

    /// The pointer `by` bits on, back where `by` is negative. The number of its word wraps round at the
    /// ends of `isize`.
    pub fn wrapping_offset(self, by: isize) -> BitPtr<R, O>
        ensures { WrapsTo R.BITS self by result }
    {
        let (word, bit) = self.raw_parts();
        let (words, there) = bit.offset(by);
        wrapped(word, words, there)
    }

    /// The pointer `count` bits on. The number of its word wraps round at the ends of `isize`.
    pub fn wrapping_add(self, count: usize) -> BitPtr<R, O>
        ensures { WrapsTo R.BITS self (pos count) result }
    {
        let (word, bit) = self.raw_parts();
        let (words, there) = bits_on::<R>(bit, count);
        wrapped(word, words, there)
    }

    /// The pointer `count` bits back. The number of its word wraps round at the ends of `isize`.
    pub fn wrapping_sub(self, count: usize) -> BitPtr<R, O>
        ensures { WrapsTo R.BITS self (neg_ℤ (pos count)) result }
    {
        let (word, bit) = self.raw_parts();
        let (words, there) = bits_back::<R>(bit, count);
        wrapped(word, words, there)
    }

    /// How many bits this pointer lies on from `origin`, below 0 where it lies before it. The distance
    /// is one that `isize` holds.
    pub fn offset_from(self, origin: BitPtr<R, O>) -> isize
        requires fits { FitsSigned w64 (whole_place R.BITS self -ℤ whole_place R.BITS origin) }
        ensures value { result ≡ whole_place R.BITS self -ℤ whole_place R.BITS origin }
    {
        let (word, bit) = self.raw_parts();
        let (first, start) = origin.raw_parts();
        distance::<R>(first, start, word, bit) as isize
    }
}

// Whether the number of the word so many words on fits.
fn fits_on(word: isize, words: isize) -> bool
    ensures { IsTrue result ↔ FitsSigned w64 (word +ℤ words) }
{
    word.checked_add(words).is_some()
}

// The pointer to a bit of the word so many words on from another, whose number fits.
fn stepped<R: BitRegister, O: BitOrder<R>>(
    word: isize,
    words: isize,
    bit: BitIdx<R>,
) -> BitPtr<R, O>
    requires fits { FitsSigned w64 (word +ℤ words) }
    ensures word { result.word ≡ word +ℤ words }
    ensures bit { result.bit ≡ bit }
{
    BitPtr::new(word + words, bit)
}

// The same, the number wrapped.
fn wrapped<R: BitRegister, O: BitOrder<R>>(
    word: isize,
    words: isize,
    bit: BitIdx<R>,
) -> BitPtr<R, O>
    ensures word { result.word ≡ int_wrap w64 (word +ℤ words) }
    ensures bit { result.bit ≡ bit }
{
    BitPtr::new(word.wrapping_add(words), bit)
}

// How many bits the first bit of the word `to` lies on from that of the word `from`.
fn words_between<R: BitRegister>(from: isize, to: isize) -> i128
    ensures value { result ≡ (to -ℤ from) *ℤ pos R.BITS }
    ensures small { unsigned_abs result ≤ 2 ^ 72 }
{
    (to as i128 - from as i128) * R::BITS as i128
}

// How many words on from index `bit` the bit lies that is `count` bits on, and its index there.
fn bits_on<R: BitRegister>(bit: BitIdx<R>, count: usize) -> (isize, BitIdx<R>)
    ensures offset { IsOffset R.BITS bit (pos count) result.0 result.1 }
{
    let place = Place::<R>::at(0, bit).after(count);
    (place.word() as isize, place.index())
}

// The same, `count` bits back: the number of words is rounded down.
fn bits_back<R: BitRegister>(bit: BitIdx<R>, count: usize) -> (isize, BitIdx<R>)
    ensures offset { IsOffset R.BITS bit (neg_ℤ (pos count)) result.0 result.1 }
{
    let mirrored = BitIdx::<R>::new_unchecked(R::BITS - 1 - bit.into_inner());
    let place = Place::<R>::at(0, mirrored).after(count);
    let index = R::BITS - 1 - place.index().into_inner();
    (negated(place.word()), BitIdx::new_unchecked(index))
}

// How many bits one bit lies on from another.
pub(crate) fn distance<R: BitRegister>(
    from: isize,
    from_bit: BitIdx<R>,
    to: isize,
    to_bit: BitIdx<R>,
) -> i128
    ensures { result ≡ ((to *ℤ pos R.BITS) +ℤ pos to_bit) -ℤ ((from *ℤ pos R.BITS) +ℤ pos from_bit) }
{
    let words = words_between::<R>(from, to);
    words + to_bit.into_inner() as i128 - from_bit.into_inner() as i128
}

// A count below 0.
fn negated(count: usize) -> isize
    requires small { count < 2 ^ 63 }
    ensures value { result ≡ neg_ℤ (pos count) }
{
    -(count as isize)
}
