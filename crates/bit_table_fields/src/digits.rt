//! Numbers in windows of bits by a digit rule.
//!
//! An order writes the calls that end in `_at`, which have no body here: one whose two constants are false calls the
//! functions of the same names in `digits_by_bits`, but for the orders of this crate, which go by words or by chunks. Users
//! make the calls over windows.

ghost use Rattle.std.specs.Prelude.{◌≡◌, ℕ, ◌+◌, ◌*◌, ◌^◌, ◌<◌, ◌≤◌, Bool, true, false, length};
ghost use Rattle.bit_addressing_memory.specs.Memory.{memory, piece, read_by, with_piece};
ghost use Rattle.bit_addressing_memory.specs.Straight.{Goes};
ghost use Rattle.bit_slice_words.specs.Steps.{Takes};
ghost use Rattle.bit_slice_views.specs.View.{view_bits, view_head};
ghost use Rattle.bit_table_fields.specs.Chunks.{rule_way};
ghost use Rattle.bit_table_fields.specs.Windows.{most_for, number_held};
ghost use Rattle.bit_table_layout.specs.Rows.{field_bits};
ghost use Rattle.bit_table_layout.specs.declared.layout.Rule.TheVariants.{Low, High};

use crate::{digits_by_chunks, digits_by_words};
use bit_addressing_memory::{BitOrder, BitRegister, HiLo, Lsb0, Msb0};
use bit_slice_views::{BitSlice, Bits};
use bit_slice_views_mut::BitsMut;
use bit_slice_words::{FieldOrder, Steps};
use bit_table_layout::Rule;

/// What an order does to move a number into a window and back: the digits lie in it from the lowest on, or from the
/// highest on. A window has 1 to 64 bits, whatever the words and wherever it begins.
///
/// Each call is lent a count of word steps. It takes one at least and at most one a bit; where the constant of its rule
/// is true, at most one for each word that the window touches.
pub trait Digits<R: BitRegister>: BitOrder<R> {
    ghost LOW_WORDS: { Bool };

    /// Whether `load_low` and `store_low` take at most a step for each word that the window touches.
    const LOW_WORDS: bool;

    ghost HIGH_WORDS: { Bool };

    /// Whether `load_high` and `store_high` take at most a step for each word that the window touches.
    const HIGH_WORDS: bool;

    /// The number whose digits the `width` bits from `place` on hold, the lowest first. Where `signed`, the highest
    /// digit is the sign's.
    fn load_low_at(words: &[R], place: usize, width: u32, signed: bool, steps: &mut Steps) -> i128
        requires some { 1 ≤ width }
        requires narrow { width ≤ 64 }
        requires within { place + width ≤ length words.now * R.BITS }
        requires ends { place + width < 2 ^ 64 }
        ensures value { result ≡ number_held Low signed width
            (piece (memory (read_by R.BitRegister Self.position) words.now) place width) }
        ensures steps { Takes steps.old steps.new 1 (most_for LOW_WORDS R.BITS place width) };

    /// Makes the `width` bits from `at` on digits of a number, the lowest first: its `width` lowest. Every other bit
    /// stays. A number has 1 to 64 bits.
    fn store_low_at<V: BitsMut<Store = R, Order = Self>>(
        view: &mut V,
        at: usize,
        width: u32,
        value: i128,
        steps: &mut Steps,
    )
        requires some { 1 ≤ width }
        requires narrow { width ≤ 64 }
        requires within { at + width ≤ length (V.bits view.old) }
        ensures bits { V.bits view.new ≡ with_piece (V.bits view.old) at (field_bits Low width value) }
        ensures len { length (V.bits view.new) ≡ length (V.bits view.old) }
        ensures frame { V.frame view.new ≡ V.frame view.old }
        ensures steps { Takes steps.old steps.new 1 (most_for LOW_WORDS R.BITS (V.place view.old + at) width) };

    /// The number whose digits the `width` bits from `place` on hold, the highest first. Where `signed`, the highest
    /// digit is the sign's.
    fn load_high_at(words: &[R], place: usize, width: u32, signed: bool, steps: &mut Steps) -> i128
        requires some { 1 ≤ width }
        requires narrow { width ≤ 64 }
        requires within { place + width ≤ length words.now * R.BITS }
        requires ends { place + width < 2 ^ 64 }
        ensures value { result ≡ number_held High signed width
            (piece (memory (read_by R.BitRegister Self.position) words.now) place width) }
        ensures steps { Takes steps.old steps.new 1 (most_for HIGH_WORDS R.BITS place width) };

    /// Makes the `width` bits from `at` on digits of a number, the highest first: its `width` lowest. Every other bit
    /// stays. A number has 1 to 64 bits.
    fn store_high_at<V: BitsMut<Store = R, Order = Self>>(
        view: &mut V,
        at: usize,
        width: u32,
        value: i128,
        steps: &mut Steps,
    )
        requires some { 1 ≤ width }
        requires narrow { width ≤ 64 }
        requires within { at + width ≤ length (V.bits view.old) }
        ensures bits { V.bits view.new ≡ with_piece (V.bits view.old) at (field_bits High width value) }
        ensures len { length (V.bits view.new) ≡ length (V.bits view.old) }
        ensures frame { V.frame view.new ≡ V.frame view.old }
        ensures steps { Takes steps.old steps.new 1 (most_for HIGH_WORDS R.BITS (V.place view.old + at) width) };

    /// The number whose digits a window of 1 to 64 bits holds, the lowest first. Where `signed`, the highest digit is
    /// the sign's.
    final fn load_low(view: BitSlice<'_, R, Self>, signed: bool, steps: &mut Steps) -> i128
        requires some { 1 ≤ length (view_bits (read_by R.BitRegister Self.position) view) }
        requires narrow { length (view_bits (read_by R.BitRegister Self.position) view) ≤ 64 }
        ensures value { result ≡ number_held Low signed
            (length (view_bits (read_by R.BitRegister Self.position) view.entry))
            (view_bits (read_by R.BitRegister Self.position) view.entry) }
        ensures steps { Takes steps.old steps.new 1 (most_for LOW_WORDS R.BITS (view_head view.entry)
            (length (view_bits (read_by R.BitRegister Self.position) view.entry))) }
    {
        let (words, head, len) = view.parts();
        Self::load_low_at(words, head as usize, len as u32, signed, steps)
    }

    /// Makes the bits of a window of 1 to 64 bits digits of a number, the lowest first: as many of its lowest. Every
    /// bit beside the window stays.
    final fn store_low<V: BitsMut<Store = R, Order = Self>>(
        view: &mut V,
        value: i128,
        steps: &mut Steps,
    )
        requires some { 1 ≤ length (V.bits view.old) }
        requires narrow { length (V.bits view.old) ≤ 64 }
        ensures bits { V.bits view.new ≡ field_bits Low (length (V.bits view.old)) value }
        ensures len { length (V.bits view.new) ≡ length (V.bits view.old) }
        ensures frame { V.frame view.new ≡ V.frame view.old }
        ensures steps { Takes steps.old steps.new 1 (most_for LOW_WORDS R.BITS (V.place view.old)
            (length (V.bits view.old))) }
    {
        let width = view.len() as u32;
        Self::store_low_at::<V>(view, 0, width, value, steps);
    }

    /// The number whose digits a window of 1 to 64 bits holds, the highest first. Where `signed`, the highest digit is
    /// the sign's.
    final fn load_high(view: BitSlice<'_, R, Self>, signed: bool, steps: &mut Steps) -> i128
        requires some { 1 ≤ length (view_bits (read_by R.BitRegister Self.position) view) }
        requires narrow { length (view_bits (read_by R.BitRegister Self.position) view) ≤ 64 }
        ensures value { result ≡ number_held High signed
            (length (view_bits (read_by R.BitRegister Self.position) view.entry))
            (view_bits (read_by R.BitRegister Self.position) view.entry) }
        ensures steps { Takes steps.old steps.new 1 (most_for HIGH_WORDS R.BITS (view_head view.entry)
            (length (view_bits (read_by R.BitRegister Self.position) view.entry))) }
    {
        let (words, head, len) = view.parts();
        Self::load_high_at(words, head as usize, len as u32, signed, steps)
    }

    /// Makes the bits of a window of 1 to 64 bits digits of a number, the highest first: as many of its lowest. Every
    /// bit beside the window stays.
    final fn store_high<V: BitsMut<Store = R, Order = Self>>(
        view: &mut V,
        value: i128,
        steps: &mut Steps,
    )
        requires some { 1 ≤ length (V.bits view.old) }
        requires narrow { length (V.bits view.old) ≤ 64 }
        ensures bits { V.bits view.new ≡ field_bits High (length (V.bits view.old)) value }
        ensures len { length (V.bits view.new) ≡ length (V.bits view.old) }
        ensures frame { V.frame view.new ≡ V.frame view.old }
        ensures steps { Takes steps.old steps.new 1 (most_for HIGH_WORDS R.BITS (V.place view.old)
            (length (V.bits view.old))) }
    {
        let width = view.len() as u32;
        Self::store_high_at::<V>(view, 0, width, value, steps);
    }
}

/// Marks the orders that have the digits of all that count a word's digits in turn. It names no register, so that an
/// order of another crate, which is not marked, may have digits of its own.
pub trait CountsInTurn {}

impl CountsInTurn for Lsb0 {}

impl CountsInTurn for Msb0 {}

impl<R: BitRegister, O: CountsInTurn + FieldOrder<R>> Digits<R> for O {
    ghost use Rattle.std.specs.Prelude.{not};

    ghost LOW_WORDS = { O.LOW_FIRST };

    const LOW_WORDS: bool = O::LOW_FIRST;

    ghost HIGH_WORDS = { not O.LOW_FIRST };

    const HIGH_WORDS: bool = !O::LOW_FIRST;

    fn load_low_at(words: &[R], place: usize, width: u32, signed: bool, steps: &mut Steps) -> i128 {
        load::<R, O>(O::LOW_FIRST, Rule::Low, words, place, width, signed, steps)
    }

    fn load_high_at(
        words: &[R],
        place: usize,
        width: u32,
        signed: bool,
        steps: &mut Steps,
    ) -> i128 {
        load::<R, O>(
            !O::LOW_FIRST,
            Rule::High,
            words,
            place,
            width,
            signed,
            steps,
        )
    }

    fn store_low_at<V: BitsMut<Store = R, Order = O>>(
        view: &mut V,
        at: usize,
        width: u32,
        value: i128,
        steps: &mut Steps,
    ) {
        store::<V>(O::LOW_FIRST, Rule::Low, view, at, width, value, steps);
    }

    fn store_high_at<V: BitsMut<Store = R, Order = O>>(
        view: &mut V,
        at: usize,
        width: u32,
        value: i128,
        steps: &mut Steps,
    ) {
        store::<V>(!O::LOW_FIRST, Rule::High, view, at, width, value, steps);
    }
}

// The number that the `width` bits from `place` on hold, by words where the digits of the rule lie in a word as the
// positions of the order go, else by a chunk.
#[inline(always)]
fn load<R: BitRegister, O: BitOrder<R>>(
    by_words: bool,
    rule: Rule,
    words: &[R],
    place: usize,
    width: u32,
    signed: bool,
    steps: &mut Steps,
) -> i128
    requires goes { by_words ≡ true → Goes R.BITS O.position (rule_way rule) }
    requires some { 1 ≤ width }
    requires narrow { width ≤ 64 }
    requires within { place + width ≤ length words.now * R.BITS }
    requires ends { place + width < 2 ^ 64 }
    ensures value { result ≡ number_held rule signed width
        (piece (memory (read_by R.BitRegister O.position) words.now) place width) }
    ensures steps { Takes steps.old steps.new 1 (most_for by_words R.BITS place width) }
{
    if by_words {
        return digits_by_words::load::<R, O>(rule, words, place, width, signed, steps);
    }
    digits_by_chunks::load::<R, O>(rule, words, place, width, signed, steps)
}

// The same of a store.
#[inline(always)]
fn store<V: BitsMut>(
    by_words: bool,
    rule: Rule,
    view: &mut V,
    at: usize,
    width: u32,
    value: i128,
    steps: &mut Steps,
)
    requires goes { by_words ≡ true → Goes V.Store.BITS V.Order.position (rule_way rule) }
    requires some { 1 ≤ width }
    requires narrow { width ≤ 64 }
    requires within { at + width ≤ length (V.bits view.old) }
    ensures bits { V.bits view.new ≡ with_piece (V.bits view.old) at (field_bits rule width value) }
    ensures len { length (V.bits view.new) ≡ length (V.bits view.old) }
    ensures frame { V.frame view.new ≡ V.frame view.old }
    ensures steps { Takes steps.old steps.new 1 (most_for by_words V.Store.BITS (V.place view.old + at) width) }
{
    if by_words {
        digits_by_words::store::<V>(rule, view, at, width, value, steps);
        return;
    }
    digits_by_chunks::store::<V>(rule, view, at, width, value, steps);
}

impl<R: BitRegister> Digits<R> for HiLo {
    ghost LOW_WORDS = { false };

    const LOW_WORDS: bool = false;

    ghost HIGH_WORDS = { false };

    const HIGH_WORDS: bool = false;

    fn load_low_at(words: &[R], place: usize, width: u32, signed: bool, steps: &mut Steps) -> i128 {
        digits_by_chunks::load::<R, HiLo>(Rule::Low, words, place, width, signed, steps)
    }

    fn load_high_at(
        words: &[R],
        place: usize,
        width: u32,
        signed: bool,
        steps: &mut Steps,
    ) -> i128 {
        digits_by_chunks::load::<R, HiLo>(Rule::High, words, place, width, signed, steps)
    }

    fn store_low_at<V: BitsMut<Store = R, Order = HiLo>>(
        view: &mut V,
        at: usize,
        width: u32,
        value: i128,
        steps: &mut Steps,
    ) {
        digits_by_chunks::store::<V>(Rule::Low, view, at, width, value, steps);
    }

    fn store_high_at<V: BitsMut<Store = R, Order = HiLo>>(
        view: &mut V,
        at: usize,
        width: u32,
        value: i128,
        steps: &mut Steps,
    ) {
        digits_by_chunks::store::<V>(Rule::High, view, at, width, value, steps);
    }
}
