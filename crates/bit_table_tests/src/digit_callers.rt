//! What a user of `Digits` proves from its contracts alone.

ghost use Rattle.std.specs.Prelude.{◌≡◌, ◌+◌, ◌-◌, ◌*◌, ◌^◌, ◌<◌, ◌≤◌, true, length};
ghost use Rattle.bit_addressing_memory.specs.Memory.{memory, piece, read_by, with_piece};
ghost use Rattle.bit_slice_views_mut.specs.Frame.{KeepsBeside};
ghost use Rattle.bit_table_fields.specs.Windows.{is_held};
ghost use Rattle.bit_table_layout.specs.Rows.{field_bits};
ghost use Rattle.bit_table_rows.specs.RowMoves.{rows_moved};
ghost use Rattle.bit_table_layout.specs.declared.layout.Rule.TheVariants.{Low, High};

use bit_addressing_memory::{BitIdx, BitOrder, BitRegister, HiLo, Lsb0, Sweep, way_for};
use bit_slice_views::Bits;
use bit_slice_views_mut::{BitSliceMut, BitsMut};
use bit_slice_words::Steps;
use bit_table_fields::Digits;
use bit_table_rows::move_rows;

// Stores a number in a window, the lowest digit first, and loads it again: it is the same one.
#[tactic(auto, using(bit_table_fields::proofs::CallerLemmas::held_back))]
fn back_low<R: BitRegister, O: Digits<R>, V: BitsMut<Store = R, Order = O>>(
    view: &mut V,
    value: i128,
    signed: bool,
) -> i128
    requires some { 1 ≤ length (V.bits view.old) }
    requires narrow { length (V.bits view.old) ≤ 64 }
    requires held { is_held signed (length (V.bits view.old)) value ≡ true }
    ensures same { result ≡ value }
    ensures bits { V.bits view.new ≡ field_bits Low (length (V.bits view.old)) value }
    ensures len { length (V.bits view.new) ≡ length (V.bits view.old) }
    ensures frame { V.frame view.new ≡ V.frame view.old }
{
    let mut steps = Steps::new();
    O::store_low(view, value, &mut steps);
    O::load_low(view.as_bitslice(), signed, &mut steps)
}

// The same, the highest digit first.
#[tactic(auto, using(bit_table_fields::proofs::CallerLemmas::held_back))]
fn back_high<R: BitRegister, O: Digits<R>, V: BitsMut<Store = R, Order = O>>(
    view: &mut V,
    value: i128,
    signed: bool,
) -> i128
    requires some { 1 ≤ length (V.bits view.old) }
    requires narrow { length (V.bits view.old) ≤ 64 }
    requires held { is_held signed (length (V.bits view.old)) value ≡ true }
    ensures same { result ≡ value }
    ensures bits { V.bits view.new ≡ field_bits High (length (V.bits view.old)) value }
    ensures len { length (V.bits view.new) ≡ length (V.bits view.old) }
    ensures frame { V.frame view.new ≡ V.frame view.old }
{
    let mut steps = Steps::new();
    O::store_high(view, value, &mut steps);
    O::load_high(view.as_bitslice(), signed, &mut steps)
}

// Stores a number in a part of a list and loads it again: it is the same one.
#[tactic(auto, using(bit_table_fields::proofs::CallerLemmas::held_back))]
fn back_at<R: BitRegister, O: Digits<R>, V: BitsMut<Store = R, Order = O>>(
    view: &mut V,
    at: usize,
    width: u32,
    value: i128,
) -> i128
    requires some { 1 ≤ width }
    requires narrow { width ≤ 64 }
    requires within { at + width ≤ length (V.bits view.old) }
    requires held { is_held true width value ≡ true }
    ensures same { result ≡ value }
    ensures bits { V.bits view.new ≡ with_piece (V.bits view.old) at (field_bits Low width value) }
    ensures frame { V.frame view.new ≡ V.frame view.old }
{
    let mut steps = Steps::new();
    O::store_low_at::<V>(view, at, width, value, &mut steps);
    O::load_low(
        view.as_bitslice().part(at, width as usize),
        true,
        &mut steps,
    )
}

// Stores a number in a window of one's own words and loads it again.
#[tactic(auto, using(bit_slice_views_mut::proofs::FrameLemmas::frames))]
fn back_in<R: BitRegister, O: Digits<R>>(
    words: &mut [R],
    place: usize,
    width: usize,
    value: i128,
) -> i128
    requires some { 1 ≤ width }
    requires narrow { width ≤ 64 }
    requires ends { place + width < 2 ^ 63 }
    requires within { place + width ≤ length words.old * R.BITS }
    requires held { is_held true width value ≡ true }
    ensures same { result ≡ value }
    ensures list { piece (memory (read_by R.BitRegister O.position) words.new) place width
        ≡ field_bits High width value }
    ensures beside { KeepsBeside (read_by R.BitRegister O.position) words.old words.new place width }
{
    let mut view = BitSliceMut::<R, O>::from_place_mut(words, place, width);
    back_high(&mut view, value, true)
}

// Twelve bits of three bytes, the highest digit first.
fn in_bytes(words: &mut [u8; 3], value: i128) -> i128
    requires held { is_held true 12 value ≡ true }
    ensures same { result ≡ value }
    ensures list { piece (memory (read_by ⟦<u8 as BitRegister>⟧ (⟦<Lsb0 as BitOrder<u8>>⟧.position)) words.new) 5 12
        ≡ field_bits High 12 value }
{
    back_in::<u8, Lsb0>(words, 5, 12, value)
}

// Thirty-three bits of three words of 16, the highest digit first.
fn in_words(words: &mut [u16; 3], value: i128) -> i128
    requires held { is_held true 33 value ≡ true }
    ensures same { result ≡ value }
    ensures list { piece (memory (read_by ⟦<u16 as BitRegister>⟧ (⟦<HiLo as BitOrder<u16>>⟧.position)) words.new) 7 33
        ≡ field_bits High 33 value }
{
    back_in::<u16, HiLo>(words, 7, 33, value)
}

// Makes room for a row before row p of n rows of w bits from bit `head` on: the rows from p on stand one further.
#[tactic(auto, using(bit_table_rows::proofs::RowLemmas::row_places))]
fn opened<R: BitRegister, O: BitOrder<R>>(
    words: &mut [R],
    head: BitIdx<R>,
    p: usize,
    n: usize,
    w: usize,
)
    requires order { p ≤ n }
    requires few { n < 2 ^ 63 }
    requires within { head + (p + 1 + (n - p)) * w ≤ length words.old * R.BITS }
    requires ends { head + (p + 1 + (n - p)) * w < 2 ^ 64 }
    ensures { piece (memory (read_by R.BitRegister O.position) words.new) head ((p + 1 + (n - p)) * w)
        ≡ rows_moved w (piece (memory (read_by R.BitRegister O.position) words.old) head ((p + 1 + (n - p)) * w))
        p (p + 1) n }
{
    let first = head.into_inner() as usize;
    let mut sweep = Sweep::new(words, way_for(first + p * w, first + (p + 1) * w));
    move_rows::<R, O>(&mut sweep, head, p, p + 1, n, w);
}

#[test]
fn a_number_comes_back(rt: HostRuntime) {
    let mut bytes = [0u8; 3];
    assert!(rt; in_bytes(&mut bytes, -1234) == -1234);
    let mut words = [0u16; 3];
    assert!(rt; in_words(&mut words, 0x7654_3210) == 0x7654_3210);
    let mut view = BitSliceMut::<u8, Lsb0>::from_place_mut(&mut bytes, 1, 7);
    assert!(rt; back_low(&mut view, 77, false) == 77);
    let mut part = BitSliceMut::<u8, Lsb0>::from_place_mut(&mut bytes, 2, 20);
    assert!(rt; back_at(&mut part, 3, 9, -200) == -200);
}

#[test]
fn room_is_made_for_a_row(rt: HostRuntime) {
    // rows of three bits, from the lowest digit on: 101, 011, then the first again behind it
    let mut words = [0b0011_0101u8, 0];
    opened::<u8, Lsb0>(&mut words, BitIdx::new_unchecked(0), 0, 2, 3);
    assert!(rt; words == [0b1010_1101, 0b0000_0001]);
}
