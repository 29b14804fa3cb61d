//! Numbers in windows by the words that they touch, one step for each: where the digits of the rule lie in a word as the
//! positions of the order go, for `Lsb0` the lowest first and for `Msb0` the highest.

ghost use Rattle.std.specs.Prelude.{◌≡◌, ◌+◌, ◌*◌, ◌^◌, ◌<◌, ◌≤◌, length};
ghost use Rattle.bit_addressing_memory.specs.Memory.{memory, piece, read_by, touched, with_piece};
ghost use Rattle.bit_addressing_memory.specs.Straight.{Goes};
ghost use Rattle.bit_slice_views_mut.specs.Frame.{KeepsBeside};
ghost use Rattle.bit_slice_words.specs.Steps.{Takes};
ghost use Rattle.bit_table_fields.specs.Chunks.{rule_way};
ghost use Rattle.bit_table_fields.specs.Windows.{number_held};
ghost use Rattle.bit_table_layout.specs.Rows.{field_bits};

use crate::digits_by_chunks::{chunk_for, number_in, way_of};
use bit_addressing_memory::{BitOrder, BitRegister};
use bit_slice_chunks::{read_counted, write_counted};
use bit_slice_views_mut::BitsMut;
use bit_slice_words::Steps;
use bit_table_layout::Rule;

/// `Digits::load_low_at` or `Digits::load_high_at`, as the rule says.
#[inline(always)]
pub(crate) fn load<R: BitRegister, O: BitOrder<R>>(
    rule: Rule,
    words: &[R],
    place: usize,
    width: u32,
    signed: bool,
    steps: &mut Steps,
) -> i128
    requires goes { Goes R.BITS O.position (rule_way rule) }
    requires some { 1 ≤ width }
    requires narrow { width ≤ 64 }
    requires within { place + width ≤ length words.now * R.BITS }
    requires ends { place + width < 2 ^ 64 }
    ensures value { result ≡ number_held rule signed width
        (piece (memory (read_by R.BitRegister O.position) words.now) place width) }
    ensures steps { Takes steps.old steps.new 1 (touched R.BITS place width) }
{
    let (chunk, reads) = read_counted::<R, O>(way_of(rule), words, place, width as usize);
    steps.many(reads);
    number_in::<R, O>(rule, chunk, width, signed)
}

/// `Digits::store_low_at` or `Digits::store_high_at`, as the rule says.
#[inline(always)]
pub(crate) fn store<V: BitsMut>(
    rule: Rule,
    view: &mut V,
    at: usize,
    width: u32,
    value: i128,
    steps: &mut Steps,
)
    requires goes { Goes V.Store.BITS V.Order.position (rule_way rule) }
    requires some { 1 ≤ width }
    requires narrow { width ≤ 64 }
    requires within { at + width ≤ length (V.bits view.old) }
    ensures bits { V.bits view.new ≡ with_piece (V.bits view.old) at (field_bits rule width value) }
    ensures len { length (V.bits view.new) ≡ length (V.bits view.old) }
    ensures frame { V.frame view.new ≡ V.frame view.old }
    ensures steps { Takes steps.old steps.new 1 (touched V.Store.BITS (V.place view.old + at) width) }
{
    let place = view.first_place();
    let all = view.len();
    let writes = view.write(|words| {
        write_number::<V::Store, V::Order>(rule, words, place, all, at, width, value)
    });
    steps.many(writes);
}

// Makes the `width` bits from `at` on of a window digits of a number, and answers how many words were put.
#[inline(always)]
fn write_number<R: BitRegister, O: BitOrder<R>>(
    rule: Rule,
    words: &mut [R],
    place: usize,
    all: usize,
    at: usize,
    width: u32,
    value: i128,
) -> usize
    requires goes { Goes R.BITS O.position (rule_way rule) }
    requires some { 1 ≤ width }
    requires narrow { width ≤ 64 }
    requires within { place + all ≤ length words.old * R.BITS }
    requires ends { place + all < 2 ^ 64 }
    requires target { at + width ≤ all }
    ensures list { piece (memory (read_by R.BitRegister O.position) words.new) place all
        ≡ with_piece (piece (memory (read_by R.BitRegister O.position) words.old) place all) at
        (field_bits rule width value) }
    ensures beside { KeepsBeside (read_by R.BitRegister O.position) words.old words.new place all }
    ensures writes { result ≡ touched R.BITS (place + at) width }
{
    let chunk = chunk_for(rule, value, width);
    write_counted::<R, O>(way_of(rule), words, place + at, width as usize, chunk)
}
