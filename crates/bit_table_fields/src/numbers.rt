//! One number in bits of whatever shows them, by a digit rule.

ghost use Rattle.std.specs.Prelude.{◌≡◌, ◌+◌, ◌%◌, ◌≤◌, length};
ghost use Rattle.bit_addressing_memory.specs.Memory.{piece, with_piece};
ghost use Rattle.bit_slice_words.specs.Steps.{Takes};
ghost use Rattle.bit_table_fields.specs.Windows.{by_rule, most_for, number_held};
ghost use Rattle.bit_table_layout.specs.Rows.{field_bits};

use crate::digits::Digits;
use bit_slice_views::Bits;
use bit_slice_views_mut::BitsMut;
use bit_slice_words::Steps;
use bit_table_layout::Rule;

/// Makes the `width` bits from `at` on digits of a number: its `width` lowest, in the order of the rule. Every other
/// bit stays. A number has 1 to 64 bits.
///
/// The word steps that this takes are counted.
pub fn store_number<V: BitsMut>(
    view: &mut V,
    at: usize,
    rule: Rule,
    width: u32,
    value: i128,
    steps: &mut Steps,
)
where
    V::Order: Digits<V::Store>,
    requires some { 1 ≤ width }
    requires narrow { width ≤ 64 }
    requires within { at + width ≤ length (V.bits view.old) }
    ensures bits { V.bits view.new ≡ with_piece (V.bits view.old) at (field_bits rule width value) }
    ensures len { length (V.bits view.new) ≡ length (V.bits view.old) }
    ensures frame { V.frame view.new ≡ V.frame view.old }

    // At most one a bit, or one for each word that they touch, as the order says of the rule.
    ensures steps { Takes steps.old steps.new 1
        (most_for (by_rule rule V.Order.LOW_WORDS V.Order.HIGH_WORDS) V.Store.BITS (V.place view.old + at) width) }
{
    match rule {
        Rule::Low => V::Order::store_low_at(view, at, width, value, steps),
        Rule::High => V::Order::store_high_at(view, at, width, value, steps),
    }
}

/// The number whose digits the `width` bits from `at` on hold, in the order of the rule. Where `signed`, the highest
/// digit is the sign's. A number has 1 to 64 bits.
///
/// The word steps that this takes are counted.
pub fn load_number<V: Bits>(
    view: &V,
    at: usize,
    rule: Rule,
    width: u32,
    signed: bool,
    steps: &mut Steps,
) -> i128
where
    V::Order: Digits<V::Store>,
    requires some { 1 ≤ width }
    requires narrow { width ≤ 64 }
    requires within { at + width ≤ length (V.bits view.now) }
    ensures value { result ≡ number_held rule signed width (piece (V.bits view.now) at width) }

    // At most one a bit, or one for each word that they touch, as the order says of the rule.
    ensures steps { Takes steps.old steps.new 1
        (most_for (by_rule rule V.Order.LOW_WORDS V.Order.HIGH_WORDS) V.Store.BITS
        ((V.start view.now + at) % V.Store.BITS) width) }
{
    let held = view.as_bitslice().part(at, width as usize);
    match rule {
        Rule::Low => V::Order::load_low(held, signed, steps),
        Rule::High => V::Order::load_high(held, signed, steps),
    }
}
