//! What is stored is what is loaded.

ghost use Rattle.std.specs.Prelude.{◌≡◌, ◌<◌, ◌≤◌, true, false, length};
ghost use Rattle.bit_slice_fields.specs.Number.{field_bits};
ghost use Rattle.bit_slice_fields.specs.Whole.{wrapped};

use crate::field_mut::BitFieldMut;
use crate::integral::Integral;
use bit_addressing_memory::BitRegister;

/// Stores a number and loads it again, the first segment lowest: the answer is the number modulo `2^len`, its sign
/// extended.
pub fn store_load_le<V: BitFieldMut, M: Integral>(view: &mut V, value: M) -> M
    requires some { 0 < length (V.bits view.old) }
    requires room { length (V.bits view.old) ≤ M.BITS }
    ensures value { M.whole result ≡ wrapped M.signed (length (V.bits view.old)) (M.whole value) }
    ensures bits { V.bits view.new ≡ field_bits V.low_first true V.Store.BITS (V.head view.old)
        (length (V.bits view.old)) (M.whole value) }
    ensures len { length (V.bits view.new) ≡ length (V.bits view.old) }
    ensures frame { V.frame view.new ≡ V.frame view.old }
{
    view.store_le(value);
    view.load_le()
}

/// Stores a number and loads it again, the first segment highest: the answer is the number modulo `2^len`, its sign
/// extended.
pub fn store_load_be<V: BitFieldMut, M: Integral>(view: &mut V, value: M) -> M
    requires some { 0 < length (V.bits view.old) }
    requires room { length (V.bits view.old) ≤ M.BITS }
    ensures value { M.whole result ≡ wrapped M.signed (length (V.bits view.old)) (M.whole value) }
    ensures bits { V.bits view.new ≡ field_bits V.low_first false V.Store.BITS (V.head view.old)
        (length (V.bits view.old)) (M.whole value) }
    ensures len { length (V.bits view.new) ≡ length (V.bits view.old) }
    ensures frame { V.frame view.new ≡ V.frame view.old }
{
    view.store_be(value);
    view.load_be()
}
