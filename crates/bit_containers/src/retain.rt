//! Vectors that keep the bits that a predicate chooses.

ghost use Rattle.std.specs.Prelude.{◌≡◌, ◌≤◌, length, take, drop};
ghost use Rattle.bit_slice.specs.Memory.{read_by};
ghost use Rattle.bit_containers.specs.Retained.{Keeps, LeavesFirst};
ghost use Rattle.bit_containers_vector.specs.Vector.{vec_bits};

use bit_containers_vector::BitVec;
use bit_slice::{BitOrder, BitRegister, BitStore, Bits, BitsMut};

/// What lets go of the bits that a predicate does not choose. It takes no memory.
pub trait Retain: Bits {
    /// Leaves the bits at which the predicate answers true, in their order. It is handed each index of the list as it
    /// was, with the bit there, ascending and each once.
    fn retain<F: FnMut(usize, &bool) -> bool>(&mut self, keep: F)
        requires { F.IsAlwaysCallable keep }
        ensures kept { Keeps F.FnMut keep (Self.bits self.old) (Self.bits self.new) };
}

/// The head and the capacity stay, and so does each bit of words that stay visible where no chosen bit comes.
impl<T: BitStore, O: BitOrder<T>> Retain for BitVec<T, O> {
    fn retain<F: FnMut(usize, &bool) -> bool>(&mut self, keep: F)
        requires { F.IsAlwaysCallable keep }
        ensures kept { Keeps F.FnMut keep (vec_bits (read_by T.BitRegister O.position) self.old)
            (vec_bits (read_by T.BitRegister O.position) self.new) }
        ensures left { LeavesFirst (read_by T.BitRegister O.position) self.old self.new }
    {
        let kept = gather(self, keep);
        self.truncate(kept);
    }
}

// Moves the bits at which the predicate answers true to the front, and answers how many they are.
fn gather<V: BitsMut, F: FnMut(usize, &bool) -> bool>(bits: &mut V, mut keep: F) -> usize
    requires { F.IsAlwaysCallable keep }
    ensures kept { Keeps F.FnMut keep (V.bits bits.old) (take result (V.bits bits.new)) }
    ensures most { result ≤ length (V.bits bits.old) }
    ensures rest { drop result (V.bits bits.new) ≡ drop result (V.bits bits.old) }
    ensures len { length (V.bits bits.new) ≡ length (V.bits bits.old) }
    ensures frame { V.frame bits.new ≡ V.frame bits.old }
{
    let mut kept = 0;
    for i in 0..bits.len() {
        let bit = bits.bit(i);
        if keep(i, &bit) {
            bits.set(kept, bit);
            kept += 1;
        }
    }
    kept
}
