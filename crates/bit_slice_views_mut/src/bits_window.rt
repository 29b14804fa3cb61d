//! Which bits of its words a writable window shows.

ghost use Rattle.std.specs.Prelude.{◌≡◌, ◌+◌, ◌*◌, ◌<◌, ◌≤◌, ◌^◌, length};
ghost use Rattle.bit_slice_views.specs.SpanLimits.{MAX_BITS};
ghost use Rattle.bit_slice_views_mut.specs.Pair.{pair_len, pair_loan, pair_mid, pair_place, pair_view, PairLies};

use crate::beside::MayWriteBeside;
use crate::bits_mut::BitsMut;
use crate::pair::Pair;
use bit_addressing_memory::BitRegister;
use bit_slice_views::Bits;

/// What can show any bits of its words.
///
/// It is for the crates that lend parts of windows: `show` leaves a window at other bits than those that were lent, and
/// what is written then is beside the window. So it asks what `bit_slice` does not show.
pub trait BitsShown: BitsMut {
    /// Shows another window of the same words.
    fn show(&mut self, key: MayWriteBeside, from: usize, count: usize)
        requires fits { from + count ≤ length (Self.words self.old) * Self.Store.BITS }
        requires short { count ≤ MAX_BITS }
        requires small { from + count < 2 ^ 63 }
        ensures words { Self.words self.new ≡ Self.words self.old }
        ensures lender { Self.lender self.new ≡ Self.lender self.old }
        ensures place { Self.place self.new ≡ from }
        ensures len { length (Self.bits self.new) ≡ count };
}

/// A writable window, which can be cut into parts. A container is none, as its list begins in its first word.
pub trait BitsWindow: BitsShown {
    /// Two parts, the first `mid` bits and the others, of which one is lent at a time.
    final fn split_at_mut(&mut self, mid: usize) -> Pair<'_, Self>
        requires { mid ≤ length (Self.bits self.old) }
        ensures same_reference { pair_loan result ≡ self.entry.ghost_name }
        ensures value { pair_view result ≡ self.old }
        ensures place { pair_place result ≡ Self.place self.old }
        ensures mid { pair_mid result ≡ mid }
        ensures len { pair_len result ≡ length (Self.bits self.old) }

        // What the window's type says.
        ensures short { pair_len result ≤ MAX_BITS }
        ensures small { pair_place result + pair_len result < 2 ^ 63 }

        // What its calls ask.
        ensures lies { PairLies Self.Store.BITS Self.words result }
    {
        let head = self.first_place();
        let len = self.len();
        Pair::new(self, head, mid, len)
    }
}
