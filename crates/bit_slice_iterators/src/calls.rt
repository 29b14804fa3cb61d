//! The bits of whatever shows bits, one after another.

ghost use Rattle.std.specs.Prelude.{◌≡◌, true, false};
ghost use Rattle.bit_slice_views.specs.Found.{is_bit};
ghost use Rattle.bit_slice_iterators.specs.Indices.{indices};

use crate::indices::{IterOnes, IterZeros};
use crate::iter::Iter;
use bit_slice_views::Bits;

/// The bits of a list one after another, and the indices of its ones and zeros: of every `Bits`.
pub trait BitsIter: Bits {
    /// The bits, in order.
    final fn iter(&self) -> Iter<'_, Self::Store, Self::Order>
        ensures bits { result.bits ≡ Self.bits self.now }
        ensures head { result.head ≡ Self.start self.now }
    {
        Iter::new(self.as_bitslice())
    }

    /// What `iter` does.
    final fn into_iter(&self) -> Iter<'_, Self::Store, Self::Order>
        ensures bits { result.bits ≡ Self.bits self.now }
        ensures head { result.head ≡ Self.start self.now }
    {
        self.iter()
    }

    /// The indices of the bits that are 1, ascending.
    final fn iter_ones(&self) -> IterOnes<'_, Self::Store, Self::Order>
        ensures { result ≡ indices (is_bit true) 0 (Self.bits self.now) }
    {
        IterOnes::new(self.as_bitslice())
    }

    /// The indices of the bits that are 0, ascending.
    final fn iter_zeros(&self) -> IterZeros<'_, Self::Store, Self::Order>
        ensures { result ≡ indices (is_bit false) 0 (Self.bits self.now) }
    {
        IterZeros::new(self.as_bitslice())
    }
}

impl<V: Bits> BitsIter for V {}
