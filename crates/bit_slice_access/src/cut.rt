//! A window cut into two parts, to write.

ghost use Rattle.std.specs.Prelude.{◌≡◌, ◌-◌, ◌<◌, ◌≤◌, ◌↔◌, IfSome, IsSome, length};
ghost use Rattle.bit_slice_access.specs.Shows.{SplitsAt};
ghost use Rattle.bit_slice_views_mut.specs.Pair.{pair_loan};

use bit_slice_views_mut::{Bits, BitsMut, BitsWindow, Pair};

/// The cuts of a window beside `split_at_mut`: of every `BitsWindow`.
pub trait BitsCut: BitsWindow {
    /// The first bit as a part of its own, and the others: one of them is lent at a time. `None` of a window without
    /// bits.
    final fn split_first_mut(&mut self) -> Option<Pair<'_, Self>>
        ensures variant { IsSome result ↔ (0 < length (Self.bits self.old)) }
        ensures same_reference { IfSome result (λ pair. pair_loan pair ≡ self.entry.ghost_name) }
        ensures splits { IfSome result (λ pair. SplitsAt Self.place Self.bits self.old 1 pair) }
    {
        if self.is_empty() {
            return None;
        }
        Some(self.split_at_mut(1))
    }

    /// All bits but the last, and the last as a part of its own: one of them is lent at a time. `None` of a window
    /// without bits.
    final fn split_last_mut(&mut self) -> Option<Pair<'_, Self>>
        ensures variant { IsSome result ↔ (0 < length (Self.bits self.old)) }
        ensures same_reference { IfSome result (λ pair. pair_loan pair ≡ self.entry.ghost_name) }
        ensures splits { IfSome result (λ pair.
            SplitsAt Self.place Self.bits self.old (length (Self.bits self.old) - 1) pair) }
    {
        let len = self.len();
        if len == 0 {
            return None;
        }
        Some(self.split_at_mut(len - 1))
    }

    /// What `split_at_mut` does.
    final fn split_at_unchecked_mut(&mut self, mid: usize) -> Pair<'_, Self>
        requires { mid ≤ length (Self.bits self.old) }
        ensures same_reference { pair_loan result ≡ self.entry.ghost_name }
        ensures splits { SplitsAt Self.place Self.bits self.old mid result }
    {
        self.split_at_mut(mid)
    }
}

impl<V: BitsWindow> BitsCut for V {}
