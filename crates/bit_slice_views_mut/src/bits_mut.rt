//! What is written of a list of bits, whatever lends it.

ghost use Rattle.std.specs.Prelude.{◌≡◌, ℕ, ◌+◌, ◌-◌, ◌*◌, ◌%◌, ◌<◌, ◌≤◌, ◌^◌, ◌++◌, ◌&&◌, ◌||◌, List, Bool, false, not};
ghost use Rattle.std.specs.Prelude.{length, map, min};
ghost use Rattle.std.specs.Prelude.{drop, replicate, reverse, slice_index_or, slice_set, take};
ghost use Rattle.std.specs.Bool.{xor};
ghost use Rattle.std.specs.Fn.{FnOnceReturnsAtMut};
ghost use Rattle.bit_addressing_memory.specs.Memory.{memory, piece, read_by, touched, with_piece};
ghost use Rattle.bit_addressing_memory.specs.Moves.{changed};
ghost use Rattle.bit_slice_views.specs.SpanLimits.{MAX_BITS};
ghost use Rattle.bit_slice_views_mut.specs.Combined.{combined};
ghost use Rattle.bit_slice_views_mut.specs.Frame.{Frame, frame_of, KeepsBeside};

use crate::beside::MayWriteBeside;
use crate::combine::{and_window, or_window, xor_window};
use crate::paths::copy_path;
use crate::windows::{copy_window, fill_window, move_window};
use bit_addressing_memory::{BitRegister, write_entry};
use bit_slice_views::Bits;
use bit_slice_views::words::{
    WordPaths, not_in, reverse_in, rotate_left_in, shift_left_in, shift_right_in,
};

/// What writes its bits and leaves all others: a writable window, and each container.
///
/// A contract sees its list as `bits`, and what no write changes as `frame`: whose words they are, and their bits before
/// and behind the list.
pub trait BitsMut: Bits {
    ghost Lender: { Type 0 };

    // Whose words it writes; of a container, what it has beside them.
    ghost lender: { Self → Lender };

    ghost words: { Self → List Self.Store };

    // The place of its first bit in these words.
    ghost place: { Self → ℕ };

    ghost frame: { Self → Frame Lender };

    /// The place of the first bit in the words.
    fn first_place(&self) -> usize
        ensures value { result ≡ place self.now }
        ensures short { length (Self.bits self.now) ≤ MAX_BITS }
        ensures small { place self.now + length (Self.bits self.now) < 2 ^ 63 };

    /// Lends the words to a function, which keeps how many there are.
    ///
    /// All words, those beside the window too: it is for the crates that make windows, and `write` is for all others.
    fn with_words<A, F: FnOnce(&mut [Self::Store]) -> A>(&mut self, key: MayWriteBeside, f: F) -> A
        requires callable { (w : _) → w.now ≡ words self.old → F.pre f w }
        requires keeps { (w : _) (r : A) (a : _) → FnOnceReturnsAtMut F.FnOnce f w r a → length a ≡ length w }
        ensures words { FnOnceReturnsAtMut F.FnOnce f (words self.old) result (words self.new) }
        ensures lender { lender self.new ≡ lender self.old }
        ensures place { place self.new ≡ place self.old }
        ensures len { length (Self.bits self.new) ≡ length (Self.bits self.old) }
        ensures count { length (words self.new) ≡ length (words self.old) };

    ghost window: { (v : Self) → Self.bits v
        ≡ piece (memory (read_by Self.Store.BitRegister Self.Order.position) (words v))
        (place v) (length (Self.bits v)) };

    ghost fits: { (v : Self) → place v + length (Self.bits v) ≤ length (words v) * Self.Store.BITS };

    ghost framed: { (v : Self) → frame v
        ≡ frame_of (read_by Self.Store.BitRegister Self.Order.position)
        (lender v) (words v) (place v) (length (Self.bits v)) };

    ghost starts: { (v : Self) → Self.start v ≡ place v % Self.Store.BITS };

    /// Lends the words to a function that keeps each bit outside the window.
    final fn write<A, F: FnOnce(&mut [Self::Store]) -> A>(&mut self, f: F) -> A
        requires callable { (w : _) → w.now ≡ words self.old → F.pre f w }
        requires beside { (w : _) (r : A) (a : _) → FnOnceReturnsAtMut F.FnOnce f w r a
            → KeepsBeside (read_by Self.Store.BitRegister Self.Order.position) w a
            (place self.old) (length (Self.bits self.old)) }
        ensures words { FnOnceReturnsAtMut F.FnOnce f (words self.old) result (words self.new) }
        ensures place { place self.new ≡ place self.old }
        ensures len { length (Self.bits self.new) ≡ length (Self.bits self.old) }
        ensures lender { lender self.new ≡ lender self.old }
        ensures frame { frame self.new ≡ frame self.old }
    {
        self.with_words(MayWriteBeside, f)
    }

    // ---- change

    /// Makes bit `i` `bit`.
    #[tactic(auto, using(crate::proofs::FrameLemmas::frames))]
    final fn set(&mut self, i: usize, bit: bool)
        requires { i < length (Self.bits self.old) }
        ensures bits { Self.bits self.new ≡ slice_set (Self.bits self.old) i bit }
        ensures len { length (Self.bits self.new) ≡ length (Self.bits self.old) }
        ensures frame { frame self.new ≡ frame self.old }
    {
        let at = self.first_place() + i;
        self.write(|words| write_entry::<Self::Store, Self::Order>(words, at, bit));
    }

    /// Makes bit `i` `bit`, and answers what it was.
    final fn replace(&mut self, i: usize, bit: bool) -> bool
        requires { i < length (Self.bits self.old) }
        ensures was { result ≡ slice_index_or (Self.bits self.old) i false }
        ensures bits { Self.bits self.new ≡ slice_set (Self.bits self.old) i bit }
        ensures len { length (Self.bits self.new) ≡ length (Self.bits self.old) }
        ensures frame { frame self.new ≡ frame self.old }
    {
        let was = self.bit(i);
        self.set(i, bit);
        was
    }

    /// Exchanges bits `i` and `j`.
    final fn swap(&mut self, i: usize, j: usize)
        requires first { i < length (Self.bits self.old) }
        requires second { j < length (Self.bits self.old) }
        ensures bits { Self.bits self.new ≡ slice_set
            (slice_set (Self.bits self.old) i (slice_index_or (Self.bits self.old) j false))
            j (slice_index_or (Self.bits self.old) i false) }
        ensures len { length (Self.bits self.new) ≡ length (Self.bits self.old) }
        ensures frame { frame self.new ≡ frame self.old }
    {
        let second = self.bit(j);
        let first = self.replace(i, second);
        self.set(j, first);
    }

    /// Makes each bit `bit`.
    #[tactic(auto, using(crate::proofs::FrameLemmas::frames, crate::proofs::WordLists::filled_list))]
    final fn fill(&mut self, bit: bool)
        ensures bits { Self.bits self.new ≡ replicate (length (Self.bits self.old)) bit }
        ensures len { length (Self.bits self.new) ≡ length (Self.bits self.old) }
        ensures frame { frame self.new ≡ frame self.old }
    {
        let place = self.first_place();
        let len = self.len();
        self.write(|words| fill_window::<Self::Store, Self::Order>(words, place, len, bit));
    }

    /// Flips each bit: what `!` does.
    #[tactic(auto, using(crate::proofs::FrameLemmas::frames, crate::proofs::WordLists::inverted_list))]
    final fn invert(&mut self)
        ensures bits { Self.bits self.new ≡ map not (Self.bits self.old) }
        ensures len { length (Self.bits self.new) ≡ length (Self.bits self.old) }
        ensures frame { frame self.new ≡ frame self.old }
    {
        let place = self.first_place();
        let len = self.len();
        self.write(|words| not_in::<Self::Store, Self::Order>(words, place, len));
    }

    /// Turns the bits round: the last becomes the first.
    #[tactic(auto, using(crate::proofs::FrameLemmas::frames, crate::proofs::WordLists::reversed_list))]
    final fn reverse(&mut self)
        ensures bits { Self.bits self.new ≡ reverse (Self.bits self.old) }
        ensures len { length (Self.bits self.new) ≡ length (Self.bits self.old) }
        ensures frame { frame self.new ≡ frame self.old }
    {
        let place = self.first_place();
        let len = self.len();
        self.write(|words| reverse_in::<Self::Store, Self::Order>(words, place, len));
    }

    /// Moves each bit `by` places towards the first one; the first `by` become the last.
    #[tactic(auto, using(crate::proofs::FrameLemmas::frames, crate::proofs::WordLists::rotated_left_list))]
    final fn rotate_left(&mut self, by: usize)
        requires { by ≤ length (Self.bits self.old) }
        ensures bits { Self.bits self.new ≡ drop by (Self.bits self.old) ++ take by (Self.bits self.old) }
        ensures len { length (Self.bits self.new) ≡ length (Self.bits self.old) }
        ensures frame { frame self.new ≡ frame self.old }
    {
        let place = self.first_place();
        let len = self.len();
        self.write(|words| rotate_left_in::<Self::Store, Self::Order>(words, place, len, by));
    }

    /// Moves each bit `by` places towards the last one; the last `by` become the first.
    final fn rotate_right(&mut self, by: usize)
        requires { by ≤ length (Self.bits self.old) }
        ensures bits { Self.bits self.new
            ≡ drop (length (Self.bits self.old) - by) (Self.bits self.old)
            ++ take (length (Self.bits self.old) - by) (Self.bits self.old) }
        ensures len { length (Self.bits self.new) ≡ length (Self.bits self.old) }
        ensures frame { frame self.new ≡ frame self.old }
    {
        self.rotate_left(self.len() - by);
    }

    /// Moves each bit `by` places towards the first one: the first `by` are gone, and zeros come in at the end.
    #[tactic(auto, using(crate::proofs::FrameLemmas::frames, crate::proofs::WordLists::shifted_left_list))]
    final fn shift_left(&mut self, by: usize)
        ensures bits { Self.bits self.new
            ≡ drop by (Self.bits self.old) ++ replicate (min by (length (Self.bits self.old))) false }
        ensures len { length (Self.bits self.new) ≡ length (Self.bits self.old) }
        ensures frame { frame self.new ≡ frame self.old }
    {
        let place = self.first_place();
        let len = self.len();
        self.write(|words| shift_left_in::<Self::Store, Self::Order>(words, place, len, by));
    }

    /// Moves each bit `by` places towards the last one: the last `by` are gone, and zeros come in at the beginning.
    #[tactic(auto, using(crate::proofs::FrameLemmas::frames, crate::proofs::WordLists::shifted_right_list))]
    final fn shift_right(&mut self, by: usize)
        ensures bits { Self.bits self.new ≡ replicate (min by (length (Self.bits self.old))) false
            ++ take (length (Self.bits self.old) - by) (Self.bits self.old) }
        ensures len { length (Self.bits self.new) ≡ length (Self.bits self.old) }
        ensures frame { frame self.new ≡ frame self.old }
    {
        let place = self.first_place();
        let len = self.len();
        self.write(|words| shift_right_in::<Self::Store, Self::Order>(words, place, len, by));
    }

    /// Another name of `shift_left`.
    final fn shift_start(&mut self, by: usize)
        ensures bits { Self.bits self.new
            ≡ drop by (Self.bits self.old) ++ replicate (min by (length (Self.bits self.old))) false }
        ensures len { length (Self.bits self.new) ≡ length (Self.bits self.old) }
        ensures frame { frame self.new ≡ frame self.old }
    {
        self.shift_left(by);
    }

    /// Another name of `shift_right`.
    final fn shift_end(&mut self, by: usize)
        ensures bits { Self.bits self.new ≡ replicate (min by (length (Self.bits self.old))) false
            ++ take (length (Self.bits self.old) - by) (Self.bits self.old) }
        ensures len { length (Self.bits self.new) ≡ length (Self.bits self.old) }
        ensures frame { frame self.new ≡ frame self.old }
    {
        self.shift_right(by);
    }

    // ---- copy

    /// Makes the bits those of another list as long, whatever its words and their order.
    #[tactic(auto, using(crate::proofs::FrameLemmas::frames, crate::proofs::WordLists::copied_list))]
    final fn clone_from_bitslice<V: Bits>(&mut self, other: &V)
        requires { length (V.bits other.now) ≡ length (Self.bits self.old) }
        ensures bits { Self.bits self.new ≡ V.bits other.now }
        ensures len { length (Self.bits self.new) ≡ length (Self.bits self.old) }
        ensures frame { frame self.new ≡ frame self.old }
    {
        let place = self.first_place();
        let (others, head, len) = other.as_bitslice().parts();
        self.write(|words| {
            copy_window::<Self::Store, Self::Order, V::Store, V::Order>(
                words,
                place,
                others,
                head as usize,
                len,
            )
        });
    }

    /// Makes the bits those of another list as long, of the same words and order, by their word path.
    #[tactic(auto, using(crate::proofs::FrameLemmas::frames))]
    final fn copy_from_bitslice<V: Bits<Store = Self::Store, Order = Self::Order>>(
        &mut self,
        other: &V,
    )
    where
        Self::Order: WordPaths<Self::Store>,
        requires { length (V.bits other.now) ≡ length (Self.bits self.old) }
        ensures bits { Self.bits self.new ≡ V.bits other.now }
        ensures len { length (Self.bits self.new) ≡ length (Self.bits self.old) }
        ensures frame { frame self.new ≡ frame self.old }
    {
        let place = self.first_place();
        let (others, head, len) = other.as_bitslice().parts();
        self.write(|words| {
            copy_path::<Self::Store, Self::Order>(words, place, others, head as usize, len)
        });
    }

    /// Another name of `clone_from_bitslice`.
    final fn clone_from_slice<V: Bits>(&mut self, other: &V)
        requires { length (V.bits other.now) ≡ length (Self.bits self.old) }
        ensures bits { Self.bits self.new ≡ V.bits other.now }
        ensures len { length (Self.bits self.new) ≡ length (Self.bits self.old) }
        ensures frame { frame self.new ≡ frame self.old }
    {
        self.clone_from_bitslice(other);
    }

    /// Another name of `copy_from_bitslice`.
    final fn copy_from_slice<V: Bits<Store = Self::Store, Order = Self::Order>>(
        &mut self,
        other: &V,
    )
    where
        Self::Order: WordPaths<Self::Store>,
        requires { length (V.bits other.now) ≡ length (Self.bits self.old) }
        ensures bits { Self.bits self.new ≡ V.bits other.now }
        ensures len { length (Self.bits self.new) ≡ length (Self.bits self.old) }
        ensures frame { frame self.new ≡ frame self.old }
    {
        self.copy_from_bitslice(other);
    }

    /// Copies the `len` bits from `from` on to the places from `to` on, overlap allowed, and answers how many words it
    /// wrote.
    #[tactic(auto, using(crate::proofs::FrameLemmas::frames))]
    final fn move_within(&mut self, from: usize, to: usize, len: usize) -> usize
        requires source { from + len ≤ length (Self.bits self.old) }
        requires target { to + len ≤ length (Self.bits self.old) }
        ensures bits { Self.bits self.new
            ≡ with_piece (Self.bits self.old) to (piece (Self.bits self.old) from len) }
        ensures len { length (Self.bits self.new) ≡ length (Self.bits self.old) }
        ensures frame { frame self.new ≡ frame self.old }

        // At most the words that the target touches, at least those that became other ones.
        ensures writes { result ≤ touched Self.Store.BITS (place self.old + to) len }
        ensures changed { changed Self.Store.number (words self.old) (words self.new) ≤ result }
    {
        let place = self.first_place();
        let all = self.len();
        self.write(|words| {
            move_window::<Self::Store, Self::Order>(words, place, all, from, to, len)
        })
    }

    // ---- combine

    /// Makes each bit what it and the bit at its index in another list are both. Where the other list is shorter,
    /// the bits past its end are cleared; where it is longer, the rest is not looked at.
    #[tactic(auto, using(crate::proofs::FrameLemmas::frames))]
    final fn and_bits<V: Bits>(&mut self, other: &V)
        ensures bits { Self.bits self.new ≡ combined (λ a b. a && b) (Self.bits self.old) (V.bits other.now) }
        ensures len { length (Self.bits self.new) ≡ length (Self.bits self.old) }
        ensures frame { frame self.new ≡ frame self.old }
    {
        let place = self.first_place();
        let len = self.len();
        let view = other.as_bitslice();
        self.write(|words| {
            and_window::<Self::Store, Self::Order, V::Store, V::Order>(words, place, len, view)
        });
    }

    /// Makes each bit what it or the bit at its index in another list is. Where the other list is shorter, the bits
    /// past its end stay; where it is longer, the rest is not looked at.
    #[tactic(auto, using(crate::proofs::FrameLemmas::frames))]
    final fn or_bits<V: Bits>(&mut self, other: &V)
        ensures bits { Self.bits self.new ≡ combined (λ a b. a || b) (Self.bits self.old) (V.bits other.now) }
        ensures len { length (Self.bits self.new) ≡ length (Self.bits self.old) }
        ensures frame { frame self.new ≡ frame self.old }
    {
        let place = self.first_place();
        let len = self.len();
        let view = other.as_bitslice();
        self.write(|words| {
            or_window::<Self::Store, Self::Order, V::Store, V::Order>(words, place, len, view)
        });
    }

    /// Makes each bit whether it and the bit at its index in another list differ. Where the other list is shorter, the
    /// bits past its end stay; where it is longer, the rest is not looked at.
    #[tactic(auto, using(crate::proofs::FrameLemmas::frames))]
    final fn xor_bits<V: Bits>(&mut self, other: &V)
        ensures bits { Self.bits self.new ≡ combined xor (Self.bits self.old) (V.bits other.now) }
        ensures len { length (Self.bits self.new) ≡ length (Self.bits self.old) }
        ensures frame { frame self.new ≡ frame self.old }
    {
        let place = self.first_place();
        let len = self.len();
        let view = other.as_bitslice();
        self.write(|words| {
            xor_window::<Self::Store, Self::Order, V::Store, V::Order>(words, place, len, view)
        });
    }
}
