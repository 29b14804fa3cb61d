//! Bits taken out of lists where one of the lists has a one.

ghost use Rattle.std.specs.Prelude.{◌≡◌, ◌≢◌, ◌<◌, ◌≤◌, false, count_by, length, not, replicate};
ghost use Rattle.std.specs.Prelude.{slice_index, slice_index_or};
ghost use Rattle.bit_addressing_memory.specs.Memory.{read_by, touched};
ghost use Rattle.bit_containers_vector.specs.Vector.{vec_bits};
ghost use Rattle.bit_table_rows.specs.Lists.{HasBits, IsColumn};
ghost use Rattle.bit_table_rows.specs.Walk.{Becomes, ChangesAt, EachHas};
ghost use Rattle.bit_table_rows.specs.RowsKept.{left_of};

use crate::vectors::keep_counted_of;
use bit_addressing_memory::BitOrder;
use bit_containers_vector::BitVec;
use bit_slice_views::{BitStore, Bits};
use bit_slice_views_mut::BitsMut;

// Takes the bits out of each list of `n` bits where the list of a letter has a one, and reports in `writes` how many
// words the move of each wrote. That list comes last: what stays of it is zeros, and no row of it is moved. It returns
// how many bits stay.
pub(crate) fn drop_marked<T: BitStore, O: BitOrder<T>>(
    lists: &mut [BitVec<T, O>],
    n: usize,
    letter: usize,
    writes: &mut [usize],
) -> usize
    requires columns { EachHas (IsColumn (read_by T.BitRegister O.position) n) lists.old }
    requires letter { letter < length lists.old }
    requires count { length writes.old ≡ length lists.old }
    ensures left { (d : BitVec T O T.BitRegister) → result
        ≡ count_by not (vec_bits (read_by T.BitRegister O.position) (slice_index_or lists.old letter d)) }
    ensures dropped { (d : BitVec T O T.BitRegister) → Becomes (λ k. HasBits (read_by T.BitRegister O.position)
        (left_of (vec_bits (read_by T.BitRegister O.position) (slice_index_or lists.old letter d))))
        lists.old lists.new }
    ensures count { length writes.new ≡ length writes.old }
    ensures writes { EachHas (λ k. k ≤ touched T.BITS 0 result) writes.new }
    ensures own { slice_index writes.new letter ≡ 0 }
{
    let left = lists[letter].count_zeros();
    for i in 0..lists.len() {
        writes[i] = if i == letter {
            0
        } else {
            drop_by(lists, n, i, letter, left)
        };
    }
    leave_zeros(&mut lists[letter], left);
    left
}

// Takes the bits out of one list of `n` bits where another one of the lists has a one, which leaves so many, and returns
// how many words the move wrote.
#[inline(always)]
fn drop_by<T: BitStore, O: BitOrder<T>>(
    lists: &mut [BitVec<T, O>],
    n: usize,
    list: usize,
    letter: usize,
    left: usize,
) -> usize
    requires list { list < length lists.old }
    requires letter { letter < length lists.old }
    requires apart { list ≢ letter }
    requires column { (d : BitVec T O T.BitRegister)
        → IsColumn (read_by T.BitRegister O.position) n (slice_index_or lists.old list d) }
    requires flags { (d : BitVec T O T.BitRegister)
        → IsColumn (read_by T.BitRegister O.position) n (slice_index_or lists.old letter d) }
    requires left { (d : BitVec T O T.BitRegister) → left
        ≡ count_by not (vec_bits (read_by T.BitRegister O.position) (slice_index_or lists.old letter d)) }
    ensures changed { ChangesAt (λ old new. (d : BitVec T O T.BitRegister)
        → HasBits (read_by T.BitRegister O.position)
        (left_of (vec_bits (read_by T.BitRegister O.position) (slice_index_or lists.old letter d))) old new)
        list lists.old lists.new }
    ensures writes { result ≤ touched T.BITS 0 left }
{
    if list < letter {
        let (front, back) = lists.split_at_mut(letter);
        drop_flagged(&mut front[list], n, &back[0], left)
    } else {
        let (front, back) = lists.split_at_mut(list);
        drop_flagged(&mut back[0], n, &front[letter], left)
    }
}

// Takes the bits out of a list of `n` bits where another one has a one, which leaves so many, and returns how many words
// the move wrote. Out of line, so that a list without a one is passed by a function of four numbers, and what sweeps it
// stands in line there.
#[inline(never)]
fn drop_flagged<T: BitStore, O: BitOrder<T>>(
    list: &mut BitVec<T, O>,
    n: usize,
    flags: &BitVec<T, O>,
    left: usize,
) -> usize
    requires column { IsColumn (read_by T.BitRegister O.position) n list.old }
    requires flags { length (vec_bits (read_by T.BitRegister O.position) flags.now) ≡ n }
    requires left { left ≡ count_by not (vec_bits (read_by T.BitRegister O.position) flags.now) }
    ensures bits { HasBits (read_by T.BitRegister O.position)
        (left_of (vec_bits (read_by T.BitRegister O.position) flags.now)) list.old list.new }
    ensures writes { result ≤ touched T.BITS 0 left }
{
    keep_counted_of(list, n, 1, flags.as_bitslice(), left)
}

// Makes a list so many zeros, no more than it has bits. No word is counted: no row of the list is moved.
fn leave_zeros<T: BitStore, O: BitOrder<T>>(list: &mut BitVec<T, O>, left: usize)
    requires { left ≤ length (vec_bits (read_by T.BitRegister O.position) list.old) }
    ensures { HasBits (read_by T.BitRegister O.position) (λ bits. replicate left false) list.old list.new }
{
    list.truncate(left);
    list.fill(false);
}
