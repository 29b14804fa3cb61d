//! Rows edited in place, in whatever writes its bits: no call takes memory, and each bit outside the list stays.

ghost use Rattle.std.specs.Prelude.{◌≡◌, ◌+◌, ◌-◌, ◌*◌, ◌<◌, ◌≤◌, count_by, length, not};
ghost use Rattle.bit_addressing_memory.specs.Memory.{read_by, touched, with_piece};
ghost use Rattle.bit_addressing_memory.specs.Moves.{changed};
ghost use Rattle.bit_slice_views.specs.View.{view_bits};
ghost use Rattle.bit_table_rows.specs.RowMoves.{rows_moved};
ghost use Rattle.bit_table_rows.specs.RowsKept.{rows_kept};
ghost use Rattle.bit_table_rows.specs.RowEdits.{copied, exchanged, turned};

use crate::windows::{keep_window_rows, move_window_rows};
use bit_slice_access::BitsEdits;
use bit_slice_views::{BitSlice, Bits};
use bit_slice_views_mut::BitsMut;

/// Moves the rows from `p` up to before `n` to where row `q` stands, and on from there, and answers how many words it
/// wrote. The rows have `w` bits each and lie end to end from the first bit of the list on; source and target may
/// overlap. Every bit outside the target stays.
///
/// The list begins in the first of its words, as that of each container does. Rows up to before `n` and up to the
/// target's end are there. No word is written twice, and none that the target does not touch.
pub fn move_rows_in<V: BitsMut>(view: &mut V, p: usize, q: usize, n: usize, w: usize) -> usize
    requires head { V.place view.old < V.Store.BITS }
    requires order { p ≤ n }
    requires rows { n * w ≤ length (V.bits view.old) }
    requires target { (q + (n - p)) * w ≤ length (V.bits view.old) }
    ensures bits { V.bits view.new ≡ rows_moved w (V.bits view.old) p q n }
    ensures len { length (V.bits view.new) ≡ length (V.bits view.old) }
    ensures frame { V.frame view.new ≡ V.frame view.old }

    // At most the words that the target touches, at least those that became other ones.
    ensures writes { result ≤ touched V.Store.BITS (V.place view.old + q * w) ((n - p) * w) }
    ensures changed { changed V.Store.number (V.words view.old) (V.words view.new) ≤ result }
{
    let place = view.first_place();
    let len = view.len();
    view.write(|words| move_window_rows::<V::Store, V::Order>(words, place, len, p, q, n, w))
}

/// Keeps those of the `n` rows whose entry in `off` is false: they come to lie in their order from the first bit of the
/// list on. It answers how many they are, and how many words it wrote. Every bit behind the kept rows stays.
///
/// The list begins in the first of its words, as that of each container does, and has the rows, of `w` bits each. No
/// word is written twice, and none that the kept rows do not touch.
pub fn keep_rows_in<V: BitsMut>(
    view: &mut V,
    n: usize,
    w: usize,
    off: BitSlice<'_, V::Store, V::Order>,
) -> (usize, usize)
    requires head { V.place view.old < V.Store.BITS }
    requires flags { length (view_bits (read_by V.Store.BitRegister V.Order.position) off) ≡ n }
    requires rows { n * w ≤ length (V.bits view.old) }
    ensures count { result.0 ≡ count_by not (view_bits (read_by V.Store.BitRegister V.Order.position) off.entry) }
    ensures bits { V.bits view.new
        ≡ rows_kept w (view_bits (read_by V.Store.BitRegister V.Order.position) off.entry) (V.bits view.old) }
    ensures len { length (V.bits view.new) ≡ length (V.bits view.old) }
    ensures frame { V.frame view.new ≡ V.frame view.old }

    // At most the words that the kept rows touch, at least those that became other ones.
    ensures writes { result.1 ≤ touched V.Store.BITS (V.place view.old) (result.0 * w) }
    ensures changed { changed V.Store.number (V.words view.old) (V.words view.new) ≤ result.1 }
{
    let left = off.count_zeros();
    let writes = keep_counted_in(view, n, w, off, left);
    (left, writes)
}

// The same, where one knows how many rows stay.
#[inline(always)]
pub(crate) fn keep_counted_in<V: BitsMut>(
    view: &mut V,
    n: usize,
    w: usize,
    off: BitSlice<'_, V::Store, V::Order>,
    left: usize,
) -> usize
    requires head { V.place view.old < V.Store.BITS }
    requires flags { length (view_bits (read_by V.Store.BitRegister V.Order.position) off) ≡ n }
    requires left { left ≡ count_by not (view_bits (read_by V.Store.BitRegister V.Order.position) off) }
    requires rows { n * w ≤ length (V.bits view.old) }
    ensures bits { V.bits view.new
        ≡ rows_kept w (view_bits (read_by V.Store.BitRegister V.Order.position) off.entry) (V.bits view.old) }
    ensures len { length (V.bits view.new) ≡ length (V.bits view.old) }
    ensures frame { V.frame view.new ≡ V.frame view.old }
    ensures writes { result ≤ touched V.Store.BITS (V.place view.old) (left * w) }
    ensures changed { changed V.Store.number (V.words view.old) (V.words view.new) ≤ result }
{
    let place = view.first_place();
    let len = view.len();
    let (flags, index, _) = off.parts();
    view.write(|words| {
        keep_window_rows::<V::Store, V::Order>(words, place, len, n, w, flags, index, left)
    })
}

/// Writes a row over row `p` of `n` rows of `w` bits each.
#[tactic(auto, using(crate::proofs::PlaceLemmas::row_places))]
pub fn write_row<V: BitsMut, W: Bits>(view: &mut V, n: usize, w: usize, p: usize, row: &W)
    requires rows { length (V.bits view.old) ≡ n * w }
    requires within { p < n }
    requires width { length (W.bits row.now) ≡ w }
    ensures bits { V.bits view.new ≡ with_piece (V.bits view.old) (p * w) (W.bits row.now) }
    ensures len { length (V.bits view.new) ≡ length (V.bits view.old) }
    ensures frame { V.frame view.new ≡ V.frame view.old }
{
    // As many bits as a `usize` counts, and so each row's place is one.
    let _bits = view.len();
    view.write_part(p * w, row);
}

/// Copies the rows from `p` up to before `q`, as they were, over the rows from `r` on, of `n` rows of `w` bits each.
#[tactic(auto, using(crate::proofs::PlaceLemmas::row_places))]
pub fn copy_rows<V: BitsMut>(view: &mut V, n: usize, w: usize, p: usize, q: usize, r: usize)
    requires rows { length (V.bits view.old) ≡ n * w }
    requires order { p ≤ q }
    requires within { q ≤ n }
    requires target { r + (q - p) ≤ n }
    ensures bits { V.bits view.new ≡ copied (V.bits view.old) (p * w) (q * w) (r * w) }
    ensures len { length (V.bits view.new) ≡ length (V.bits view.old) }
    ensures frame { V.frame view.new ≡ V.frame view.old }
{
    // As many bits as a `usize` counts, and so each row's place is one.
    let _bits = view.len();
    let source = p * w;
    view.move_within(source, r * w, q * w - source);
}

/// Exchanges rows `p` and `q` of `n` rows of `w` bits each. They may be the same.
#[tactic(auto, using(crate::proofs::PlaceLemmas::row_places))]
pub fn swap_rows<V: BitsMut>(view: &mut V, n: usize, w: usize, p: usize, q: usize)
    requires rows { length (V.bits view.old) ≡ n * w }
    requires first { p < n }
    requires second { q < n }
    ensures bits { V.bits view.new ≡ exchanged (V.bits view.old) (p * w) (q * w) w }
    ensures len { length (V.bits view.new) ≡ length (V.bits view.old) }
    ensures frame { V.frame view.new ≡ V.frame view.old }
{
    // As many bits as a `usize` counts, and so each row's place is one.
    let _bits = view.len();
    if p < q {
        view.swap_parts(p * w, q * w, w);
    } else if q < p {
        view.swap_parts(q * w, p * w, w);
    }
}

/// Turns the rows from `p` up to before `q` by `k` rows towards the first, of `n` rows of `w` bits each: the first `k`
/// of them become the last.
#[tactic(auto, using(crate::proofs::PlaceLemmas::row_places))]
pub fn rotate_rows<V: BitsMut>(view: &mut V, n: usize, w: usize, p: usize, q: usize, k: usize)
    requires rows { length (V.bits view.old) ≡ n * w }
    requires order { p ≤ q }
    requires within { q ≤ n }
    requires most { k ≤ q - p }
    ensures bits { V.bits view.new ≡ turned (V.bits view.old) (p * w) (q * w) (k * w) }
    ensures len { length (V.bits view.new) ≡ length (V.bits view.old) }
    ensures frame { V.frame view.new ≡ V.frame view.old }
{
    // As many bits as a `usize` counts, and so each row's place is one.
    let _bits = view.len();
    let first = p * w;
    let count = q * w - first;
    view.rotate_part(first, count, k * w);
}
