//! Rows put into a vector of bits, and taken out of it.

ghost use Rattle.std.specs.Prelude.{◌≡◌, ◌+◌, ◌-◌, ◌*◌, ◌<◌, ◌≤◌, count_by, length, not, IfOk, IsOk, OnOk, OnErr};
ghost use Rattle.bit_addressing_memory.specs.Memory.{read_by, touched};
ghost use Rattle.bit_slice_views.specs.SpanLimits.{MAX_BITS};
ghost use Rattle.bit_containers_vector.specs.Vector.{vec_bits, vec_head, room, HasRoomFor, IsAsBefore};
ghost use Rattle.bit_slice_views.specs.View.{view_bits};
ghost use Rattle.bit_table_rows.specs.RowsKept.{kept};
ghost use Rattle.bit_table_rows.specs.RowEdit.{added, bits_edited_by, count_after, most_moved, LiesIn, WhereNew};
ghost use Rattle.bit_table_rows.specs.RowEdits.{deleted, inserted, repeated, Opens};

use crate::edit::RowEdit;
use crate::edits::{copy_rows, keep_counted_in, move_rows_in, rotate_rows, swap_rows, write_row};
use bit_addressing_memory::BitOrder;
use bit_containers_vector::BitVec;
use bit_slice_views::{BitSlice, BitStore, Bits};
use std::alloc::AllocError;

/// Puts a row in before row `p` of `n` rows of `w` bits each: the rows from there on move one row towards the end. `p`
/// may be `n`. It answers how many words that move wrote.
///
/// Memory is asked for first, so a refusal leaves all as it was; with room for a row none is asked for.
pub fn insert_row<T: BitStore, O: BitOrder<T>, V: Bits>(
    vector: &mut BitVec<T, O>,
    n: usize,
    w: usize,
    p: usize,
    row: &V,
) -> Result<usize, AllocError>
    requires rows { length (vec_bits (read_by T.BitRegister O.position) vector.old) ≡ n * w }
    requires some { 0 < w }
    requires most { (n + 1) * w ≤ MAX_BITS }
    requires within { p ≤ n }
    requires width { length (V.bits row.now) ≡ w }
    ensures bits { OnOk result (vec_bits (read_by T.BitRegister O.position) vector.new
        ≡ inserted (vec_bits (read_by T.BitRegister O.position) vector.old) (p * w) (V.bits row.now)) }
    ensures len { OnOk result (length (vec_bits (read_by T.BitRegister O.position) vector.new) ≡ (n + 1) * w) }
    ensures head { vec_head vector.new ≡ vec_head vector.old }

    // It is refused only where there was no room for a row, and then all is as it was.
    ensures err { OnErr result (IsAsBefore (read_by T.BitRegister O.position) vector.old vector.new) }
    ensures succeeds { HasRoomFor (read_by T.BitRegister O.position) vector.old w → IsOk result }
    ensures room { room (read_by T.BitRegister O.position) vector.old
        ≤ room (read_by T.BitRegister O.position) vector.new }

    // At most the words that the rows touch at their new places.
    ensures writes { IfOk result (λ writes. writes
        ≤ touched T.BITS (vec_head vector.old + (p + 1) * w) ((n - p) * w)) }
{
    let writes = open_row(vector, n, w, p)?;
    write_row(vector, n + 1, w, p, row);
    Ok(writes)
}

// Makes the vector a row longer, and moves the rows from `p` on one row towards the end. What stands in row `p` then is
// open.
fn open_row<T: BitStore, O: BitOrder<T>>(
    vector: &mut BitVec<T, O>,
    n: usize,
    w: usize,
    p: usize,
) -> Result<usize, AllocError>
    requires rows { length (vec_bits (read_by T.BitRegister O.position) vector.old) ≡ n * w }
    requires some { 0 < w }
    requires most { (n + 1) * w ≤ MAX_BITS }
    requires within { p ≤ n }
    ensures ok { OnOk result (Opens (vec_bits (read_by T.BitRegister O.position) vector.old)
        (vec_bits (read_by T.BitRegister O.position) vector.new) (p * w) w) }
    ensures len { OnOk result (length (vec_bits (read_by T.BitRegister O.position) vector.new) ≡ (n + 1) * w) }
    ensures head { vec_head vector.new ≡ vec_head vector.old }
    ensures err { OnErr result (IsAsBefore (read_by T.BitRegister O.position) vector.old vector.new) }
    ensures succeeds { HasRoomFor (read_by T.BitRegister O.position) vector.old w → IsOk result }
    ensures room { room (read_by T.BitRegister O.position) vector.old
        ≤ room (read_by T.BitRegister O.position) vector.new }
    ensures writes { IfOk result (λ writes. writes
        ≤ touched T.BITS (vec_head vector.old + (p + 1) * w) ((n - p) * w)) }
{
    vector.reserve(w)?;
    vector.resize((n + 1) * w, false)?;
    Ok(move_rows_in(vector, p, p + 1, n, w))
}

/// Takes the rows from `p` up to before `q` out of `n` rows of `w` bits each: the rows from `q` on move to where row
/// `p` stands. It answers how many words that move wrote. No memory is taken, and none is given back.
#[tactic(auto, using(crate::proofs::PlaceLemmas::row_places))]
pub fn delete_rows<T: BitStore, O: BitOrder<T>>(
    vector: &mut BitVec<T, O>,
    n: usize,
    w: usize,
    p: usize,
    q: usize,
) -> usize
    requires rows { length (vec_bits (read_by T.BitRegister O.position) vector.old) ≡ n * w }
    requires order { p ≤ q }
    requires within { q ≤ n }
    ensures bits { vec_bits (read_by T.BitRegister O.position) vector.new
        ≡ deleted (vec_bits (read_by T.BitRegister O.position) vector.old) (p * w) (q * w) }
    ensures len { length (vec_bits (read_by T.BitRegister O.position) vector.new) ≡ (n - (q - p)) * w }
    ensures head { vec_head vector.new ≡ vec_head vector.old }
    ensures room { room (read_by T.BitRegister O.position) vector.new
        ≡ room (read_by T.BitRegister O.position) vector.old }

    // At most the words that the rows touch at their new places.
    ensures writes { result ≤ touched T.BITS (vec_head vector.old + p * w) ((n - q) * w) }
{
    let writes = move_rows_in(vector, q, p, n, w);
    let left = vector.len() - (q - p) * w;
    vector.truncate(left);
    writes
}

/// Takes those of the `n` rows out whose entry in `off` is true: the others move together, in their order. It answers how
/// many rows stay, and how many words their move wrote. No memory is taken, and none is given back.
pub fn keep_rows_of<T: BitStore, O: BitOrder<T>>(
    vector: &mut BitVec<T, O>,
    n: usize,
    w: usize,
    off: BitSlice<'_, T, O>,
) -> (usize, usize)
    requires rows { length (vec_bits (read_by T.BitRegister O.position) vector.old) ≡ n * w }
    requires flags { length (view_bits (read_by T.BitRegister O.position) off) ≡ n }
    ensures count { result.0 ≡ count_by not (view_bits (read_by T.BitRegister O.position) off.entry) }
    ensures bits { vec_bits (read_by T.BitRegister O.position) vector.new
        ≡ kept w (view_bits (read_by T.BitRegister O.position) off.entry)
        (vec_bits (read_by T.BitRegister O.position) vector.old) }
    ensures len { length (vec_bits (read_by T.BitRegister O.position) vector.new) ≡ result.0 * w }
    ensures head { vec_head vector.new ≡ vec_head vector.old }
    ensures room { room (read_by T.BitRegister O.position) vector.new
        ≡ room (read_by T.BitRegister O.position) vector.old }

    // At most the words that the rows touch at their new places.
    ensures writes { result.1 ≤ touched T.BITS (vec_head vector.old) (result.0 * w) }
{
    let left = off.count_zeros();
    let writes = keep_counted_of(vector, n, w, off, left);
    (left, writes)
}

// The same, where one knows how many rows stay.
#[inline(always)]
#[tactic(auto, using(crate::proofs::PlaceLemmas::row_places))]
pub(crate) fn keep_counted_of<T: BitStore, O: BitOrder<T>>(
    vector: &mut BitVec<T, O>,
    n: usize,
    w: usize,
    off: BitSlice<'_, T, O>,
    left: usize,
) -> usize
    requires rows { length (vec_bits (read_by T.BitRegister O.position) vector.old) ≡ n * w }
    requires flags { length (view_bits (read_by T.BitRegister O.position) off) ≡ n }
    requires left { left ≡ count_by not (view_bits (read_by T.BitRegister O.position) off) }
    ensures bits { vec_bits (read_by T.BitRegister O.position) vector.new
        ≡ kept w (view_bits (read_by T.BitRegister O.position) off.entry)
        (vec_bits (read_by T.BitRegister O.position) vector.old) }
    ensures len { length (vec_bits (read_by T.BitRegister O.position) vector.new) ≡ left * w }
    ensures head { vec_head vector.new ≡ vec_head vector.old }
    ensures room { room (read_by T.BitRegister O.position) vector.new
        ≡ room (read_by T.BitRegister O.position) vector.old }
    ensures writes { result ≤ touched T.BITS (vec_head vector.old) (left * w) }
{
    // As many bits as a `usize` counts, and so are those of the rows that stay.
    let _bits = vector.len();
    let writes = keep_counted_in(vector, n, w, off, left);
    vector.truncate(left * w);
    writes
}

/// Appends the rows from `p` up to before `q` of `n` rows of `w` bits each.
///
/// A refusal leaves all as it was; with room for these rows no memory is asked for.
pub fn dup_rows<T: BitStore, O: BitOrder<T>>(
    vector: &mut BitVec<T, O>,
    n: usize,
    w: usize,
    p: usize,
    q: usize,
) -> Result<(), AllocError>
    requires rows { length (vec_bits (read_by T.BitRegister O.position) vector.old) ≡ n * w }
    requires order { p ≤ q }
    requires within { q ≤ n }
    requires most { (n + (q - p)) * w ≤ MAX_BITS }
    ensures bits { OnOk result (vec_bits (read_by T.BitRegister O.position) vector.new
        ≡ repeated (vec_bits (read_by T.BitRegister O.position) vector.old) (p * w) (q * w)) }
    ensures len { OnOk result (length (vec_bits (read_by T.BitRegister O.position) vector.new)
        ≡ (n + (q - p)) * w) }
    ensures head { vec_head vector.new ≡ vec_head vector.old }
    ensures err { OnErr result (IsAsBefore (read_by T.BitRegister O.position) vector.old vector.new) }
    ensures succeeds { HasRoomFor (read_by T.BitRegister O.position) vector.old ((q - p) * w) → IsOk result }
    ensures room { room (read_by T.BitRegister O.position) vector.old
        ≤ room (read_by T.BitRegister O.position) vector.new }
{
    vector.extend_from_within(p * w..q * w)
}

/// Edits `n` rows of `w` bits each, and answers how many words the move of an insertion or a deletion wrote. `row` has
/// the bits of a new row, and matters to an insertion alone.
///
/// A refusal leaves all as it was; with room for the rows that the edit adds no memory is asked for.
pub fn edit_rows<T: BitStore, O: BitOrder<T>, V: Bits>(
    vector: &mut BitVec<T, O>,
    n: usize,
    w: usize,
    edit: RowEdit,
    row: &V,
) -> Result<usize, AllocError>
    requires rows { length (vec_bits (read_by T.BitRegister O.position) vector.old) ≡ n * w }
    requires begin { vec_head vector.old ≡ 0 }
    requires some { 0 < w }
    requires range { LiesIn n edit }
    requires most { (n + added edit) * w ≤ MAX_BITS }
    requires width { WhereNew edit (length (V.bits row.now) ≡ w) }
    ensures bits { OnOk result (vec_bits (read_by T.BitRegister O.position) vector.new
        ≡ bits_edited_by w (V.bits row.now) edit (vec_bits (read_by T.BitRegister O.position) vector.old)) }
    ensures len { OnOk result (length (vec_bits (read_by T.BitRegister O.position) vector.new)
        ≡ count_after n edit * w) }
    ensures head { vec_head vector.new ≡ vec_head vector.old }
    ensures err { OnErr result (IsAsBefore (read_by T.BitRegister O.position) vector.old vector.new) }
    ensures succeeds { HasRoomFor (read_by T.BitRegister O.position) vector.old (added edit * w) → IsOk result }
    ensures room { room (read_by T.BitRegister O.position) vector.old
        ≤ room (read_by T.BitRegister O.position) vector.new }

    // At most the words that the rows touch at their new places.
    ensures writes { IfOk result (λ writes. writes ≤ most_moved T.BITS w n edit) }
{
    match edit {
        RowEdit::Insert { place } => insert_row(vector, n, w, place, row),
        RowEdit::Delete { start, upto } => Ok(delete_rows(vector, n, w, start, upto)),
        RowEdit::Copy { start, upto, place } => {
            copy_rows(vector, n, w, start, upto, place);
            Ok(0)
        }
        RowEdit::Swap { row, other } => {
            swap_rows(vector, n, w, row, other);
            Ok(0)
        }
        RowEdit::Rotate {
            start,
            upto,
            amount,
        } => {
            rotate_rows(vector, n, w, start, upto, amount);
            Ok(0)
        }
        RowEdit::Dup { start, upto } => {
            dup_rows(vector, n, w, start, upto)?;
            Ok(0)
        }
    }
}
