//! Edits of lists of bits that have one entry a row each.

ghost use Rattle.std.specs.Prelude.{◌≡◌, ◌+◌, ◌-◌, ◌*◌, ◌<◌, ◌≤◌, ◌++◌, false, length, slice_index_or, IfOk, IsOk, OnOk, OnErr};
ghost use Rattle.bit_addressing_memory.specs.Memory.{read_by};
ghost use Rattle.bit_slice_views.specs.SpanLimits.{MAX_BITS};
ghost use Rattle.bit_containers_vector.specs.Vector.{vec_bits, vec_head, room, HasRoomFor, IsAsBefore};
ghost use Rattle.bit_table_rows.specs.Lists.{HasBits, IsColumn};
ghost use Rattle.bit_table_rows.specs.RowEdit.{added, count_after, edited_by, most_moved, LiesIn};
ghost use Rattle.bit_table_rows.specs.Walk.{Becomes, EachHas};

use crate::edit::RowEdit;
use crate::one_row::{delete_bit, insert_zero};
use crate::vectors::edit_rows;
use bit_addressing_memory::{BitOrder, no_digits};
use bit_containers_vector::BitVec;
use bit_slice_views::{BitSlice, BitStore};
use std::alloc::AllocError;

// Edits one list of `n` bits, and answers how many words the move of an insertion or deletion wrote. A new row has no
// one.
pub(crate) fn edit_list<T: BitStore, O: BitOrder<T>>(
    list: &mut BitVec<T, O>,
    n: usize,
    edit: RowEdit,
) -> Result<usize, AllocError>
    requires column { IsColumn (read_by T.BitRegister O.position) n list.old }
    requires range { LiesIn n edit }
    requires most { n + added edit ≤ MAX_BITS }
    ensures ok { OnOk result (HasBits (read_by T.BitRegister O.position) (edited_by false edit) list.old list.new) }
    ensures err { OnErr result (IsAsBefore (read_by T.BitRegister O.position) list.old list.new) }
    ensures succeeds { HasRoomFor (read_by T.BitRegister O.position) list.old (added edit) → IsOk result }
    ensures writes { IfOk result (λ writes. writes ≤ most_moved T.BITS 1 n edit) }
{
    match edit {
        RowEdit::Insert { place } => insert_zero(list, n, place),
        RowEdit::Delete { start, upto } => {
            if upto - start == 1 {
                return Ok(delete_bit(list, n, start));
            }
            edit_by_rows(list, n, edit)
        }
        _ => edit_by_rows(list, n, edit),
    }
}

// The same as an edit of rows of one bit each.
fn edit_by_rows<T: BitStore, O: BitOrder<T>>(
    list: &mut BitVec<T, O>,
    n: usize,
    edit: RowEdit,
) -> Result<usize, AllocError>
    requires column { IsColumn (read_by T.BitRegister O.position) n list.old }
    requires range { LiesIn n edit }
    requires most { n + added edit ≤ MAX_BITS }
    ensures ok { OnOk result (HasBits (read_by T.BitRegister O.position) (edited_by false edit) list.old list.new) }
    ensures err { OnErr result (IsAsBefore (read_by T.BitRegister O.position) list.old list.new) }
    ensures succeeds { HasRoomFor (read_by T.BitRegister O.position) list.old (added edit) → IsOk result }
    ensures writes { IfOk result (λ writes. writes ≤ most_moved T.BITS 1 n edit) }
{
    let zeros = no_digits::<T, O>();
    let row = BitSlice::<T, O>::from_element(&zeros).part(0, 1);
    edit_rows(list, n, 1, edit, &row)
}

// Makes room for `more` bits more in each list of `n` bits, where each has memory for `space` bits, and answers for how
// many bits each has memory then. Where that is enough, no list is asked.
pub(crate) fn make_space<T: BitStore, O: BitOrder<T>>(
    lists: &mut [BitVec<T, O>],
    n: usize,
    space: usize,
    more: usize,
) -> Result<usize, AllocError>
    requires columns { EachHas (IsColumn (read_by T.BitRegister O.position) n) lists.old }
    requires space { EachHas (λ v. space ≤ room (read_by T.BitRegister O.position) v) lists.old }
    requires most { n + more ≤ MAX_BITS }
    ensures same { Becomes (λ k. HasBits (read_by T.BitRegister O.position) (λ bits. bits)) lists.old lists.new }
    ensures enough { IfOk result (λ now. n + more ≤ now) }
    ensures grown { IfOk result (λ now. space ≤ now) }
    ensures each { IfOk result (λ now. EachHas (λ v. now ≤ room (read_by T.BitRegister O.position) v) lists.new) }
    ensures succeeds { n + more ≤ space → IsOk result }
{
    let enough = n + more;
    if enough <= space {
        return Ok(space);
    }
    reserve_lists(lists, more)?;
    Ok(enough)
}

// Makes room for `more` bits in each list.
pub(crate) fn reserve_lists<T: BitStore, O: BitOrder<T>>(
    lists: &mut [BitVec<T, O>],
    more: usize,
) -> Result<(), AllocError>
    requires most { EachHas (λ v. length (vec_bits (read_by T.BitRegister O.position) v) + more ≤ MAX_BITS) lists.old }
    ensures same { Becomes (λ k. HasBits (read_by T.BitRegister O.position) (λ bits. bits)) lists.old lists.new }
    ensures ok { OnOk result (EachHas (λ v. HasRoomFor (read_by T.BitRegister O.position) v more) lists.new) }
{
    for list in lists.iter_mut() {
        list.reserve(more)?;
    }
    Ok(())
}

// Edits each list of `n` bits in the room that it has, and tells how many words the move of each wrote.
pub(crate) fn edit_lists<T: BitStore, O: BitOrder<T>>(
    lists: &mut [BitVec<T, O>],
    n: usize,
    edit: RowEdit,
    writes: &mut [usize],
)
    requires columns { EachHas (IsColumn (read_by T.BitRegister O.position) n) lists.old }
    requires room { EachHas (λ v. HasRoomFor (read_by T.BitRegister O.position) v (added edit)) lists.old }
    requires range { LiesIn n edit }
    requires most { n + added edit ≤ MAX_BITS }
    requires count { length writes.old ≡ length lists.old }
    ensures edited { Becomes (λ k. HasBits (read_by T.BitRegister O.position) (edited_by false edit)) lists.old lists.new }
    ensures count { length writes.new ≡ length writes.old }
    ensures writes { EachHas (λ k. k ≤ most_moved T.BITS 1 n edit) writes.new }
{
    for i in 0..lists.len() {
        writes[i] = edit_list(&mut lists[i], n, edit).unwrap();
    }
}

// Adds the bits of a list at the end of each list.
pub(crate) fn extend_lists<T: BitStore, O: BitOrder<T>>(
    lists: &mut [BitVec<T, O>],
    more: &BitVec<T, O>,
) -> Result<(), AllocError>
    requires most { EachHas (λ v. length (vec_bits (read_by T.BitRegister O.position) v)
        + length (vec_bits (read_by T.BitRegister O.position) more.now) ≤ MAX_BITS) lists.old }
    ensures { OnOk result (Becomes (λ k. HasBits (read_by T.BitRegister O.position)
        (λ bits. bits ++ vec_bits (read_by T.BitRegister O.position) more.now)) lists.old lists.new) }
{
    for list in lists.iter_mut() {
        list.extend_from_bitslice(more)?;
    }
    Ok(())
}

// Adds the bits of another list at the end of each list, whatever its words and their order.
pub(crate) fn copy_lists<T: BitStore, O: BitOrder<T>, Q: BitStore, P: BitOrder<Q>>(
    lists: &mut [BitVec<T, O>],
    others: &[BitVec<Q, P>],
) -> Result<(), AllocError>
    requires count { length others.now ≡ length lists.old }
    requires empty { EachHas (IsColumn (read_by T.BitRegister O.position) 0) lists.old }
    requires short { EachHas (λ v. length (vec_bits (read_by Q.BitRegister P.position) v) ≤ MAX_BITS) others.now }
    ensures { OnOk result (Becomes (λ k old new. (d : BitVec Q P Q.BitRegister) → HasBits (read_by T.BitRegister O.position)
        (λ bits. bits ++ vec_bits (read_by Q.BitRegister P.position) (slice_index_or others.now k d)) old new)
        lists.old lists.new) }
{
    for i in 0..lists.len() {
        lists[i].extend_from_bitslice(&others[i])?;
    }
    Ok(())
}
