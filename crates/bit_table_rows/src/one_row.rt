//! One row put into a list of one bit a row, and taken out of it: a move by one place, which the sweep makes by shifts of
//! one.

ghost use Rattle.std.specs.Prelude.{◌≡◌, ◌+◌, ◌-◌, ◌<◌, ◌≤◌, ◌∷◌, [], false, length, IfOk, IsOk, OnOk, OnErr};
ghost use Rattle.bit_addressing_memory.specs.Memory.{read_by, touched};
ghost use Rattle.bit_slice_views.specs.SpanLimits.{MAX_BITS};
ghost use Rattle.bit_containers_vector.specs.Vector.{HasRoomFor, IsAsBefore};
ghost use Rattle.bit_table_rows.specs.Lists.{HasBits, IsColumn};
ghost use Rattle.bit_table_rows.specs.RowEdits.{deleted, inserted};
ghost use Rattle.bit_table_rows.specs.RowMoves.{rows_moved};

use crate::windows::move_window_rows;
use bit_addressing_memory::BitOrder;
use bit_containers_vector::BitVec;
use bit_slice_views::BitStore;
use bit_slice_views_mut::BitsMut;
use std::alloc::AllocError;

// Puts a zero in before bit `p` of a list of `n` bits, and returns how many words the move of those from there on wrote.
pub(crate) fn insert_zero<T: BitStore, O: BitOrder<T>>(
    list: &mut BitVec<T, O>,
    n: usize,
    p: usize,
) -> Result<usize, AllocError>
    requires column { IsColumn (read_by T.BitRegister O.position) n list.old }
    requires within { p ≤ n }
    requires most { n + 1 ≤ MAX_BITS }
    ensures ok { OnOk result (HasBits (read_by T.BitRegister O.position) (λ bits. inserted bits p (false ∷ []))
        list.old list.new) }
    ensures err { OnErr result (IsAsBefore (read_by T.BitRegister O.position) list.old list.new) }
    ensures succeeds { HasRoomFor (read_by T.BitRegister O.position) list.old 1 → IsOk result }
    ensures writes { IfOk result (λ writes. writes ≤ touched T.BITS (p + 1) (n - p)) }
{
    list.push(false)?;
    let writes = move_on(list, n, p);
    list.set(p, false);
    Ok(writes)
}

// Takes bit `p` out of a list of `n` bits, and returns how many words the move of those behind it wrote.
pub(crate) fn delete_bit<T: BitStore, O: BitOrder<T>>(
    list: &mut BitVec<T, O>,
    n: usize,
    p: usize,
) -> usize
    requires column { IsColumn (read_by T.BitRegister O.position) n list.old }
    requires within { p < n }
    ensures bits { HasBits (read_by T.BitRegister O.position) (λ bits. deleted bits p (p + 1)) list.old list.new }
    ensures writes { result ≤ touched T.BITS p (n - (p + 1)) }
{
    let writes = move_back(list, n, p);
    list.truncate(n - 1);
    writes
}

// Moves the bits from `p` up to before `n` one place on, and returns how many words it wrote. It does what `move_rows_in`
// does of rows of one bit, by a closure of its own: so the compiler sees that the places are one apart.
fn move_on<V: BitsMut>(view: &mut V, n: usize, p: usize) -> usize
    requires head { V.place view.old < V.Store.BITS }
    requires order { p ≤ n }
    requires target { n + 1 ≤ length (V.bits view.old) }
    ensures bits { V.bits view.new ≡ rows_moved 1 (V.bits view.old) p (p + 1) n }
    ensures len { length (V.bits view.new) ≡ length (V.bits view.old) }
    ensures frame { V.frame view.new ≡ V.frame view.old }
    ensures writes { result ≤ touched V.Store.BITS (V.place view.old + (p + 1)) (n - p) }
{
    let place = view.first_place();
    let len = view.len();
    view.write(|words| {
        move_window_rows::<V::Store, V::Order>(words, place, len, p, p + 1, n, 1)
    })
}

// The same from behind `p`, one place back.
fn move_back<V: BitsMut>(view: &mut V, n: usize, p: usize) -> usize
    requires head { V.place view.old < V.Store.BITS }
    requires order { p < n }
    requires rows { n ≤ length (V.bits view.old) }
    ensures bits { V.bits view.new ≡ rows_moved 1 (V.bits view.old) (p + 1) p n }
    ensures len { length (V.bits view.new) ≡ length (V.bits view.old) }
    ensures frame { V.frame view.new ≡ V.frame view.old }
    ensures writes { result ≤ touched V.Store.BITS (V.place view.old + p) (n - (p + 1)) }
{
    let place = view.first_place();
    let len = view.len();
    view.write(|words| {
        move_window_rows::<V::Store, V::Order>(words, place, len, p + 1, p, n, 1)
    })
}
