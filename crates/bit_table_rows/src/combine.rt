//! A list of bits combined with another one, by the word paths of the order.

ghost use Rattle.std.specs.Prelude.{◌≡◌, ◌≢◌, ◌+◌, ◌*◌, ◌^◌, ◌<◌, ◌≤◌, length, slice_index_or};
ghost use Rattle.std.specs.Simd.Lanes.{zip2};
ghost use Rattle.bit_addressing_memory.specs.Memory.{entry, memory, piece, read_by, Overwrites};
ghost use Rattle.bit_containers_vector.specs.Vector.{vec_bits};
ghost use Rattle.bit_slice_words.specs.Steps.{groups, Takes};
ghost use Rattle.bit_slice_views_mut.specs.Frame.{KeepsBeside};
ghost use Rattle.bit_table_layout.specs.Letters.{combined};
ghost use Rattle.bit_table_rows.specs.Lists.{HasBits, IsColumn};
ghost use Rattle.bit_table_rows.specs.Walk.{ChangesAt, EachHas};

use bit_addressing_memory::BitRegister;
use bit_containers_vector::BitVec;
use bit_slice_views::{BitStore, Bits};
use bit_slice_views_mut::BitsMut;
use bit_slice_words::{Steps, WordPaths};
use bit_table_layout::BoolOp;
use std::mem;

// Makes each bit of one list what an operation makes of it and the bit of another one of the lists, or of itself. All
// have `n` bits.
pub(crate) fn combine_lists<T: BitStore, O: WordPaths<T>>(
    lists: &mut [BitVec<T, O>],
    n: usize,
    op: BoolOp,
    letter: usize,
    other: usize,
    steps: &mut Steps,
)
    requires columns { EachHas (IsColumn (read_by T.BitRegister O.position) n) lists.old }
    requires letter { letter < length lists.old }
    requires other { other < length lists.old }
    ensures changed { ChangesAt (λ old new. (d : BitVec T O T.BitRegister)
        → HasBits (read_by T.BitRegister O.position) (λ bits. zip2 (combined op) bits
        (vec_bits (read_by T.BitRegister O.position) (slice_index_or lists.old other d))) old new)
        letter lists.old lists.new }
    ensures steps { letter ≢ other → Takes steps.old steps.new (groups n 64) (groups n O.SPAN) }
    ensures alone { letter ≡ other → steps.new ≡ steps.old }
{
    if letter < other {
        let (front, back) = lists.split_at_mut(other);
        combine_list(&mut front[letter], n, op, &back[0], steps);
    } else if other < letter {
        let (front, back) = lists.split_at_mut(letter);
        combine_list(&mut back[0], n, op, &front[other], steps);
    } else {
        combine_alone(&mut lists[letter], op);
    }
}

// Makes each of the `n` bits of a list what an operation makes of it and the bit of another list.
#[tactic(auto, using(bit_slice_views_mut::proofs::FrameLemmas::frames))]
fn combine_list<T: BitStore, O: WordPaths<T>>(
    list: &mut BitVec<T, O>,
    n: usize,
    op: BoolOp,
    other: &BitVec<T, O>,
    steps: &mut Steps,
)
    requires len { length (vec_bits (read_by T.BitRegister O.position) list.old) ≡ n }
    requires other_len { length (vec_bits (read_by T.BitRegister O.position) other.now) ≡ n }
    ensures bits { HasBits (read_by T.BitRegister O.position) (λ bits. zip2 (combined op) bits
        (vec_bits (read_by T.BitRegister O.position) other.now)) list.old list.new }
    ensures steps { Takes steps.old steps.new (groups n 64) (groups n O.SPAN) }
{
    let place = list.first_place();
    let (others, head, _) = other.as_bitslice().parts();
    let head = head as usize;
    let counted = mem::replace(steps, Steps::new());
    *steps = list.write(|words| {
        combine_words::<T, O>(words, op, place, others, head, n, counted)
    });
}

// Combines the bits of a window with those of another memory, with a count that is handed in and back.
#[tactic(auto, using(bit_slice_views_mut::proofs::FrameLemmas::frames))]
fn combine_words<R: BitRegister, O: WordPaths<R>>(
    words: &mut [R],
    op: BoolOp,
    place: usize,
    others: &[R],
    other_place: usize,
    len: usize,
    counted: Steps,
) -> Steps
    requires within { place + len ≤ length words.old * R.BITS }
    requires ends { place + len < 2 ^ 64 }
    requires other_within { other_place + len ≤ length others.now * R.BITS }
    requires other_ends { other_place + len < 2 ^ 64 }
    ensures list { piece (memory (read_by R.BitRegister O.position) words.new) place len
        ≡ zip2 (combined op) (piece (memory (read_by R.BitRegister O.position) words.old) place len)
        (piece (memory (read_by R.BitRegister O.position) others.now) other_place len) }
    ensures beside { KeepsBeside (read_by R.BitRegister O.position) words.old words.new place len }
    ensures steps { Takes counted result (groups len 64) (groups len O.SPAN) }
{
    let mut steps = counted;
    combine_path::<R, O>(words, op, place, others, other_place, len, &mut steps);
    steps
}

// The word path of an operation.
fn combine_path<R: BitRegister, O: WordPaths<R>>(
    words: &mut [R],
    op: BoolOp,
    place: usize,
    others: &[R],
    other_place: usize,
    len: usize,
    steps: &mut Steps,
)
    requires within { place + len ≤ length words.old * R.BITS }
    requires ends { place + len < 2 ^ 64 }
    requires other_within { other_place + len ≤ length others.now * R.BITS }
    requires other_ends { other_place + len < 2 ^ 64 }
    ensures combined { Overwrites (read_by R.BitRegister O.position) words.old words.new place len
        (λ k. combined op (entry (read_by R.BitRegister O.position) words.old (place + k))
        (entry (read_by R.BitRegister O.position) others.now (other_place + k))) }
    ensures steps { Takes steps.old steps.new (groups len 64) (groups len O.SPAN) }
{
    match op {
        BoolOp::And => O::and(words, place, others, other_place, len, steps),
        BoolOp::Or => O::or(words, place, others, other_place, len, steps),
        BoolOp::Xor => O::xor(words, place, others, other_place, len, steps),
    }
}

// Makes each bit of a list what an operation makes of it and itself.
fn combine_alone<T: BitStore, O: WordPaths<T>>(list: &mut BitVec<T, O>, op: BoolOp)
    ensures { HasBits (read_by T.BitRegister O.position) (λ bits. zip2 (combined op) bits bits) list.old list.new }
{
    match op {
        BoolOp::And | BoolOp::Or => {}
        BoolOp::Xor => list.fill(false),
    }
}
