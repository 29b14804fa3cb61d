//! The words of vectors, lent to a function or a closure, and swept, also by a move of bits.

ghost use Rattle.std.specs.Prelude.{◌≡◌, ◌+◌, ◌*◌, ◌^◌, ◌<◌, ◌≤◌, length, reverse, slice_set};
ghost use Rattle.bit_addressing_memory.specs.Memory.{read_by};
ghost use Rattle.bit_addressing_memory.specs.Sweep.{IsFresh, sweep_lender, sweep_words};
ghost use Rattle.bit_addressing_memory.specs.Ways.{way_for};
ghost use Rattle.bit_addressing_memory.specs.declared.sweep.Way.TheVariants.{Up};
ghost use Rattle.bit_containers_vector.specs.Lending.{HasWords};
ghost use Rattle.bit_containers_vector.specs.Vector.{visible};

use bit_addressing_memory::{BitOrder, BitRegister, Lsb0, Msb0, Sweep, Way, move_in, way_for};
use bit_containers_vector::BitVec;
use bit_slice_views::{BitSlice, BitStore, Bits};
use bit_slice_views_mut::{BitsMut, MayWriteBeside};
use std::alloc::AllocError;
use std::process::Abort;

/// Turns the order of words round.
pub fn turn_all<T: BitRegister>(words: &mut [T])
    ensures { words.new ≡ reverse words.old }
{
    words.reverse();
}

// Turns the order of a vector's visible words round: what a caller knows of words that were lent.
fn turn_visible<T: BitStore, O: BitOrder<T>>(bits: &mut BitVec<T, O>)
    ensures { HasWords (read_by T.BitRegister O.position) bits.old
        (reverse (visible (read_by T.BitRegister O.position) bits.old)) bits.new }
{
    turn_all::<T>(bits.as_raw_mut_slice());
}

// Puts the first word of a sweep.
fn put_first<T: BitRegister>(sweep: &mut Sweep<'_, T>, word: T)
    requires some { 1 ≤ length (sweep_words sweep.old) }
    requires fresh { IsFresh sweep.old Up }
    ensures words { sweep_words sweep.new ≡ slice_set (sweep_words sweep.old) 0 word }
    ensures lender { sweep_lender sweep.new ≡ sweep_lender sweep.old }
    ensures len { length (sweep_words sweep.new) ≡ length (sweep_words sweep.old) }
{
    sweep.put(0, word);
}

// Puts the first visible word of a vector: what a caller knows of words that were swept.
fn put_first_word<T: BitStore, O: BitOrder<T>>(bits: &mut BitVec<T, O>, word: T)
    requires { 1 ≤ length (visible (read_by T.BitRegister O.position) bits.old) }
    ensures { HasWords (read_by T.BitRegister O.position) bits.old
        (slice_set (visible (read_by T.BitRegister O.position) bits.old) 0 word) bits.new }
{
    bits.sweep(Way::Up, |sweep| put_first(sweep, word));
}

#[test]
fn visible_words_are_turned_and_swept(rt: HostRuntime) -> Result<(), AllocError> {
    let alloc = rt.alloc();
    let words = [0b0010_0100u8, 0b0100_0000];
    // 00[10 0100 01]00 0000
    let mut bits = BitVec::from_bitslice(alloc, BitSlice::<u8, Msb0>::from_place(&words, 2, 8))?;
    turn_visible(&mut bits);
    assert!(rt; bits.as_raw_slice() == [0b0100_0000u8, 0b0010_0100].as_slice());
    assert!(rt; bits.len() == 8 && bits.not_any());
    let mut bits = BitVec::<u16, Lsb0>::from_slice(alloc, &[0x1234, 0x5678])?;
    bits.truncate(20);
    assert!(rt; bits.as_raw_slice().len() == 2);
    put_first_word(&mut bits, 0x00ff);
    assert!(rt; bits.as_raw_slice() == [0x00ffu16, 0x5678].as_slice() && bits.count_ones() == 9);
    Ok(())
}

// Writes one of some words.
fn write_word<T: BitRegister>(words: &mut [T], k: usize, word: T)
    ensures { length words.new ≡ length words.old }
{
    if k < words.len() {
        words[k] = word;
    }
}

// Moves bits of the words of a sweep.
fn move_bits<T: BitRegister, O: BitOrder<T>>(
    sweep: &mut Sweep<'_, T>,
    source: usize,
    target: usize,
    count: usize,
)
    requires fresh { IsFresh sweep.old (way_for source target) }
    requires source_within { source + count ≤ length (sweep_words sweep.old) * T.BITS }
    requires target_within { target + count ≤ length (sweep_words sweep.old) * T.BITS }
    requires source_ends { source + count < 2 ^ 64 }
    requires target_ends { target + count < 2 ^ 64 }
    ensures lender { sweep_lender sweep.new ≡ sweep_lender sweep.old }
    ensures len { length (sweep_words sweep.new) ≡ length (sweep_words sweep.old) }
{
    move_in::<T, O>(sweep, source, target, count);
}

// Moves bits of the visible words of a vector, dead bits too, and says whether they have these.
fn moves<T: BitStore, O: BitOrder<T>>(
    vector: &mut BitVec<T, O>,
    source: usize,
    target: usize,
    count: usize,
) -> bool {
    let most = vector.as_raw_slice().len().saturating_mul(T::BITS as usize);
    if source > 100 || target > 100 || count > 1000 {
        return false;
    }
    if source + count > most || target + count > most {
        return false;
    }
    vector.sweep(way_for(source, target), |sweep| {
        move_bits::<T, O>(sweep, source, target, count)
    });
    true
}

#[test]
fn words_are_lent_and_swept(rt: HostRuntime) -> Result<(), AllocError> {
    let alloc = rt.alloc();
    // 0001 0010 0011 0100 0101 [0110], of which the list has twenty bits
    let mut bits = BitVec::<u8, Msb0>::from_slice(alloc, &[0x12, 0x34, 0x56])?;
    bits.truncate(20);
    assert!(rt; moves(&mut bits, 0, 3, 10));
    // 000 0001001000 100 0101 0110
    assert!(rt; bits.as_raw_slice() == [0x02u8, 0x44, 0x56].as_slice());
    assert!(rt; moves(&mut bits, 3, 0, 10));
    // 0001001000 000100 0101 0110
    assert!(rt; bits.as_raw_slice() == [0x12u8, 0x04, 0x56].as_slice());
    assert!(rt; moves(&mut bits, 0, 16, 8));
    assert!(rt; bits.as_raw_slice() == [0x12u8, 0x04, 0x12].as_slice() && bits.len() == 20);
    assert!(rt; !moves(&mut bits, 0, 17, 8));
    bits.with_words(MayWriteBeside, |words| write_word(words, 2, 0xa5));
    assert!(rt;
        bits.as_raw_slice() == [0x12u8, 0x04, 0xa5].as_slice() && bits.last_one() == Some(18)
    );
    Ok(())
}
