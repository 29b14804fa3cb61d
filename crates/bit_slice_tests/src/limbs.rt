//! Up to 64 bits of words as a number, read and put in four orders, beside a look at each bit.

use bit_addressing_memory::{BitOrder, BitRegister, Direction, HiLo, Lsb0, Msb0, read_entry};
use bit_addressing_sample_orders::FifthStep;
use bit_slice_chunks::{read_bits, write_bits};

// More bits than the words here have.
const MOST: usize = 512;

// Whether so many bits from a place on are read as they are looked at, and are the number's once it is put there, with
// each other bit as it was.
fn agree<R: BitRegister, O: BitOrder<R>>(
    words: &mut [R],
    place: usize,
    count: usize,
    number: u64,
) -> bool {
    let most = words.len().saturating_mul(R::BITS as usize);
    if most > MOST || count == 0 || count > 64 || place > most || count > most - place {
        return false;
    }
    let read = read_bits::<R, O>(Direction::Ascending, words, place, count);
    for k in 0..64usize {
        let bit = k < count && read_entry::<R, O>(words, place + k);
        if ((read >> k) & 1 == 1) != bit {
            return false;
        }
    }
    let mut wanted = [false; MOST];
    for p in 0..most {
        wanted[p] = if place <= p && p - place < count {
            (number >> (p - place)) & 1 == 1
        } else {
            read_entry::<R, O>(words, p)
        };
    }
    write_bits::<R, O>(Direction::Ascending, words, place, count, number);
    for p in 0..most {
        if p < words.len().saturating_mul(R::BITS as usize)
            && read_entry::<R, O>(words, p) != wanted[p]
        {
            return false;
        }
    }
    true
}

// The same of each count from each of some places on.
fn all_agree<R: BitRegister, O: BitOrder<R>>(words: &mut [R]) -> bool {
    let mut number = 0x0123_4567_89ab_cdefu64;
    for place in [0usize, 1, 7, 8, 15, 61, 64, 100, 128] {
        for count in 1..65usize {
            number = number.rotate_left(13) ^ 0x5a5a_00ff_1234_8001;
            if !agree::<R, O>(words, place, count, number) {
                return false;
            }
        }
    }
    true
}

#[test]
fn bits_are_one_number(rt: HostRuntime) {
    let mut bytes = [0x6fu8; 24];
    bytes[3] = 0x81;
    bytes[10] = 0x1c;
    assert!(rt; all_agree::<u8, Lsb0>(&mut bytes));
    assert!(rt; all_agree::<u8, FifthStep>(&mut bytes));
    let mut halves = [0x1234u16; 12];
    halves[5] = 0xfe01;
    assert!(rt; all_agree::<u16, HiLo>(&mut halves));
    assert!(rt; all_agree::<u32, Msb0>(&mut [0x89ab_cdefu32; 7]));
    assert!(rt; all_agree::<u64, FifthStep>(&mut [0x8421_0f0f_1357_9bdfu64; 3]));
    assert!(rt; all_agree::<u128, HiLo>(&mut [0x0123_4567_89ab_cdef_0011_2233_4455_6677u128; 2]));
    assert!(rt; all_agree::<u128, FifthStep>(&mut [0xfedc_ba98_7654_3210u128; 2]));
}
