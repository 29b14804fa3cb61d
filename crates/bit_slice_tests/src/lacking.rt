//! Words that have no bit of a kind, beside a look at each bit.

use bit_addressing_memory::{BitIdx, BitOrder, BitRegister, Lsb0, Msb0, read_bit};
use bit_addressing_sample_orders::FifthStep;
use bit_slice_words::lacks;

// Whether a word lacks each of the two bits exactly where none of its digits is it.
fn tells<R: BitRegister, O: BitOrder<R>>(word: R) -> bool {
    let mut ones = 0u32;
    for i in 0..R::BITS {
        if read_bit::<R, O>(word, BitIdx::new_unchecked(i)) {
            ones = ones.wrapping_add(1);
        }
    }
    lacks::<R, O>(word, true) == (ones == 0)
        && lacks::<R, O>(word, false) == (ones == u32::from(R::BITS))
}

#[test]
fn words_without_a_bit_are_told(rt: HostRuntime) {
    for word in [0u8, 1, 0x10, 0x80, 0x7f, 0xfe, 0xff] {
        assert!(rt;
            tells::<u8, Msb0>(word) && tells::<u8, FifthStep>(word),
            "{word}"
        );
    }
    for word in [0u64, 1, 1 << 63, u64::MAX, u64::MAX - 1, u64::MAX >> 1] {
        assert!(rt;
            tells::<u64, Lsb0>(word) && tells::<u64, FifthStep>(word),
            "{word}"
        );
    }
    assert!(rt;
        tells::<u128, Lsb0>(0) && tells::<u128, Lsb0>(u128::MAX) && tells::<u128, Msb0>(1 << 127)
    );
}
