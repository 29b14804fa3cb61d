//! Word paths of `HiLo`.

use bit_addressing_memory::HiLo;
use bit_slice_words::{Steps, WordPaths};

#[test]
fn stretches_go_a_step_a_bit(rt: HostRuntime) {
    let mut steps = Steps::new();
    let mut words = [0x00u8, 0x00];
    let others = [0x48u8, 0xe2];
    // the bits 0 0 1 0 0 0 0 1 0 1 1 1 0 1 0 0 from index 2 on: 1 0 0 0 0 1 0 1, to index 3 on
    HiLo::copy(&mut words, 3, &others, 2, 8, &mut steps);
    assert!(rt; words == [0x80, 0x50]);
    assert!(rt; steps.taken() == 8);
    assert!(rt; HiLo::equal(&words, 3, &others, 2, 8, &mut steps));
    assert!(rt; steps.taken() == 16);
    HiLo::xor(&mut words, 3, &others, 2, 8, &mut steps);
    assert!(rt; words == [0x00, 0x00]);
    HiLo::or(&mut words, 0, &others, 0, 4, &mut steps);
    assert!(rt; words == [0x40, 0x00]);
    HiLo::and(&mut words, 0, &others, 1, 4, &mut steps);
    assert!(rt; words == [0x00, 0x00]);
}

#[test]
fn up_to_64_bits_go_in_one_step(rt: HostRuntime) {
    let mut steps = Steps::new();
    let mut words = [0u64; 4];
    let others = [0x0123_4567_89ab_cdefu64; 4];
    // 200 bits are three times 64 and eight
    HiLo::copy(&mut words, 3, &others, 2, 200, &mut steps);
    assert!(rt; steps.taken() == 4);
    HiLo::xor(&mut words, 3, &others, 2, 200, &mut steps);
    assert!(rt; steps.taken() == 8);
    assert!(rt; words == [0u64; 4]);
}

#[test]
fn stretches_change_places(rt: HostRuntime) {
    let mut steps = Steps::new();
    let mut words = [0xf0u8, 0x00];
    let mut others = [0x00u8, 0x0f];
    HiLo::swap(&mut words, 0, &mut others, 8, 4, &mut steps);
    assert!(rt; words == [0x00, 0x00] && others == [0x00, 0xff]);
    HiLo::copy_over(&mut others, 8, 6, 4, &mut steps);
    assert!(rt; others == [0x0c, 0xff]);
}
