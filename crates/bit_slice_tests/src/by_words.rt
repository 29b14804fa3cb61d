//! The words of a window in their parts inside it, and a sweep of them.

ghost use Rattle.std.specs.Prelude.{◌≡◌, ◌+◌, ◌*◌, ◌^◌, ◌<◌, ◌≤◌, length};
ghost use Rattle.bit_addressing_memory.specs.Sweep.{IsFresh, sweep_lender, sweep_words};
ghost use Rattle.bit_addressing_memory.specs.declared.sweep.Way.TheVariants.{Up};
ghost use Rattle.bit_addressing_span.specs.declared.span.TheConstants.{MAX_BITS};

use bit_addressing_memory::{BitOrder, BitRegister, Lsb0, Sweep, Way};
use bit_addressing_span::Domain;
use bit_slice_access::{BitsDomains, BitsParts};
use bit_slice_views::BitSlice;
use bit_slice_views_mut::BitSliceMut;
use std::process::Abort;

#[test]
fn words_are_written_in_their_parts_inside(rt: HostRuntime) {
    let mut words = [0xffu8; 3];
    let mut view = BitSliceMut::<u8, Lsb0>::from_place_mut(&mut words, 3, 15);
    let mut domain = view.domain_mut();
    assert!(rt; domain.len() == 3 && !domain.is_empty());
    let (head, tail) = domain.bounds(2);
    assert!(rt; head.into_inner() == 0 && tail.into_inner() == 2);
    assert!(rt; domain.clear(0) == 0xf8 && domain.load_value(0) == 0);
    assert!(rt; domain.store_value(1, 0x5a) == 0xff && domain.invert(1) == 0x5a);
    assert!(rt; domain.clear(2) == 0x03 && domain.set(0) == 0);
    drop(domain);
    assert!(rt; words == [0xff, 0xa5, 0xfc]);
    assert!(rt; BitSliceMut::<u8, Lsb0>::empty_mut().domain_mut().is_empty());
}

// The words that a domain gives from the back on, as the bytes of one number.
fn joined(domain: Domain<'_, u8, Lsb0>) -> u32 {
    let mut number = 0u32;
    for word in domain.rev() {
        number = (number << 8) | word as u32;
    }
    number
}

#[test]
fn a_domain_gives_the_words_of_a_window_without_the_bits_outside(rt: HostRuntime) {
    let mut words = [0x12u8, 0x34, 0x56];
    // the bits 4 up to 20 of the number with these bytes: 0x10, 0x34, 0x06
    let wanted = 0x56_34_12u32 & 0x0f_ff_f0;
    let view = BitSlice::<u8, Lsb0>::from_place(&words, 4, 16);
    assert!(rt; joined(view.domain()) == wanted && view.domain().count() == 3);
    // inside one word, in whole words, and of no bits
    let view = BitSlice::<u8, Lsb0>::from_place(&words, 10, 3);
    assert!(rt; joined(view.domain()) == 0x34 & 0x1c && view.domain().count() == 1);
    let view = BitSlice::<u8, Lsb0>::from_place(&words, 8, 16);
    assert!(rt; joined(view.domain()) == 0x56_34 && view.domain().count() == 2);
    assert!(rt; BitSlice::<u8, Lsb0>::empty().domain().count() == 0);
    let mut view = BitSliceMut::<u8, Lsb0>::from_place_mut(&mut words, 4, 16);
    assert!(rt; joined(view.domain()) == wanted);
    assert!(rt; joined(view.domain_mut().as_domain()) == wanted);
}

// Puts the first word of a sweep.
fn put_first<T: BitRegister>(sweep: &mut Sweep<'_, T>, word: T)
    requires some { 1 ≤ length (sweep_words sweep.old) }
    requires fresh { IsFresh sweep.old Up }
    ensures lender { sweep_lender sweep.new ≡ sweep_lender sweep.old }
    ensures len { length (sweep_words sweep.new) ≡ length (sweep_words sweep.old) }
{
    sweep.put(0, word);
}

// Puts the first of the words that some bits touch.
fn put_first_word<T: BitRegister, O: BitOrder<T>>(
    words: &mut [T],
    place: usize,
    len: usize,
    word: T,
)
    requires some { 0 < len }
    requires short { len ≤ MAX_BITS }
    requires ends { place + len < 2 ^ 63 }
    requires fits { place + len ≤ length words.old * T.BITS }
{
    let mut view = BitSliceMut::<T, O>::from_place_mut(words, place, len);
    view.sweep(Way::Up, |sweep| put_first(sweep, word));
}

#[test]
fn the_words_of_a_window_are_swept(rt: HostRuntime) {
    let mut words = [0u8; 4];
    put_first_word::<u8, Lsb0>(&mut words, 9, 10, 0x42);
    assert!(rt; words == [0x00, 0x42, 0x00, 0x00]);
}
