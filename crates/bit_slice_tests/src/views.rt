//! What an index and each kind of ranges show of a window, past its end too.

use bit_addressing_memory::{BitOrder, BitRegister};
use bit_addressing_sample_orders::FifthStep;
use bit_slice_views::{BitRange, BitSlice, BitSliceIndex, Bits};

// Whether a range, given twice, shows the part of a window from one index up to before another, and nothing where they do
// not lie in the window in that order.
fn gets<'a, R: BitRegister + 'a, O: BitOrder<R>, I: BitRange + Drop>(
    view: BitSlice<'a, R, O>,
    ranges: (I, I),
    from: usize,
    upto: usize,
) -> bool {
    let (range, again) = ranges;
    let lies = from <= upto && upto <= view.len();
    let agrees = match range.get_in(view) {
        Some(part) => lies && part.eq_bits(&view.part(from, upto - from)),
        None => !lies,
    };
    if BitSliceIndex::<'a, R, O>::is_within(&again, view.len()) {
        return agrees && lies && again.index_in(view).eq_bits(&view.part(from, upto - from));
    }
    agrees && !lies
}

// Whether an index shows the bit of a window, and nothing past its end.
fn gets_bit<R: BitRegister, O: BitOrder<R>>(view: BitSlice<'_, R, O>, i: usize) -> bool {
    let agrees = match i.get_in(view) {
        Some(bit) => i < view.len() && *bit == view.bit(i),
        None => i >= view.len(),
    };
    if i < view.len() {
        return agrees && *i.index_in(view) == view.bit(i);
    }
    agrees
}

// Whether each kind of ranges between any two indices, past the end too, shows what it says.
fn ranges<R: BitRegister, O: BitOrder<R>>(view: BitSlice<'_, R, O>) -> bool {
    let len = view.len();
    for from in 0..20usize {
        for upto in 0..20usize {
            if !gets(view, (from..upto, from..upto), from, upto)
                || !gets(view, (from..=upto, from..=upto), from, upto + 1)
            {
                return false;
            }
        }
        if !gets(view, (from.., from..), from, len)
            || !gets(view, (..from, ..from), 0, from)
            || !gets(view, (..=from, ..=from), 0, from + 1)
            || !gets_bit(view, from)
        {
            return false;
        }
    }
    gets(view, (.., ..), 0, len)
}

#[test]
fn indices_and_ranges_show_parts(rt: HostRuntime) {
    let words = [0x5au8, 0xc3, 0x96];
    for len in [0, 1, 6, 13] {
        let view = BitSlice::<u8, FifthStep>::from_place(&words, 7, len);
        assert!(rt; ranges(view), "{len}");
        assert!(rt; (0..usize::MAX).get_in(view).is_none() && usize::MAX.get_in(view).is_none());
        assert!(rt; (0..=usize::MAX).get_in(view).is_none());
        assert!(rt; (..=usize::MAX).get_in(view).is_none());
    }
}
