//! Spans: the rows.

use bit_addressing::{BitIdx, BitSpan, BitSpanError, Lsb0, MAX_BITS, Msb0};
use std::test::Fail;

#[test]
fn spans_are_refused(rt: HostRuntime) -> Result<(), Fail> {
    let alloc = rt.alloc();
    let zero = BitIdx::<u8>::new(0)?;
    let long = BitSpan::<u8, Lsb0>::new(0, zero, MAX_BITS + 1);
    assert!(rt; long == Err(BitSpanError::TooLong(2305843009213693952)));
    let high = BitSpan::<u8, Lsb0>::new(9223372036854775807, zero, 1);
    assert!(rt; high == Err(BitSpanError::TooHigh(9223372036854775807)));
    let both = BitSpan::<u8, Lsb0>::new(usize::MAX, zero, usize::MAX);
    assert!(rt; both == Err(BitSpanError::TooLong(usize::MAX)));
    let long_text = format!(in alloc; "{}", BitSpanError::TooLong(7))?;
    assert!(rt; long_text.as_str() == "span of 7 bits is too long");
    let high_text = format!(in alloc; "{}", BitSpanError::TooHigh(8))?;
    assert!(rt; high_text.as_str() == "span at word 8 ends too high");
    Ok(())
}

#[test]
fn spans_without_bits(rt: HostRuntime) -> Result<(), Fail> {
    let highest = BitSpan::<u8, Lsb0>::new(9223372036854775807, BitIdx::new(0)?, 0)?;
    assert!(rt; highest.elements() == 0);
    let empty = BitSpan::<u8, Msb0>::new(5, BitIdx::new(3)?, 0)?;
    assert!(rt; (empty.elements(), empty.tail().into_inner()) == (0, 3));
    assert!(rt; (empty.fits(4), empty.fits(5)) == (false, true));
    let none = BitSpan::<u8, Msb0>::default();
    assert!(rt; none == BitSpan::<u8, Msb0>::new(0, BitIdx::new(0)?, 0)?);
    assert!(rt; none != empty);
    Ok(())
}

#[test]
fn spans_have_words(rt: HostRuntime) -> Result<(), Fail> {
    for (head, len, elements, tail) in [
        (0, 8, 1, 8),
        (4, 16, 3, 4),
        (7, 1, 1, 8),
        (7, 2, 2, 1),
        (3, 1, 1, 4),
    ] {
        let span = BitSpan::<u8, Lsb0>::new(2, BitIdx::new(head)?, len)?;
        assert!(rt; (span.elements(), span.tail().into_inner()) == (elements, tail));
        assert!(rt; (span.fits(1 + elements), span.fits(2 + elements)) == (false, true));
        let (word, first, bits) = span.raw_parts();
        assert!(rt; (word, first.into_inner(), bits) == (2, head, len));
    }
    Ok(())
}
