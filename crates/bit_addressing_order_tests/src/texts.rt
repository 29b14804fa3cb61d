//! The texts.

use bit_addressing_order::{BitEnd, BitIdx, BitMask, BitPos, BitSel};
use bit_addressing_verify::{OrderFault, WordFault};
use std::alloc::{AllocError, Global};
use std::fmt;
use std::test::Fail;

// What a value writes as `Binary`: a hole `{:b}` takes integers alone.
#[derive(Drop)]
struct InBinary<T>(T);

impl<T: fmt::Binary> fmt::Display for InBinary<T> {
    fn fmt<W: fmt::Write>(&self, f: &mut fmt::Formatter<W>) -> fmt::Result {
        self.0.fmt(f)
    }
}

// Whether a value is written so for a reader, in binary and for a programmer, a blank between each two.
fn has_texts<T: Copy + fmt::Display + fmt::Binary + fmt::Debug>(
    alloc: Global,
    value: T,
    texts: &str,
) -> Result<bool, AllocError> {
    let text = format!(in alloc; "{value} {} {value:?}", InBinary(value))?;
    Ok(text.as_str() == texts)
}

#[test]
fn texts_of_places(rt: HostRuntime) -> Result<(), Fail> {
    let alloc = rt.alloc();
    let index = BitIdx::<u8>::new(3)?;
    assert!(rt; has_texts(alloc, index, "011 011 BitIdx<u8>(011)")?);
    let end = BitEnd::<u8>::new(8).ok_or("end")?;
    assert!(rt; has_texts(alloc, end, "1000 1000 BitEnd<u8>(1000)")?);
    let position = BitPos::<usize>::new(9).ok_or("position")?;
    assert!(rt; has_texts(alloc, position, "001001 001001 BitPos<usize>(001001)")?);
    let end = BitEnd::<u128>::new(5).ok_or("end")?;
    assert!(rt; has_texts(alloc, end, "00000101 00000101 BitEnd<u128>(00000101)")?);
    Ok(())
}

#[test]
fn texts_of_words(rt: HostRuntime) -> Result<(), Fail> {
    let alloc = rt.alloc();
    let selector = BitSel::<u8>::new(16).ok_or("selector")?;
    let selector_texts = "00010000 00010000 BitSel<u8>(00010000)";
    assert!(rt; has_texts(alloc, selector, selector_texts)?);
    let mask = BitMask::new(0x0a2cu16);
    let mask_texts = "0000101000101100 0000101000101100 BitMask<u16>(0000101000101100)";
    assert!(rt; has_texts(alloc, mask, mask_texts)?);
    Ok(())
}

#[test]
fn texts_of_errors(rt: HostRuntime) -> Result<(), Fail> {
    let alloc = rt.alloc();
    let error = BitIdx::<u8>::new(8).err().ok_or("no error")?;
    assert!(rt; format!(in alloc; "{error}")?.as_str() == "index 8 is not below 8 of u8");
    assert!(rt; format!(in alloc; "{error:?}")?.as_str() == "BitIdxError<u8>(8)");
    let error = BitIdx::<u128>::new(128).err().ok_or("no error")?;
    assert!(rt; format!(in alloc; "{error}")?.as_str() == "index 128 is not below 128 of u128");
    Ok(())
}

#[test]
fn texts_of_faults(rt: HostRuntime) -> Result<(), Fail> {
    let index = Some(BitIdx::<u16>::new(10)?);
    let rows = [
        (
            OrderFault::Selector(BitIdx::new(3)?),
            "at u16, the selector of index 3 is not its position alone",
        ),
        (
            OrderFault::Repeated(BitIdx::new(12)?),
            "at u16, the position of index 12 is that of an index below it",
        ),
        (
            OrderFault::Mask(index, BitEnd::new(16)),
            "at u16, the mask from 10 to 16 is not the positions of its indices",
        ),
        (
            OrderFault::Mask(index, None),
            "at u16, the mask from 10 to the end is not the positions of its indices",
        ),
        (
            OrderFault::Mask(None, BitEnd::new(2)),
            "at u16, the mask from the start to 2 is not the positions of its indices",
        ),
        (
            OrderFault::Mask(None, None),
            "at u16, the mask from the start to the end is not the positions of its indices",
        ),
    ];
    for (fault, text) in rows {
        let fault = WordFault::U16(fault);
        assert!(rt;
            format!(in rt.alloc(); "{fault}")?.as_str() == text,
            "{text}"
        );
    }
    Ok(())
}
