//! Domains and parts of words: the rows.

use bit_addressing::{BitDomain, BitIdx, BitSpan, Domain, Lsb0, Msb0};
use std::test::Fail;

// The bits 4 to before 20 of three bytes, from the lowest digit on.
fn region(memory: &[u8; 3]) -> Result<Domain<u8, Lsb0>, Fail> {
    let span = BitSpan::<u8, Lsb0>::new(0, BitIdx::new(4)?, 16)?;
    if span.fits(memory.len()) {
        Ok(span.domain(memory))
    } else {
        Err(Fail::from("fits"))
    }
}

#[test]
fn parts_have_words_heads_and_lengths(rt: HostRuntime) -> Result<(), Fail> {
    let memory = [0x12u8, 0x34, 0x56];
    let parts = region(&memory)?.into_bit_domain();
    assert!(rt; parts.enclave().is_none());
    let (head, body, tail) = parts.region().ok_or("region")?;
    assert!(rt; body == [0x34].as_slice());
    let (words, from, count) = head.ok_or("head")?.raw_parts();
    assert!(rt; words == [0x12].as_slice() && (from.into_inner(), count) == (4, 4));
    let (words, from, count) = tail.ok_or("tail")?.raw_parts();
    assert!(rt; words == [0x56].as_slice() && (from.into_inner(), count) == (0, 4));
    let word = [0xf0u8];
    let span = BitSpan::<u8, Msb0>::new(0, BitIdx::new(2)?, 4)?;
    assert!(rt; span.fits(1));
    let part = span
        .domain(&word)
        .into_bit_domain()
        .enclave()
        .ok_or("enclave")?;
    let (words, from, count) = part.raw_parts();
    assert!(rt; words == [0xf0].as_slice() && (from.into_inner(), count) == (2, 4));
    let none = BitDomain::<u8, Lsb0>::default();
    assert!(rt; none.enclave().is_none() && none.region().is_some());
    Ok(())
}

#[test]
fn a_domain_tells_how_many_words_it_has(rt: HostRuntime) -> Result<(), Fail> {
    let memory = [0x12u8, 0x34, 0x56];
    let mut domain = region(&memory)?;
    for left in [3, 2, 1, 0] {
        assert!(rt; domain.size_hint() == (left, Some(left)));
        let _ = domain.next_back();
    }
    let none = Domain::<u8, Lsb0>::default();
    assert!(rt; none.size_hint() == (0, Some(0)));
    assert!(rt; none.enclave().is_none() && none.region().is_some());
    Ok(())
}

#[test]
fn a_domain_gives_its_words_itself(rt: HostRuntime) -> Result<(), Fail> {
    let memory = [0x12u8, 0x34, 0x56];
    let span = BitSpan::<u8, Lsb0>::new(0, BitIdx::new(4)?, 16)?;
    assert!(rt; span.fits(3));
    let mut domain = span.domain(&memory);
    assert!(rt; domain.is_counted());
    assert!(rt; domain.next_back() == Some(0x06));
    assert!(rt; domain.next() == Some(0x10));
    assert!(rt; domain.next_back() == Some(0x34));
    assert!(rt; domain.next().is_none() && domain.next_back().is_none());
    Ok(())
}

#[test]
fn the_words_of_a_domain_are_cloned(rt: HostRuntime) -> Result<(), Fail> {
    let memory = [0x12u8, 0x34, 0x56];
    let span = BitSpan::<u8, Msb0>::new(0, BitIdx::new(4)?, 16)?;
    assert!(rt; span.fits(3));
    let domain = span.domain(&memory);
    assert!(rt; domain.is_counted());
    let mut words = domain.words();
    let mut copy = words.clone()?;
    assert!(rt; words.next() == Some(0x02));
    assert!(rt; copy.len() == 3 && words.len() == 2);
    assert!(rt; copy.next() == Some(0x02) && copy.next_back() == Some(0x50));
    Ok(())
}

#[test]
fn a_span_loads_its_words(rt: HostRuntime) -> Result<(), Fail> {
    let memory = [0x12u8, 0x34, 0x56];
    let span = BitSpan::<u8, Lsb0>::new(0, BitIdx::new(4)?, 16)?;
    assert!(rt; span.fits(3) && span.elements() == 3);
    assert!(rt; span.load_value(&memory, 0) == 0x10);
    assert!(rt; span.load_value(&memory, 1) == 0x34);
    assert!(rt; span.load_value(&memory, 2) == 0x06);
    Ok(())
}
