//! Packets of bytes, their bits counted from the highest of each byte on.

ghost use Rattle.std.specs.Prelude.{◌≤◌};

use crate::digest::Digest;
use crate::random::Random;
use bit_slice::{
    BitField, BitFieldMut, BitSlice, BitSliceMut, Bits, BitsMut, BitsPieces, Lsb0, Msb0,
};
use std::alloc::{AllocError, Global};

// How many words a message has.
const WORDS: u32 = 200;

// The fields of a header of 160 bits: where each begins, and how many bits it has.
const FIELDS: [(usize, usize); 13] = [
    (0, 4),
    (4, 4),
    (8, 6),
    (14, 2),
    (16, 16),
    (32, 16),
    (48, 3),
    (51, 13),
    (64, 8),
    (72, 8),
    (80, 16),
    (96, 32),
    (128, 32),
];

// How many bits the header has.
const HEADER: usize = 160;

// How many bytes a packet has at most, and how many bits of a message.
const BYTES: usize = 1_500;

const MOST: u32 = 11_000;

/// In each round a packet is written from fields and at most so many bits of a message, read again, and changed on its
/// way.
pub fn work(
    alloc: Global,
    rounds: u32,
    size: u32,
    random: &mut Random,
    digest: &mut Digest,
) -> Result<(), AllocError>
    requires { 20 ≤ size }
{
    let mut bytes = Vec::new(alloc);
    for _ in 0..BYTES {
        bytes.push(0u8)?;
    }
    let mut message = Vec::new(alloc);
    for _ in 0..WORDS {
        message.push(random.whole())?;
    }
    for _ in 0..rounds {
        let changed = random.place(WORDS);
        if changed < message.len() {
            message[changed] = random.whole();
        }
        for (at, width) in FIELDS {
            put(&mut bytes, at, width, random.half());
        }
        let from = random.place(640);
        let gap = random.place(8);
        let len = random.place(size.min(MOST));
        carry(&mut bytes, HEADER + gap, &message, from, len, digest);
        for (at, width) in FIELDS {
            digest.push(u64::from(take(&bytes, at, width)));
        }
        let hops = take(&bytes, 64, 8);
        put(&mut bytes, 64, 8, hops.wrapping_sub(1));
        read(&bytes, HEADER + gap, len, digest);
    }
    Ok(())
}

// Writes a number, its lowest digits, into bits of a packet.
fn put(bytes: &mut [u8], at: usize, width: usize, number: u32) {
    if bytes.len() < BYTES || at > HEADER || width == 0 || width > 32 {
        return;
    }
    let mut field = BitSliceMut::<u8, Msb0>::from_place_mut(bytes, at, width);
    field.store_be(number);
}

// The number that bits of a packet hold.
fn take(bytes: &[u8], at: usize, width: usize) -> u32 {
    if bytes.len() < BYTES || at > HEADER || width == 0 || width > 32 {
        return 0;
    }
    BitSlice::<u8, Msb0>::from_place(bytes, at, width).load_be::<u32>()
}

// Writes bits of a message into a packet, and compares them with those that came before and after.
fn carry(
    bytes: &mut [u8],
    at: usize,
    message: &[u64],
    from: usize,
    len: usize,
    digest: &mut Digest,
) {
    if bytes.len() < BYTES || at > 200 || len > 11_000 || message.len() < 200 || from > 1_000 {
        return;
    }
    let source = BitSlice::<u64, Lsb0>::from_place(message, from, len);
    let mut target = BitSliceMut::<u8, Msb0>::from_place_mut(bytes, at, len);
    digest.answer(target.eq_bits(&source));
    target.clone_from_bitslice(&source);
    digest.answer(target.eq_bits(&source));
    digest.answer(target.cmp_bits(&source).is_eq());
    digest.answer(target.starts_with(&source));
    target.xor_bits(&source);
    digest.answer(target.not_any());
    target.or_bits(&source);
}

// Reads signs of seven bits, and how many ones a packet carries.
fn read(bytes: &[u8], at: usize, len: usize, digest: &mut Digest) {
    if bytes.len() < BYTES || at > 200 || len > 11_000 {
        return;
    }
    let body = BitSlice::<u8, Msb0>::from_place(bytes, at, len);
    for sign in body.chunks_exact(7).take(200) {
        if sign.len() == 7 {
            digest.push(u64::from(sign.load_be::<u8>()));
        }
    }
    digest.count(body.count_ones());
    digest.place(body.last_one());
}
