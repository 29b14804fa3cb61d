//! Image bytes of a list of bits.

ghost use Rattle.std.specs.Prelude.{◌≡◌, ◌+◌, ◌*◌, ◌<◌, ◌≤◌, false, get_or, length, take, drop, IfOk};
ghost use Rattle.bit_slice_views.specs.SpanLimits.{MAX_BITS};
ghost use Rattle.bit_addressing_memory.specs.Memory.{read_by};
ghost use Rattle.bit_slice_views.specs.View.{view_bits};
ghost use Rattle.bit_table_layout.specs.Images.{byte_of, bytes_of};
ghost use Rattle.bit_table_image.specs.Bytes.{AreBytes, HoldBits};

use bit_addressing_memory::{BitOrder, BitRegister, BulkOp, Lsb0, Msb0, bit_loop_limit};
use bit_containers_vector::BitVec;
use bit_slice_views::{BitSlice, Bits};
use bit_table_layout::{Layout, Rule};
use std::alloc::{AllocError, Global};

// How many bits a byte has.
const BYTE: usize = 8;

/// The image bytes of a list: its bits cut by eight, the rest zero. The first bit of eight is the lowest of its byte
/// under `low`, the highest under `high`. They depend on the list and the layout's rule alone, not on words and their
/// order.
pub fn write<T: BitRegister, O: BitOrder<T>>(
    alloc: Global,
    layout: &Layout,
    bits: BitSlice<'_, T, O>,
) -> Result<Vec<u8>, AllocError>
    ensures { IfOk result (λ bytes. bytes.items
        ≡ bytes_of layout.now.rule (view_bits (read_by T.BitRegister O.position) bits.entry)) }
{
    let rule = layout.rule();
    if bits.len() <= bit_loop_limit::<T, O>(BulkOp::Bytes) {
        return bytes_singly(alloc, rule, bits);
    }
    match rule {
        Rule::Low => bytes_in::<Lsb0, T, O>(alloc, bits),
        Rule::High => bytes_in::<Msb0, T, O>(alloc, bits),
    }
}

// The same, byte by byte.
fn bytes_singly<T: BitRegister, O: BitOrder<T>>(
    alloc: Global,
    rule: Rule,
    bits: BitSlice<'_, T, O>,
) -> Result<Vec<u8>, AllocError>
    ensures { IfOk result (λ bytes. bytes.items
        ≡ bytes_of rule (view_bits (read_by T.BitRegister O.position) bits.entry)) }
{
    let (_, _, len) = bits.parts();
    let mut bytes = Vec::with_capacity(alloc, len.div_ceil(BYTE))?;
    for index in 0..len.div_ceil(BYTE) {
        bytes.push(byte(bits, rule, BYTE * index))?;
    }
    Ok(bytes)
}

// The byte of the eight bits from `first` on, or of fewer and then zeros.
fn byte<T: BitRegister, O: BitOrder<T>>(bits: BitSlice<'_, T, O>, rule: Rule, first: usize) -> u8
    requires { first ≤ MAX_BITS }
    ensures { result
        ≡ byte_of rule (take 8 (drop first (view_bits (read_by T.BitRegister O.position) bits.entry))) }
{
    let mut byte = 0;
    for index in 0..BYTE {
        let place = match rule {
            Rule::Low => BYTE - 1 - index,
            Rule::High => index,
        };
        byte = 2 * byte + u8::from(bit_at(bits, first + place));
    }
    byte
}

// A bit, or 0 past the end.
fn bit_at<T: BitRegister, O: BitOrder<T>>(bits: BitSlice<'_, T, O>, index: usize) -> bool
    ensures { result ≡ get_or (view_bits (read_by T.BitRegister O.position) bits.entry) index false }
{
    index < bits.len() && bits.bit(index)
}

// The bytes that hold a list in an order of their bits, the rest zero.
fn bytes_in<P: BitOrder<u8>, T: BitRegister, O: BitOrder<T>>(
    alloc: Global,
    bits: BitSlice<'_, T, O>,
) -> Result<Vec<u8>, AllocError>
    ensures { IfOk result (λ bytes. HoldBits P.position bytes.items
        (view_bits (read_by T.BitRegister O.position) bits.entry)) }
{
    let (_, _, len) = bits.parts();
    let mut image = BitVec::<u8, P>::with_capacity(alloc, len)?;
    image.extend_from_bitslice(&bits)?;
    let bytes = image.into_vec();
    are_bytes(bytes.as_slice());
    Ok(bytes)
}

// Says of each byte that it is one, which the proof of its caller needs; it does nothing.
#[inline(always)]
fn are_bytes(bytes: &[u8])
    ensures { AreBytes bytes.now }
{
    let _count = bytes.len();
}
